//! Each write with memory to spare, by a sole holder and where another holds what is written, at sizes where a limit
//! could hide: a bucket of a hundred, a branch with every child, and more pairs than 16 bits count.

use super::{Trie, assert_is, assert_value, copy, key, new, put, put_in, remove_in, removed, seen};
use std::alloc::Global;
use std::process::Abort;
use test_keys::ChosenKey;
use trie_node::size;

// Who holds what is written: nobody else, another who keeps the root, or the old root that the write leaves.
#[derive(Clone, Copy, Debug)]
enum Holder {
    Sole,
    Other,
    OldRoot,
}

// Which words the keys have.
#[derive(Clone, Copy, Debug)]
enum Words {
    One,
    OneBranch,
    Many,
}

impl Words {
    // How many keys there are.
    fn count(self) -> u32 {
        match self {
            Words::One => 100,
            Words::OneBranch => 32,
            Words::Many => 70_000,
        }
    }

    // A key by its number. The odd factor spreads the words over all digits.
    fn key(self, number: u32) -> ChosenKey {
        match self {
            Words::One => key(7, number),
            Words::OneBranch => key(u64::from(number), 0),
            Words::Many => key(u64::from(number).wrapping_mul(0x9e37_79b9_7f4a_7c15), 0),
        }
    }
}

// How many pairs there are.
fn len(trie: &Trie) -> u64 {
    size(trie.root())
}

// Puts the number at the key. Another who holds the root sees what stood there.
fn put_beside(
    rt: &impl Abort,
    alloc: Global,
    trie: &mut Trie,
    holder: Holder,
    pair: (ChosenKey, u32),
) {
    match holder {
        Holder::Sole => put_in(rt, alloc, trie, pair, 2),
        Holder::Other => {
            let other = copy(rt, trie);
            let before = len(trie);
            put_in(rt, alloc, trie, pair, 2);
            assert_is(
                rt,
                (len(&other), other.find(&pair.0).is_none()),
                (before, true),
            );
        }
        Holder::OldRoot => *trie = put(rt, alloc, trie, pair, 2),
    }
}

// Removes the key. Another who holds the root still sees it.
fn remove_beside(rt: &impl Abort, alloc: Global, trie: &mut Trie, holder: Holder, at: ChosenKey) {
    match holder {
        Holder::Sole => remove_in(rt, alloc, trie, at, 3),
        Holder::Other => {
            let other = copy(rt, trie);
            let before = len(trie);
            remove_in(rt, alloc, trie, at, 3);
            assert_is(rt, (len(&other), other.find(&at).is_some()), (before, true));
        }
        Holder::OldRoot => *trie = removed(rt, alloc, trie, at, 3),
    }
}

// Puts each key and removes each.
fn assert_written(rt: &impl Abort, alloc: Global, words: Words, holder: Holder) {
    let mut trie = new(rt, alloc, 1);
    for number in 0..words.count() {
        put_beside(rt, alloc, &mut trie, holder, (words.key(number), number));
    }
    assert_is(rt, len(&trie), u64::from(words.count()));
    for number in 0..words.count() {
        assert_value(rt, &trie, words.key(number), Some(number));
        remove_beside(rt, alloc, &mut trie, holder, words.key(number));
    }
    assert_is(rt, (len(&trie), seen(rt, alloc, &trie).lines.len()), (0, 1));
}

#[test]
fn a_bucket_of_a_hundred_is_written_by_any_holder(rt: HostRuntime) {
    for holder in [Holder::Sole, Holder::Other, Holder::OldRoot] {
        assert_written(&rt, rt.alloc(), Words::One, holder);
    }
}

#[test]
fn a_branch_with_every_child_is_written_by_any_holder(rt: HostRuntime) {
    for holder in [Holder::Sole, Holder::Other, Holder::OldRoot] {
        assert_written(&rt, rt.alloc(), Words::OneBranch, holder);
    }
}

#[test]
fn seventy_thousand_pairs_are_written_by_any_holder(rt: HostRuntime) {
    for holder in [Holder::Sole, Holder::Other, Holder::OldRoot] {
        assert_written(&rt, rt.alloc(), Words::Many, holder);
    }
}
