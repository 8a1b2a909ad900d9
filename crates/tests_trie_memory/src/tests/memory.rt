//! Writes whose requests for memory are refused: the first, then the second, and so on.
//!
//! All memory is taken, and one block more is given back each time, of the size that is asked for next.

use super::{Trie, assert_is, assert_value, key, seen, shared_key, shared_value, trie_of};
use std::alloc::Global;
use std::panic::Expect;
use std::process::Abort;
use std::sync::Arc;
use test_keys::{ChosenKey, Shortage, take_all};
use test_roots::Outline;
use trie_node::{NoMemory, Stamp};

// More blocks than are given back.
pub(super) const MOST_GIVEN: usize = 16;

// The requests for the branches of a way from the root to the seventh digit: the row of each. The C library keeps seven
// blocks of one size ready, and no more, so the words of these tests part there.
pub(super) const WAY: usize = 7;

// The bytes of a row of two places: the count of its handles, and its nodes.
pub(super) const TWO: usize = 72;

// A block of `size` bytes.
pub(super) fn block(rt: &impl Abort, alloc: Global, size: usize) -> Vec<u8> {
    Vec::with_capacity(alloc, size).expect(rt, "no block")
}

// Blocks for copies of the branches of a way that ends at two leaves below the seventh digit, each of which has one child
// or two.
pub(super) fn spare_blocks(rt: &impl Abort, alloc: Global) -> Vec<Vec<u8>> {
    let mut blocks = Vec::with_capacity(alloc, MOST_GIVEN).expect(rt, "no list");
    for _ in 0..WAY {
        blocks.push(block(rt, alloc, TWO)).expect(rt, "no room");
    }
    blocks
}

// All memory but for the last `given` blocks, which are dropped.
pub(super) fn take_all_but(
    rt: &impl Abort,
    alloc: Global,
    spare: &mut Vec<Vec<u8>>,
    given: usize,
) -> Vec<Vec<u8>> {
    let taken = take_all(alloc).expect(rt, "no list");
    for _ in 0..given {
        let _ = spare.pop();
    }
    taken
}

// The stamps are these.
fn assert_stamps(rt: &impl Abort, seen: &[Stamp], want: &[Stamp]) {
    assert_eq!(rt; seen, want);
}

// The root is as it was.
pub(super) fn assert_same(rt: &impl Abort, alloc: Global, trie: &Trie, before: &Outline<u32>) {
    let now = seen(rt, alloc, trie);
    super::assert_lines(rt, &now.lines, &before.lines);
    assert_stamps(rt, &now.stamps, &before.stamps);
    super::assert_pairs(rt, &now.pairs, &before.pairs);
}

// Puts 3 at the key with `given` requests granted.
fn put_with(
    rt: &impl Abort,
    alloc: Global,
    trie: &Trie,
    at: ChosenKey,
    given: usize,
) -> Result<Trie, NoMemory> {
    let key = shared_key(rt, alloc, at);
    let value = shared_value(rt, alloc, 3);
    let mut spare = spare_blocks(rt, alloc);
    let _taken = take_all_but(rt, alloc, &mut spare, given);
    trie.with_put(alloc, key, value, Stamp(2))
}

// Removes the key with `given` requests granted.
fn removed_with(
    rt: &impl Abort,
    alloc: Global,
    trie: &Trie,
    at: ChosenKey,
    given: usize,
) -> Result<Trie, NoMemory> {
    let mut spare = spare_blocks(rt, alloc);
    let _taken = take_all_but(rt, alloc, &mut spare, given);
    trie.with_removed(alloc, &at, Stamp(2))
}

// Keys whose words differ in their seventh digit alone.
pub(super) const P: ChosenKey = ChosenKey { path: 0, id: 0 };

pub(super) const Q: ChosenKey = ChosenKey {
    path: 0xc000_0000,
    id: 0,
};

pub(super) const R: ChosenKey = ChosenKey {
    path: 0x8000_0000,
    id: 0,
};

// A put that makes a leaf and copies the branches of a way: one request for a branch, and none for the leaf.
#[test]
fn refused_puts_leave_the_root(rt: HostRuntime) {
    let alloc = rt.alloc();
    let trie = trie_of(&rt, alloc, &[(P, 1), (key(1, 0), 2)]);
    let before = seen(&rt, alloc, &trie);
    for given in 0..WAY {
        let answer = put_with(&rt, alloc, &trie, Q, given);
        assert_is(&rt, answer.is_ok(), false);
        assert_same(&rt, alloc, &trie, &before);
    }
    let written = put_with(&rt, alloc, &trie, Q, WAY).expect(&rt, "refused");
    assert_same(&rt, alloc, &trie, &before);
    assert_value(&rt, &written, Q, Some(3));
}

// A removal that copies the branches of a way.
#[test]
fn refused_removals_leave_the_root(rt: HostRuntime) {
    let alloc = rt.alloc();
    let trie = trie_of(&rt, alloc, &[(P, 1), (Q, 2), (R, 3)]);
    let before = seen(&rt, alloc, &trie);
    for given in 0..WAY {
        let answer = removed_with(&rt, alloc, &trie, Q, given);
        assert_is(&rt, answer.is_ok(), false);
        assert_same(&rt, alloc, &trie, &before);
    }
    let written = removed_with(&rt, alloc, &trie, Q, WAY).expect(&rt, "refused");
    assert_same(&rt, alloc, &trie, &before);
    assert_value(&rt, &written, Q, None);
}

// A key whose word differs from the first key's in its last digit alone, and one between them.
const LAST: ChosenKey = ChosenKey {
    path: 0xc000_0000_0000_0000,
    id: 0,
};

const MIDDLE: ChosenKey = ChosenKey {
    path: 0x8000_0000_0000_0000,
    id: 0,
};

// How often some bytes more are left, and how many more.
const STEPS: usize = 64;

const STEP: usize = 64;

// Whether the key is put with `bytes` bytes left: in a root of its own, and where a root stands that another holds.
fn are_put(rt: &impl Abort, alloc: Global, trie: &Trie, bytes: usize) -> (bool, bool) {
    let mut place = super::copy(rt, trie);
    let (first, second) = (shared_key(rt, alloc, LAST), shared_key(rt, alloc, LAST));
    let value = shared_value(rt, alloc, 3);
    let same = Arc::try_clone(&value).expect(rt, "no handle");
    let _shortage = Shortage::with_bytes(alloc, bytes).expect(rt, "no shortage");
    let made = trie.with_put(alloc, first, value, Stamp(2)).is_ok();
    let placed = place.put_in(alloc, second, same, Stamp(2)).is_ok();
    (made, placed)
}

// The same of a removal.
fn are_removed(rt: &impl Abort, alloc: Global, trie: &Trie, bytes: usize) -> (bool, bool) {
    let mut place = super::copy(rt, trie);
    let _shortage = Shortage::with_bytes(alloc, bytes).expect(rt, "no shortage");
    let made = trie.with_removed(alloc, &LAST, Stamp(2)).is_ok();
    let placed = place.remove_in(alloc, &LAST, Stamp(2)).is_ok();
    (made, placed)
}

// Writes that copy the thirteen branches of a whole way: none with no memory, both with enough, and the root as it was
// each time.
#[test]
fn writes_of_a_whole_way_leave_the_root(rt: HostRuntime) {
    let alloc = rt.alloc();
    let few = trie_of(&rt, alloc, &[(P, 1), (key(1, 0), 2)]);
    let more = trie_of(&rt, alloc, &[(P, 1), (LAST, 2), (MIDDLE, 3)]);
    let (few_before, more_before) = (seen(&rt, alloc, &few), seen(&rt, alloc, &more));
    assert_is(&rt, are_put(&rt, alloc, &few, 0), (false, false));
    assert_is(&rt, are_removed(&rt, alloc, &more, 0), (false, false));
    for step in 1..STEPS {
        let _ = are_put(&rt, alloc, &few, step * STEP);
        assert_same(&rt, alloc, &few, &few_before);
        let _ = are_removed(&rt, alloc, &more, step * STEP);
        assert_same(&rt, alloc, &more, &more_before);
    }
    assert_is(&rt, are_put(&rt, alloc, &few, STEPS * STEP), (true, true));
    assert_is(
        &rt,
        are_removed(&rt, alloc, &more, STEPS * STEP),
        (true, true),
    );
}
