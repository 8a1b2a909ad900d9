//! The maps of two tries as one.

use super::random::{any_key, assert_is_map, insert};
use super::{
    Trie, assert_is, assert_lines, assert_pairs, assert_same, key, new, put, seen, trie_of,
};
use std::alloc::Global;
use std::collections::BTreeMap;
use std::panic::Expect;
use std::process::Abort;
use test_keys::{ChosenKey, Random};
use test_roots::{Line, Outline};
use trie_node::Stamp;

// The map of both, where the value of the left one wins.
fn merged(rt: &impl Abort, alloc: Global, (left, right): (&Trie, &Trie), stamp: u64) -> Trie {
    left.merged(alloc, right, Stamp(stamp))
        .expect(rt, "not merged")
}

// The merged root has these nodes and pairs.
fn assert_merged(
    rt: &impl Abort,
    alloc: Global,
    both: (&Trie, &Trie),
    lines: &[Line],
    pairs: &[(ChosenKey, u32)],
) {
    let seen = seen(rt, alloc, &merged(rt, alloc, both, 2));
    assert_lines(rt, &seen.lines, lines);
    assert_pairs(rt, &seen.pairs, pairs);
}

#[test]
fn values_of_the_left_win(rt: HostRuntime) {
    let alloc = rt.alloc();
    let (p, q, r) = (key(0, 0), key(32, 0), key(1, 0));
    let left = trie_of(&rt, alloc, &[(p, 1), (q, 2)]);
    let right = trie_of(&rt, alloc, &[(q, 3), (r, 4)]);
    let lines = [
        Line::branch(0, 0b11, 3),
        Line::branch(1, 0b11, 2),
        Line::pairs(2, 1),
        Line::pairs(2, 1),
        Line::pairs(1, 1),
    ];
    let all = [(p, 1), (q, 2), (r, 4)];
    assert_merged(&rt, alloc, (&left, &right), &lines, &all);
    let all = [(p, 1), (q, 3), (r, 4)];
    assert_merged(&rt, alloc, (&right, &left), &lines, &all);
}

#[test]
fn buckets_of_one_word_are_one(rt: HostRuntime) {
    let alloc = rt.alloc();
    let (k0, k1, k2, k3) = (key(7, 0), key(7, 1), key(7, 2), key(7, 3));
    let few = trie_of(&rt, alloc, &[(k1, 1), (k2, 2)]);
    let many = trie_of(&rt, alloc, &[(k0, 5), (k2, 6), (k3, 7)]);
    let lines = [Line::branch(0, 1 << 7, 4), Line::pairs(1, 4)];
    let all = [(k0, 5), (k1, 1), (k2, 2), (k3, 7)];
    assert_merged(&rt, alloc, (&few, &many), &lines, &all);
    let all = [(k0, 5), (k1, 1), (k2, 6), (k3, 7)];
    assert_merged(&rt, alloc, (&many, &few), &lines, &all);
}

#[test]
fn a_bucket_meets_a_branch(rt: HostRuntime) {
    let alloc = rt.alloc();
    let bucket = trie_of(&rt, alloc, &[(key(32, 0), 1), (key(32, 1), 2)]);
    let below = trie_of(&rt, alloc, &[(key(0, 0), 3), (key(32, 1), 4)]);
    let lines = [
        Line::branch(0, 1, 3),
        Line::branch(1, 0b11, 3),
        Line::pairs(2, 1),
        Line::pairs(2, 2),
    ];
    let all = [(key(0, 0), 3), (key(32, 0), 1), (key(32, 1), 2)];
    assert_merged(&rt, alloc, (&bucket, &below), &lines, &all);
    let all = [(key(0, 0), 3), (key(32, 0), 1), (key(32, 1), 4)];
    assert_merged(&rt, alloc, (&below, &bucket), &lines, &all);
}

// The merged root is the one that is outlined. Its stamps show that it is none of the merge's.
fn assert_merged_is(rt: &impl Abort, alloc: Global, both: (&Trie, &Trie), before: &Outline<u32>) {
    assert_same(rt, alloc, &merged(rt, alloc, both, 4), before);
}

#[test]
fn an_empty_map_changes_nothing(rt: HostRuntime) {
    let alloc = rt.alloc();
    let empty = new(&rt, alloc, 3);
    let some = trie_of(&rt, alloc, &[(key(0, 0), 1), (key(1, 0), 2)]);
    let before = seen(&rt, alloc, &some);
    assert_merged_is(&rt, alloc, (&some, &empty), &before);
    assert_merged_is(&rt, alloc, (&empty, &some), &before);
    let before = seen(&rt, alloc, &empty);
    assert_merged_is(&rt, alloc, (&empty, &empty), &before);
}

// The trie of those of 1,024 words that stand before a position below a child of the root, or of the others.
fn interval(rt: &impl Abort, alloc: Global, before: bool) -> Trie {
    let mut trie = new(rt, alloc, 1);
    for word in 0..1024 {
        if ((word % 32, word / 32) < (10, 5)) == before {
            trie = put(rt, alloc, &trie, (key(u64::from(word), 0), word), 1);
        }
    }
    trie
}

// The map of the 1,024 words.
fn all_words(rt: &impl Abort, alloc: Global) -> BTreeMap<ChosenKey, u32> {
    let mut map = BTreeMap::new(alloc);
    for word in 0..1024 {
        insert(rt, &mut map, key(u64::from(word), 0), word);
    }
    map
}

// How many nodes there are, and how many are the merge's.
fn made(seen: &Outline<u32>) -> (usize, usize) {
    let made = seen.stamps.iter().filter(|stamp| stamp.0 == 2).count();
    (seen.lines.len(), made)
}

// The maps of two intervals of positions that meet below a child of the root: of its nodes two are the merge's.
#[test]
fn intervals_share_their_subtries(rt: HostRuntime) {
    let alloc = rt.alloc();
    let (left, right) = (interval(&rt, alloc, true), interval(&rt, alloc, false));
    let both = merged(&rt, alloc, (&left, &right), 2);
    assert_is_map(&rt, alloc, &both, &all_words(&rt, alloc));
    assert_is(&rt, made(&seen(&rt, alloc, &both)), (1057, 2));
}

// Puts random pairs in a trie, and in a map.
fn random_trie(
    rt: &impl Abort,
    alloc: Global,
    random: &mut Random,
    map: &mut BTreeMap<ChosenKey, u32>,
) -> Trie {
    let mut trie = new(rt, alloc, 1);
    for value in 0..random.next(12) {
        let at = any_key(random);
        trie = put(rt, alloc, &trie, (at, value), 1);
        insert(rt, map, at, value);
    }
    trie
}

#[test]
fn random_merges_agree_with_ordered_maps(rt: HostRuntime) {
    let alloc = rt.alloc();
    let mut random = Random(1122);
    for _ in 0..2_000 {
        let mut map = BTreeMap::new(alloc);
        let right = random_trie(&rt, alloc, &mut random, &mut map);
        let left = random_trie(&rt, alloc, &mut random, &mut map);
        let both = merged(&rt, alloc, (&left, &right), 2);
        assert_is_map(&rt, alloc, &both, &map);
    }
}
