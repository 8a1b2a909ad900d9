//! Writes where a root stands, with memory refused.

use super::memory::{P, Q, R, WAY, assert_same, spare_blocks, take_all_but};
use super::{
    Trie, assert_holds, assert_is, assert_value, copy, key, new, put_in, seen, shared_key,
    shared_value, trie_of,
};
use std::alloc::Global;
use std::panic::Expect;
use std::process::Abort;
use test_keys::{ChosenKey, take_all};
use test_roots::Line;
use trie_node::Stamp;

// Puts 4 at the key with every request refused. Whether it is done.
fn is_put_without_memory(rt: &impl Abort, alloc: Global, trie: &mut Trie, at: ChosenKey) -> bool {
    let key = shared_key(rt, alloc, at);
    let value = shared_value(rt, alloc, 4);
    let _taken = take_all(alloc).expect(rt, "no list");
    trie.put_in(alloc, key, value, Stamp(2)).is_ok()
}

// Removes the key with every request refused. Whether it is done.
fn is_removed_without_memory(
    rt: &impl Abort,
    alloc: Global,
    trie: &mut Trie,
    at: ChosenKey,
) -> bool {
    let _taken = take_all(alloc).expect(rt, "no list");
    trie.remove_in(alloc, &at, Stamp(2)).is_ok()
}

// A body that copied a node would ask for memory.
#[test]
fn a_sole_holder_replaces_and_removes_without_memory(rt: HostRuntime) {
    let alloc = rt.alloc();
    let mut trie = trie_of(&rt, alloc, &[(P, 1), (Q, 2), (key(1, 0), 3)]);
    assert_is(&rt, is_put_without_memory(&rt, alloc, &mut trie, P), true);
    assert_is(
        &rt,
        is_removed_without_memory(&rt, alloc, &mut trie, Q),
        true,
    );
    assert_holds(&rt, alloc, &trie, &[(P, 4), (key(1, 0), 3)]);
}

// The same of keys that share a bucket.
#[test]
fn a_sole_holder_writes_a_bucket_without_memory(rt: HostRuntime) {
    let alloc = rt.alloc();
    let (x, y, z) = (key(7, 0), key(7, 1), key(7, 2));
    let mut trie = trie_of(&rt, alloc, &[(x, 1), (y, 2), (z, 3)]);
    assert_is(&rt, is_put_without_memory(&rt, alloc, &mut trie, y), true);
    assert_is(
        &rt,
        is_removed_without_memory(&rt, alloc, &mut trie, x),
        true,
    );
    assert_holds(&rt, alloc, &trie, &[(y, 4), (z, 3)]);
}

// A key that joins a bucket asks for room before anything is written.
#[test]
fn a_refused_put_leaves_a_bucket_as_it_stands(rt: HostRuntime) {
    let alloc = rt.alloc();
    let (w, x, y, z) = (key(7, 0), key(7, 1), key(7, 2), key(7, 3));
    let mut trie = trie_of(&rt, alloc, &[(w, 1), (x, 2), (z, 3)]);
    let before = seen(&rt, alloc, &trie);
    assert_is(&rt, is_put_without_memory(&rt, alloc, &mut trie, y), false);
    assert_same(&rt, alloc, &trie, &before);
    put_in(&rt, alloc, &mut trie, (y, 4), 2);
    assert_holds(&rt, alloc, &trie, &[(w, 1), (x, 2), (y, 4), (z, 3)]);
}

// Puts Q with `given` requests granted. Whether it is done.
fn is_put_with(rt: &impl Abort, alloc: Global, trie: &mut Trie, given: usize) -> bool {
    let key = shared_key(rt, alloc, Q);
    let value = shared_value(rt, alloc, 3);
    let mut spare = spare_blocks(rt, alloc);
    let _taken = take_all_but(rt, alloc, &mut spare, given);
    trie.put_in(alloc, key, value, Stamp(2)).is_ok()
}

// Puts Q with one request more granted each time: with fewer than these the trie is as it was.
fn assert_put_takes(rt: &impl Abort, alloc: Global, trie: &mut Trie, requests: usize) {
    let before = seen(rt, alloc, trie);
    for given in 0..requests {
        assert_is(rt, is_put_with(rt, alloc, trie, given), false);
        assert_same(rt, alloc, trie, &before);
    }
    assert_is(rt, is_put_with(rt, alloc, trie, requests), true);
    assert_value(rt, trie, Q, Some(3));
}

// A leaf gives way to branches down to the seventh digit, of which the lowest has it and a new leaf: all
// of a way but the root. Where another holds the root, that is copied too: one more.
#[test]
fn refused_puts_leave_the_root_as_it_stands(rt: HostRuntime) {
    let alloc = rt.alloc();
    let mut sole = trie_of(&rt, alloc, &[(P, 1), (key(1, 0), 2)]);
    let mut shared = copy(&rt, &sole);
    let other = copy(&rt, &shared);
    let before = seen(&rt, alloc, &other);
    assert_put_takes(&rt, alloc, &mut shared, WAY);
    assert_same(&rt, alloc, &other, &before);
    drop(other);
    drop(shared);
    assert_put_takes(&rt, alloc, &mut sole, WAY - 1);
}

// The key of a child of the root, by its digit.
fn child(digit: u32) -> ChosenKey {
    key(u64::from(digit), 0)
}

// A row grows where it is full, from 2 places to 4, 8, 16 and 32: no other child of a sole holder's root asks for memory,
// and a refused one leaves the root as it was.
#[test]
fn a_full_row_grows_or_stays_as_it_is(rt: HostRuntime) {
    let alloc = rt.alloc();
    let mut trie = new(&rt, alloc, 1);
    for digit in 0..32 {
        let before = seen(&rt, alloc, &trie);
        let is_full = [2, 4, 8, 16].contains(&digit);
        let is_put = is_put_without_memory(&rt, alloc, &mut trie, child(digit));
        assert_is(&rt, is_put, !is_full);
        if is_full {
            assert_same(&rt, alloc, &trie, &before);
            put_in(&rt, alloc, &mut trie, (child(digit), 4), 1);
        }
        assert_value(&rt, &trie, child(digit), Some(4));
    }
    let all = seen(&rt, alloc, &trie);
    assert_is(
        &rt,
        all.lines.first().copied(),
        Some(Line::branch(0, u32::MAX, 32)),
    );
}

// Removes Q with `given` requests granted. Whether it is done.
fn is_removed_with(rt: &impl Abort, alloc: Global, trie: &mut Trie, given: usize) -> bool {
    let mut spare = spare_blocks(rt, alloc);
    let _taken = take_all_but(rt, alloc, &mut spare, given);
    trie.remove_in(alloc, &Q, Stamp(2)).is_ok()
}

// A removal from a root that another holds copies the branches of a way.
#[test]
fn refused_removals_leave_the_root_as_it_stands(rt: HostRuntime) {
    let alloc = rt.alloc();
    let mut trie = trie_of(&rt, alloc, &[(P, 1), (Q, 2), (R, 3)]);
    let other = copy(&rt, &trie);
    let before = seen(&rt, alloc, &trie);
    for given in 0..WAY {
        let is_removed = is_removed_with(&rt, alloc, &mut trie, given);
        assert_is(&rt, is_removed, false);
        assert_same(&rt, alloc, &trie, &before);
    }
    let is_removed = is_removed_with(&rt, alloc, &mut trie, WAY);
    assert_is(&rt, is_removed, true);
    assert_value(&rt, &trie, Q, None);
    assert_same(&rt, alloc, &other, &before);
}
