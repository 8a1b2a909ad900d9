//! Exchanges of the value of a key that is there, with every request for memory refused.

use super::memory::{P, Q, R, assert_same};
use super::{
    Trie, assert_holds, assert_is, assert_value, copy, key, new, put, seen, shared_value, trie_of,
};
use std::alloc::Global;
use std::panic::Expect;
use std::process::Abort;
use test_keys::{ChosenKey, take_all};
use trie_node::{Always, Condition, Exchange, IfAbsent, IfEqual, Stamp};

// What an exchange for 9 at the key returns: what the key had, or none where the 9 comes back.
fn exchanged<C: Condition<u32>>(
    rt: &impl Abort,
    alloc: Global,
    trie: &mut Trie,
    at: ChosenKey,
    condition: &C,
) -> Option<u32> {
    let nine = shared_value(rt, alloc, 9);
    let taken = take_all(alloc).expect(rt, "no list");
    let exchange = trie.exchange(&at, nine, Stamp(2), condition);
    drop(taken);
    match exchange {
        Exchange::Done(previous) => Some(*previous),
        Exchange::Elsewhere(back) => {
            assert_is(rt, *back, 9);
            None
        }
    }
}

// An exchange at the key changes nothing.
fn assert_elsewhere<C: Condition<u32>>(
    rt: &impl Abort,
    alloc: Global,
    trie: &mut Trie,
    at: ChosenKey,
    condition: &C,
) {
    let before = seen(rt, alloc, trie);
    assert_is(rt, exchanged(rt, alloc, trie, at, condition), None);
    assert_same(rt, alloc, trie, &before);
}

#[test]
fn a_value_is_exchanged_where_its_key_is(rt: HostRuntime) {
    let alloc = rt.alloc();
    let mut trie = trie_of(&rt, alloc, &[(P, 1), (Q, 2), (key(1, 0), 3)]);
    assert_is(&rt, exchanged(&rt, alloc, &mut trie, Q, &Always), Some(2));
    assert_holds(&rt, alloc, &trie, &[(P, 1), (Q, 9), (key(1, 0), 3)]);
}

#[test]
fn a_value_is_exchanged_among_keys_of_one_word(rt: HostRuntime) {
    let alloc = rt.alloc();
    let (x, y, z) = (key(7, 0), key(7, 1), key(7, 2));
    let mut trie = trie_of(&rt, alloc, &[(x, 1), (y, 2), (z, 3)]);
    assert_is(
        &rt,
        exchanged(&rt, alloc, &mut trie, y, &IfEqual(&2)),
        Some(2),
    );
    assert_holds(&rt, alloc, &trie, &[(x, 1), (y, 9), (z, 3)]);
    assert_elsewhere(&rt, alloc, &mut trie, key(7, 3), &Always);
}

#[test]
fn an_exchange_asks_its_condition(rt: HostRuntime) {
    let alloc = rt.alloc();
    let mut trie = trie_of(&rt, alloc, &[(P, 1), (Q, 2)]);
    assert_elsewhere(&rt, alloc, &mut trie, Q, &IfEqual(&1));
    assert_elsewhere(&rt, alloc, &mut trie, Q, &IfAbsent);
    assert_is(
        &rt,
        exchanged(&rt, alloc, &mut trie, Q, &IfEqual(&2)),
        Some(2),
    );
}

// No child has the digit of R, and the leaf at the end of the last key's way has another key.
#[test]
fn a_key_that_is_absent_gets_no_value(rt: HostRuntime) {
    let alloc = rt.alloc();
    let mut none = new(&rt, alloc, 1);
    assert_elsewhere(&rt, alloc, &mut none, P, &Always);
    let mut trie = trie_of(&rt, alloc, &[(P, 1), (Q, 2), (key(1, 0), 3)]);
    assert_elsewhere(&rt, alloc, &mut trie, R, &Always);
    assert_elsewhere(&rt, alloc, &mut trie, key(33, 0), &Always);
    assert_elsewhere(&rt, alloc, &mut trie, key(1, 1), &Always);
}

// A leaf of a row that somebody else holds is shared with it.
#[test]
fn what_another_holds_is_not_exchanged(rt: HostRuntime) {
    let alloc = rt.alloc();
    let mut trie = trie_of(&rt, alloc, &[(P, 1), (Q, 2), (key(1, 0), 3)]);
    let other = copy(&rt, &trie);
    assert_elsewhere(&rt, alloc, &mut trie, Q, &Always);
    assert_elsewhere(&rt, alloc, &mut trie, key(1, 0), &Always);
    assert_value(&rt, &other, Q, Some(2));
    drop(other);
    assert_is(&rt, exchanged(&rt, alloc, &mut trie, Q, &Always), Some(2));
}

// A put of a new key copies the root alone: its leaves are its own, and what stands below its branches is the old root's.
#[test]
fn an_exchange_leaves_the_root_that_was_there(rt: HostRuntime) {
    let alloc = rt.alloc();
    let old = trie_of(&rt, alloc, &[(P, 1), (Q, 2), (key(1, 0), 3)]);
    let before = seen(&rt, alloc, &old);
    let mut trie = put(&rt, alloc, &old, (key(2, 0), 4), 1);
    assert_elsewhere(&rt, alloc, &mut trie, Q, &Always);
    assert_is(
        &rt,
        exchanged(&rt, alloc, &mut trie, key(1, 0), &Always),
        Some(3),
    );
    assert_same(&rt, alloc, &old, &before);
    assert_value(&rt, &trie, key(1, 0), Some(9));
}
