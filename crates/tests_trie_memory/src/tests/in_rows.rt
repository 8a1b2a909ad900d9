//! Keys and values that lie in the rows themselves, with every request for memory refused.

use super::assert_is;
use std::alloc::Global;
use std::panic::Expect;
use std::process::Abort;
use test_keys::take_all;
use test_roots::TestRoot;
use trie_node::{Always, Condition, Exchange, IfAbsent, IfEqual, InPlace, Stamp, size};

/// A trie whose pairs lie in its rows.
type Rows = TestRoot<u64, u64, InPlace>;

// A trie of the keys below a bound, each with ten times itself.
fn trie_of(rt: &impl Abort, alloc: Global, keys: u64) -> Rows {
    let mut trie: Rows = TestRoot::new(alloc, Stamp(1)).expect(rt, "no root");
    for key in 0..keys {
        let answer = trie.put_in(alloc, key, key.wrapping_mul(10), Stamp(1));
        answer.expect(rt, "not put");
    }
    trie
}

// Neither a key nor a value has a block of its own, so no memory is requested.
#[test]
fn a_value_is_exchanged_without_memory(rt: HostRuntime) {
    let alloc = rt.alloc();
    let mut trie = trie_of(&rt, alloc, 100);
    let taken = take_all(alloc).expect(&rt, "no list");
    let put = trie.put_in(alloc, 7, 1, Stamp(2)).is_ok();
    let removed = trie.remove_in(alloc, &8, Stamp(2)).is_ok();
    drop(taken);
    assert_is(&rt, (put, removed), (true, true));
    assert_is(&rt, trie.find(&7).copied(), Some(1));
    assert_is(&rt, trie.find(&8).copied(), None);
    assert_is(&rt, size(trie.root()), 99);
}

// What an exchange for 1 at the key returns: what the key had, or none where the 1 comes back.
fn exchanged<C: Condition<u64>>(
    rt: &impl Abort,
    alloc: Global,
    trie: &mut Rows,
    key: u64,
    condition: &C,
) -> Option<u64> {
    let taken = take_all(alloc).expect(rt, "no list");
    let exchange = trie.exchange(&key, 1, Stamp(2), condition);
    drop(taken);
    match exchange {
        Exchange::Done(previous) => Some(previous),
        Exchange::Elsewhere(back) => {
            assert_is(rt, back, 1);
            None
        }
    }
}

// The key is sought by reference, and its value comes out.
#[test]
fn an_exchange_returns_the_value_itself(rt: HostRuntime) {
    let alloc = rt.alloc();
    let mut trie = trie_of(&rt, alloc, 100);
    assert_is(&rt, exchanged(&rt, alloc, &mut trie, 7, &IfAbsent), None);
    assert_is(
        &rt,
        exchanged(&rt, alloc, &mut trie, 7, &IfEqual(&71)),
        None,
    );
    assert_is(&rt, exchanged(&rt, alloc, &mut trie, 100, &Always), None);
    assert_is(&rt, trie.find(&7).copied(), Some(70));
    assert_is(
        &rt,
        exchanged(&rt, alloc, &mut trie, 7, &IfEqual(&70)),
        Some(70),
    );
    assert_is(&rt, trie.find(&7).copied(), Some(1));
    assert_is(&rt, size(trie.root()), 100);
}

// While another holds the root, the value comes back.
#[test]
fn a_row_that_another_holds_is_not_exchanged(rt: HostRuntime) {
    let alloc = rt.alloc();
    let mut trie = trie_of(&rt, alloc, 100);
    let other = trie.try_clone().expect(&rt, "no handle");
    assert_is(&rt, exchanged(&rt, alloc, &mut trie, 7, &Always), None);
    assert_is(&rt, trie.find(&7).copied(), Some(70));
    assert_is(&rt, other.find(&7).copied(), Some(70));
    drop(other);
    assert_is(&rt, exchanged(&rt, alloc, &mut trie, 7, &Always), Some(70));
}
