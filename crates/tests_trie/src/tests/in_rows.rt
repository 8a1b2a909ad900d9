//! Keys and values that lie in the rows themselves.

use super::assert_is;
use std::alloc::Global;
use std::collections::BTreeMap;
use std::panic::Expect;
use std::process::Abort;
use test_keys::Random;
use test_roots::TestRoot;
use trie_node::{InPlace, Stamp, size};

/// A trie whose pairs lie in its rows.
type Rows = TestRoot<u64, u64, InPlace>;

// A trie of the keys below a bound, each with ten times itself.
fn trie_of(rt: &impl Abort, alloc: Global, keys: u64) -> Rows {
    let mut trie: Rows = TestRoot::new(alloc, Stamp(1)).expect(rt, "no root");
    for key in 0..keys {
        let answer = trie.put_in(alloc, key, key.wrapping_mul(10), Stamp(1));
        answer.expect(rt, "not put");
    }
    trie
}

// The value itself comes out, and not a handle on it.
#[test]
fn values_come_out_as_they_are(rt: HostRuntime) {
    let alloc = rt.alloc();
    let trie = trie_of(&rt, alloc, 1000);
    assert_is(&rt, size(trie.root()), 1000);
    assert_is(&rt, trie.find(&0).copied(), Some(0));
    assert_is(&rt, trie.find(&999).copied(), Some(9990));
    assert_is(&rt, trie.find(&1000).copied(), None);
}

// Writes the same into a trie and an ordered map.
fn write(
    rt: &impl Abort,
    alloc: Global,
    trie: &mut Rows,
    map: &mut BTreeMap<u64, u64>,
    random: &mut Random,
    step: u64,
) {
    let key = u64::from(random.next(500));
    if random.next(3) == 0 {
        let answer = trie.remove_in(alloc, &key, Stamp(step));
        answer.expect(rt, "not removed");
        map.remove(&key);
    } else {
        let answer = trie.put_in(alloc, key, step, Stamp(step));
        answer.expect(rt, "not put");
        let put: Result<_, _> = map.insert(key, step);
        put.expect(rt, "no room");
    }
}

// The trie has the pairs of the map.
fn assert_has(rt: &impl Abort, trie: &Rows, map: &BTreeMap<u64, u64>) {
    assert_is(rt, size(trie.root()), map.len() as u64);
    for key in 0..500 {
        assert_is(rt, trie.find(&key).copied(), map.get(&key).copied());
    }
}

// A copy stays as it was, whatever is written later.
#[test]
fn writes_are_those_of_an_ordered_map(rt: HostRuntime) {
    let alloc = rt.alloc();
    let mut random = Random(7);
    let mut map = BTreeMap::new(alloc);
    let mut trie: Rows = TestRoot::new(alloc, Stamp(1)).expect(&rt, "no root");
    for step in 1..1000 {
        write(&rt, alloc, &mut trie, &mut map, &mut random, step);
    }
    let copy = trie.try_clone().expect(&rt, "no handle");
    let mut later = BTreeMap::new(alloc);
    for (key, value) in map.iter() {
        let put: Result<_, _> = later.insert(*key, *value);
        put.expect(&rt, "no room");
    }
    for step in 1000..2000 {
        write(&rt, alloc, &mut trie, &mut later, &mut random, step);
    }
    assert_has(&rt, &copy, &map);
    assert_has(&rt, &trie, &later);
}
