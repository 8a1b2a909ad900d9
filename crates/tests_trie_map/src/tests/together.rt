//! Two views of one map together.

use super::{Map, assert_is, empty, key, put, view_of};
use std::panic::Expect;
use std::process::Abort;
use test_keys::ChosenKey;
use trie_map::Version;

// The sum of what the map has, each value times its key's number, so that few maps have the same.
fn weight(map: &Version<ChosenKey, u64>) -> (u64, u64) {
    let mut sum = 0u64;
    for id in 0..10u32 {
        let value = map.get(&key(7, id)).map_or(0, |found| **found);
        sum = sum.wrapping_mul(100).wrapping_add(value);
    }
    (map.len(), sum)
}

// What a map has is what is wanted.
fn assert_has(rt: &impl Abort, map: &Version<ChosenKey, u64>, len: u64, sum: u64) {
    assert_is(rt, weight(map), (len, sum));
}

#[test]
fn two_moments_of_a_map_are_compared(rt: HostRuntime) {
    let map: Map = empty(&rt);
    put(&rt, &map, key(7, 6), 10);
    put(&rt, &map, key(7, 7), 20);
    put(&rt, &map, key(7, 8), 30);
    let old = view_of(&rt, &map);
    map.remove(&rt, &key(7, 6)).expect(&rt, "not removed");
    put(&rt, &map, key(7, 8), 31);
    put(&rt, &map, key(7, 9), 40);
    let new = view_of(&rt, &map);
    assert_has(&rt, &new.union(&old).expect(&rt, "no union"), 4, 10_203_140);
    assert_has(
        &rt,
        &new.intersection(&old).expect(&rt, "no map"),
        2,
        203_100,
    );
    assert_has(&rt, &new.difference(&old).expect(&rt, "no map"), 1, 40);
    let changes = new.changes(&old).expect(&rt, "no changes");
    assert_has(&rt, &changes.put, 1, 40);
    assert_has(&rt, &changes.altered, 1, 3_100);
    assert_has(&rt, &changes.removed, 1, 10_000_000);
}
