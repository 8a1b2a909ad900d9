//! Which views are equal.

use super::{Map, Seen, empty, key, put, view_of};
use std::process::Abort;
use std::sync::Wait;

// A map of these keys of one first digit, put in this order, each with its number as its value.
fn map_of<R: AllocGlobal + Wait + Abort>(rt: &R, ids: &[u32]) -> Map {
    let map = empty(rt);
    for id in ids {
        put(rt, &map, key(7, *id), u64::from(*id));
    }
    map
}

fn seen<R: AllocGlobal + Wait + Abort>(rt: &R, ids: &[u32]) -> Seen {
    view_of(rt, &map_of(rt, ids))
}

#[test]
fn views_of_the_same_pairs_are_equal(rt: HostRuntime) {
    assert!(rt; seen(&rt, &[]) == seen(&rt, &[]));
    assert!(rt; seen(&rt, &[1, 2, 3]) == seen(&rt, &[3, 1, 2]));
    let view = seen(&rt, &[1, 2, 3]);
    assert!(rt; view == view);
}

#[test]
fn views_that_differ_in_a_key_are_not_equal(rt: HostRuntime) {
    assert!(rt; seen(&rt, &[1]) != seen(&rt, &[]));
    assert!(rt; seen(&rt, &[1, 2]) != seen(&rt, &[1, 2, 3]));
    assert!(rt; seen(&rt, &[1, 2, 3]) != seen(&rt, &[1, 2, 4]));
}

#[test]
fn views_that_differ_in_a_value_are_not_equal(rt: HostRuntime) {
    let map = map_of(&rt, &[1, 2, 3]);
    let before = view_of(&rt, &map);
    put(&rt, &map, key(7, 2), 5);
    assert!(rt; view_of(&rt, &map) != before);
    put(&rt, &map, key(7, 2), 2);
    assert!(rt; view_of(&rt, &map) == before);
}
