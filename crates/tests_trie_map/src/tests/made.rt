//! Maps that are made of the pairs of a view, or of a map.
use super::{Map, Seen, assert_is, empty, key, put, view_of};
use std::process::Abort;
use std::sync::Wait;
use test_keys::ChosenKey;
use trie_map::{NoMemory, Version, pairs_of};

// A map of six keys in three stripes; the value of each is ten times its number.
fn six<R: AllocGlobal + Wait + Abort>(rt: &R) -> Map {
    let map = empty(rt);
    for id in 0..6 {
        put(rt, &map, key(id % 3, id), u64::from(id).wrapping_mul(10));
    }
    map
}

// The value that a map that was made has at one of the six keys.
fn at<W: Copy + Drop>(made: &Version<ChosenKey, W>, id: u32) -> Option<W> {
    made.get(&key(id % 3, id)).map(|value| **value)
}

// How many pairs a map that was made has, and its values at the six keys.
fn shown<W: Copy + Drop>(made: &Version<ChosenKey, W>) -> (u64, [Option<W>; 6]) {
    let values = [
        at(made, 0),
        at(made, 1),
        at(made, 2),
        at(made, 3),
        at(made, 4),
        at(made, 5),
    ];
    (made.len(), values)
}

// The pairs of the view whose values are above 20.
fn above<R: Abort>(rt: &R, view: &Seen) -> Version<ChosenKey, u64> {
    view.filter(|_, value| *value > 20).expect(rt, "no map")
}

#[test]
fn the_pairs_of_a_view_that_pass(rt: HostRuntime) {
    let view = view_of(&rt, &six(&rt));
    let made = above(&rt, &view);
    assert_is(
        &rt,
        shown(&made),
        (3, [None, None, None, Some(30), Some(40), Some(50)]),
    );
}

#[test]
fn the_keys_of_a_view_with_new_values(rt: HostRuntime) {
    let view = view_of(&rt, &six(&rt));
    let made = view
        .map_values(|key, value| (key.id % 2 == 0, *value > 20))
        .expect(&rt, "no map");
    let values = [
        Some((true, false)),
        Some((false, false)),
        Some((true, false)),
        Some((false, true)),
        Some((true, true)),
        Some((false, true)),
    ];
    assert_is(&rt, shown(&made), (6, values));
}

#[test]
fn the_pairs_of_a_map_that_pass(rt: HostRuntime) {
    let map = six(&rt);
    let made = map.filter(&rt, |key, _| key.id != 4).expect(&rt, "no map");
    let values = [Some(0), Some(10), Some(20), Some(30), None, Some(50)];
    assert_is(&rt, shown(&made), (5, values));
}

#[test]
fn the_keys_of_a_map_with_new_values(rt: HostRuntime) {
    let map = six(&rt);
    let made = map
        .map_values(&rt, |key, value| u64::from(key.id).wrapping_add(*value))
        .expect(&rt, "no map");
    let values = [Some(0), Some(11), Some(22), Some(33), Some(44), Some(55)];
    assert_is(&rt, shown(&made), (6, values));
}

#[test]
fn nothing_is_made_of_no_pairs(rt: HostRuntime) {
    let view = view_of(&rt, &empty(&rt));
    assert_is(&rt, above(&rt, &view).len(), 0);
    let changed = view.map_values(|_, value| *value).expect(&rt, "no map");
    assert_is(&rt, changed.len(), 0);
}

// The sum of the values of a map that was made, by a walk.
fn sum<R: AllocGlobal>(rt: &R, made: &Version<ChosenKey, u64>) -> Result<u64, NoMemory> {
    let mut sum = 0u64;
    for (_, value) in pairs_of(rt.alloc(), made)? {
        sum = sum.wrapping_add(**value);
    }
    Ok(sum)
}

#[test]
fn a_map_that_is_made_is_written_apart(rt: HostRuntime) {
    let view = view_of(&rt, &six(&rt));
    let mut made = above(&rt, &view);
    let removed = made
        .remove(rt.alloc(), &key(0, 3))
        .expect(&rt, "not removed");
    assert_is(&rt, removed.is_some(), true);
    assert_is(&rt, sum(&rt, &made), Ok(90));
    assert_is(&rt, (made.len(), view.len()), (2, 6));
}
