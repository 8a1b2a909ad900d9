//! Questions by closures.
use super::{Map, Seen, assert_is, empty, key, put, view_of};
use std::process::Abort;
use std::sync::Wait;
use std::sync::atomic::{AtomicU32, Ordering};
use test_keys::ChosenKey;
use trie_map::{Greatest, Keys, Least, NoMemory, Sum, Values};

// A map of ten keys in three stripes; the value of each is its number.
fn ten<R: AllocGlobal + Wait + Abort>(rt: &R) -> Map {
    let map = empty(rt);
    for id in 0..10 {
        put(rt, &map, key(id % 3, id), u64::from(id));
    }
    map
}

// Of a view: how many values are even, whether one is 9, and whether all are below 9.
fn asked(view: &Seen) -> (u64, bool, bool) {
    (
        view.count(|_, value| *value % 2 == 0),
        view.exists(|_, value| *value == 9),
        view.for_all(|_, value| *value < 9),
    )
}

// Of a view: the number and the value that are found above the bound.
fn found_above(view: &Seen, bound: u64) -> Result<Option<(u32, u64)>, NoMemory> {
    let found = view.find(|_, value| *value > bound)?;
    Ok(found.map(|pair| (pair.0.id, *pair.1)))
}

// Of a view: the sum of the values.
fn sum(view: &Seen) -> i128 {
    view.fold(&Sum, |_, value| i128::from(*value))
}

// Of a view: the least and the greatest of the keys' numbers, each turned negative.
fn extremes(view: &Seen) -> (Option<i64>, Option<i64>) {
    (
        view.fold(&Least, |key, _| Some(-i64::from(key.id))),
        view.fold(&Greatest, |key, _| Some(-i64::from(key.id))),
    )
}

// Of the map: how many keys are in the first stripe, whether a value is 10, and whether all are below 10.
fn asked_of_map<R: Wait>(rt: &R, map: &Map) -> Result<(u64, bool, bool), NoMemory> {
    Ok((
        map.count(rt, |key, _| key.path == 0)?,
        map.exists(rt, |_, value| *value == 10)?,
        map.for_all(rt, |_, value| *value < 10)?,
    ))
}

// Of the map: the value that is found above 8.
fn found_of_map<R: Wait>(rt: &R, map: &Map) -> Result<Option<u64>, NoMemory> {
    let found = map.find(rt, |_, value| *value > 8)?;
    Ok(found.map(|pair| *pair.1))
}

// Of the map: the sum of the values.
fn sum_of_map<R: Wait>(rt: &R, map: &Map) -> Result<i128, NoMemory> {
    map.fold(rt, &Sum, |_, value| i128::from(*value))
}

// Of a view: the numbers of the keys, as the digits of one number, in the order of a walk.
fn keys_of(view: &Seen) -> u32 {
    let mut digits = 0u32;
    for key in view.keys() {
        digits = digits.wrapping_mul(10).wrapping_add(key.id);
    }
    digits
}

// The same of the values.
fn values_of(view: &Seen) -> u64 {
    let mut digits = 0u64;
    for value in view.values() {
        digits = digits.wrapping_mul(10).wrapping_add(**value);
    }
    digits
}

// The walks over the keys and over the values, by the names of their types.
fn walks(view: &Seen) -> (Keys<'_, ChosenKey, u64>, Values<'_, ChosenKey, u64>) {
    (view.keys(), view.values())
}

#[test]
fn questions_about_a_view(rt: HostRuntime) {
    let view = view_of(&rt, &ten(&rt));
    assert_is(&rt, asked(&view), (5, true, false));
    assert_is(&rt, sum(&view), 45);
    assert_is(&rt, extremes(&view), (Some(-9), Some(0)));
}

#[test]
fn a_pair_that_passes_is_found(rt: HostRuntime) {
    let view = view_of(&rt, &ten(&rt));
    assert_is(&rt, found_above(&view, 8), Ok(Some((9, 9))));
    assert_is(&rt, found_above(&view, 9), Ok(None));
}

// An answer, which is counted.
fn counted(count: &AtomicU32, answer: bool) -> bool {
    count.fetch_add(1, Ordering::SeqCst);
    answer
}

// How often a test that returns so of each pair is called by an exists, by a for-all and by a search.
fn calls(view: &Seen, answer: bool) -> [u32; 3] {
    let (some, all, found) = (AtomicU32::new(0), AtomicU32::new(0), AtomicU32::new(0));
    view.exists(|_, _| counted(&some, answer));
    view.for_all(|_, _| counted(&all, answer));
    let _ = view.find(|_, _| counted(&found, answer));
    [
        some.load(Ordering::SeqCst),
        all.load(Ordering::SeqCst),
        found.load(Ordering::SeqCst),
    ]
}

#[test]
fn a_question_ends_where_it_is_settled(rt: HostRuntime) {
    let view = view_of(&rt, &ten(&rt));
    assert_is(&rt, calls(&view, true), [1, 10, 1]);
    assert_is(&rt, calls(&view, false), [10, 1, 10]);
}

#[test]
fn questions_about_a_map(rt: HostRuntime) {
    let map = ten(&rt);
    assert_is(&rt, asked_of_map(&rt, &map), Ok((4, false, true)));
    assert_is(&rt, found_of_map(&rt, &map), Ok(Some(9)));
    assert_is(&rt, sum_of_map(&rt, &map), Ok(45));
}

#[test]
fn keys_and_values_are_walked_in_order(rt: HostRuntime) {
    let view = view_of(&rt, &ten(&rt));
    assert_is(&rt, keys_of(&view), 369_147_258);
    assert_is(&rt, values_of(&view), 369_147_258);
    let (keys, values) = walks(&view);
    assert_is(&rt, (keys.count(), values.count()), (10, 10));
}

#[test]
fn questions_about_no_pairs(rt: HostRuntime) {
    let view = view_of(&rt, &empty(&rt));
    assert_is(&rt, view.count(|_, _| true), 0);
    assert_is(&rt, view.exists(|_, _| true), false);
    assert_is(&rt, view.for_all(|_, _| false), true);
    assert_is(&rt, extremes(&view), (None, None));
}
