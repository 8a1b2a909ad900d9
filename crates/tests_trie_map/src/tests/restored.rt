//! Maps whose whole content is put back, and values that are put or given anew.
use super::{Map, assert_is, at, empty, key, plain, put, snapshot_of, view_of};
use std::process::Abort;
use std::sync::{Arc, Wait};
use std::thread;
use test_keys::ChosenKey;
use trie_map::{PutError, TrieMap};

// A map of nine keys in three stripes; the value of each is its number.
fn nine<R: AllocGlobal + Wait + Abort>(rt: &R) -> Map {
    let map = empty(rt);
    for id in 0..9 {
        put(rt, &map, key(id % 3, id), u64::from(id));
    }
    map
}

// How many pairs the map has, and the values of its keys 0 to 9 as the digits of a number: an absent one is 9.
fn digits<R: Wait + Abort>(rt: &R, map: &Map) -> (u64, u64) {
    let mut shown = 0u64;
    for id in 0..10 {
        let value = at(rt, map, key(id % 3, id)).unwrap_or(9);
        shown = shown.wrapping_mul(10).wrapping_add(value);
    }
    (map.len(rt), shown)
}

#[test]
fn a_view_undoes_what_was_written_since(rt: HostRuntime) {
    let map = nine(&rt);
    let before = view_of(&rt, &map);
    map.remove(&rt, &key(0, 0)).expect(&rt, "not removed");
    put(&rt, &map, key(1, 4), 7);
    put(&rt, &map, key(0, 9), 5);
    assert_is(&rt, digits(&rt, &map), (9, 9_123_756_785));
    let undone = map.restore(&rt, &before).expect(&rt, "not restored");
    assert_is(&rt, digits(&rt, &map), (9, 123_456_789));
    map.restore(&rt, &undone).expect(&rt, "not restored");
    assert_is(&rt, digits(&rt, &map), (9, 9_123_756_785));
}

#[test]
fn what_is_restored_is_written_apart(rt: HostRuntime) {
    let map = nine(&rt);
    let saved = snapshot_of(&rt, &map);
    map.clear(&rt).expect(&rt, "not cleared");
    map.restore(&rt, &view_of(&rt, &saved))
        .expect(&rt, "not restored");
    put(&rt, &map, key(2, 2), 8);
    put(&rt, &saved, key(2, 5), 0);
    assert_is(&rt, digits(&rt, &map), (9, 183_456_789));
    assert_is(&rt, digits(&rt, &saved), (9, 123_406_789));
}

#[test]
fn a_map_that_was_made_is_put_in_place(rt: HostRuntime) {
    let map = nine(&rt);
    let made = map.filter(&rt, |_, value| *value > 4).expect(&rt, "no map");
    map.restore_version(&rt, &made).expect(&rt, "not restored");
    assert_is(&rt, digits(&rt, &map), (4, 9_999_956_789));
    let other: Map = TrieMap::from_version(&rt, &made).expect(&rt, "no map");
    put(&rt, &other, key(0, 0), 1);
    assert_is(&rt, digits(&rt, &other), (5, 1_999_956_789));
    assert_is(&rt, digits(&rt, &map), (4, 9_999_956_789));
    let third = TrieMap::from_view(&rt, &view_of(&rt, &other)).expect(&rt, "no map");
    assert_is(&rt, digits(&rt, &third), (5, 1_999_956_789));
}

#[test]
fn an_empty_view_clears(rt: HostRuntime) {
    let map = nine(&rt);
    let none = view_of(&rt, &empty(&rt));
    map.restore(&rt, &none).expect(&rt, "not restored");
    assert_is(&rt, map.is_empty(&rt), true);
    assert_is(&rt, none.is_empty(), true);
}

#[test]
fn a_value_is_put_as_it_is_shared(rt: HostRuntime) {
    let map = nine(&rt);
    let lent = map.get(&rt, &key(1, 7)).expect(&rt, "not read");
    let lent = lent.expect(&rt, "no value");
    let copy = Arc::try_clone(&lent).expect(&rt, "no handle");
    let before = map.put_shared(&rt, key(0, 0), copy).expect(&rt, "not put");
    assert_is(&rt, plain(before), Some(0));
    let found = map.get(&rt, &key(0, 0)).expect(&rt, "not read");
    let same = found.is_some_and(|found| Arc::strong_count(&found) == 4);
    assert_is(&rt, same, true);
}

#[test]
fn all_values_are_given_anew(rt: HostRuntime) {
    let map = nine(&rt);
    let given = map.replace_all(&rt, |key, value| {
        if key.id > 6 { 0 } else { value.wrapping_add(1) }
    });
    assert_is(&rt, given, Ok(9));
    assert_is(&rt, digits(&rt, &map), (9, 1_234_567_009));
}

// Restores the map to the two views by turns.
fn restore_by_turns<R: AllocGlobal + Wait>(
    rt: &R,
    map: &Map,
    views: &[super::Seen; 2],
) -> Result<(), PutError> {
    for turn in 0..100usize {
        map.restore(rt, &views[turn % 2])?;
    }
    Ok(())
}

// Whether each view of the map has all keys or none.
fn all_or_none<R: AllocGlobal + Wait>(rt: &R, map: &Map) -> bool {
    for _ in 0..200 {
        match map.view(rt) {
            Ok(view) => {
                if view.len() != 9 && view.len() != 0 {
                    return false;
                }
            }
            Err(_) => return false,
        }
    }
    true
}

#[test]
fn a_view_sees_all_of_a_restoration_or_nothing(rt: HostRuntime) {
    let map = nine(&rt);
    let views = [view_of(&rt, &map), view_of(&rt, &empty(&rt))];
    let (restored, whole) = thread::join(
        &rt,
        || restore_by_turns(&rt, &map, &views),
        || all_or_none(&rt, &map),
    );
    assert_is(&rt, restored, Ok(()));
    assert_is(&rt, whole, true);
}

// How many numbers are put while a map is emptied, and how often it is.
const NUMBERS: u32 = 20_000;

const TIMES: u32 = 400;

// Puts numbers, each of which is a new key.
fn put_numbers<R: Wait>(rt: &R, map: &Map) -> Result<(), PutError> {
    for id in 0..NUMBERS {
        map.put(rt, key(id % 32, id), 1)?;
    }
    Ok(())
}

// Puts no pairs in the place of all, and returns how many were taken out.
fn take_out<R: AllocGlobal + Wait>(rt: &R, map: &Map, none: &super::Seen) -> Result<u64, PutError> {
    let mut taken = 0u64;
    for _ in 0..TIMES {
        taken = taken.wrapping_add(map.restore(rt, none)?.len());
    }
    Ok(taken)
}

// A restoration returns what it takes out, and takes nothing else out.
#[test]
fn what_is_put_meanwhile_is_taken_out_or_stays(rt: HostRuntime) {
    let map = empty(&rt);
    let none = view_of(&rt, &empty(&rt));
    let (put, taken) = thread::join(
        &rt,
        || put_numbers(&rt, &map),
        || take_out(&rt, &map, &none),
    );
    assert_is(&rt, put, Ok(()));
    let taken = taken.expect(&rt, "not restored");
    let all = taken.wrapping_add(map.len(&rt));
    assert_is(&rt, all, u64::from(NUMBERS));
}

// How often each value is raised by two threads.
const RAISED: u32 = 300;

// Raises the values of nine keys one after another, and so on.
fn raise_each<R: Wait>(rt: &R, map: &Map) -> Result<(), PutError> {
    for _ in 0..RAISED {
        for id in 0..9 {
            map.update(rt, key(id % 3, id), |value| {
                Some(value.copied().unwrap_or(0).wrapping_add(1))
            })?;
        }
    }
    Ok(())
}

// Gives all keys new values, each one above the old, and so on.
fn raise_all<R: Wait>(rt: &R, map: &Map) -> Result<(), PutError> {
    for _ in 0..RAISED {
        map.replace_all(rt, |_, value| value.wrapping_add(1))?;
    }
    Ok(())
}

// A value is given anew by what it is then, and not by what a view of all showed.
#[test]
fn no_update_is_lost_where_all_values_are_given_anew(rt: HostRuntime) {
    let map = nine(&rt);
    let (each, all) = thread::join(&rt, || raise_each(&rt, &map), || raise_all(&rt, &map));
    assert_is(&rt, (each, all), (Ok(()), Ok(())));
    let raised = u64::from(RAISED).wrapping_mul(2);
    for id in 0..9 {
        let value = at(&rt, &map, key(id % 3, id));
        assert_is(&rt, value, Some(raised.wrapping_add(u64::from(id))));
    }
}
