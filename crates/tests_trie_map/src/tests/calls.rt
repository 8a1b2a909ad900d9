//! Calls by one thread.
use super::{Map, Seen, assert_is, at, empty, key, plain, put, snapshot_of, view_of};
use std::alloc::Global;
use std::process::Abort;
use std::sync::Wait;
use test_keys::ChosenKey;
use trie_map::{ByteText, NoMemory, PutError, TrieMap};

// What writes of one key answer, from no pairs on.
fn written<R: Wait>(rt: &R, map: &Map) -> Result<[Option<u64>; 6], PutError> {
    let one = key(3, 0);
    Ok([
        plain(map.get(rt, &one)?),
        plain(map.put(rt, one, 5)?),
        plain(map.put(rt, one, 6)?),
        plain(map.put_if_absent(rt, one, 7)?),
        plain(map.replace(rt, one, 8)?),
        plain(map.get(rt, &one)?),
    ])
}

// Whether a key whose value is 8 is written where its value is to be equal to another.
fn exchanged<R: Wait>(rt: &R, map: &Map) -> Result<[bool; 3], PutError> {
    let one = key(3, 0);
    Ok([
        map.replace_if(rt, one, &6, 9)?,
        map.replace_if(rt, one, &8, 9)?,
        map.contains_key(rt, &one),
    ])
}

// Whether a key whose value is 9 is removed where its value is to be equal to another.
fn removed<R: Wait>(rt: &R, map: &Map) -> Result<[bool; 3], NoMemory> {
    let one = key(3, 0);
    Ok([
        map.remove_if(rt, &one, &8)?,
        map.remove_if(rt, &one, &9)?,
        map.contains_key(rt, &one),
    ])
}

// What writes of a key that is not there answer.
fn written_anew<R: Wait>(rt: &R, map: &Map) -> Result<[Option<u64>; 4], PutError> {
    let one = key(3, 0);
    Ok([
        plain(map.replace(rt, one, 1)?),
        plain(map.put_if_absent(rt, one, 2)?),
        plain(map.remove(rt, &one)?),
        plain(map.remove(rt, &one)?),
    ])
}

#[test]
fn writes_of_one_key(rt: HostRuntime) {
    let map = empty(&rt);
    let answers = [None, None, Some(5), Some(6), Some(6), Some(8)];
    assert_is(&rt, written(&rt, &map), Ok(answers));
    assert_is(&rt, exchanged(&rt, &map), Ok([false, true, true]));
    assert_is(&rt, at(&rt, &map, key(3, 0)), Some(9));
    assert_is(&rt, removed(&rt, &map), Ok([false, true, false]));
    let answers = [None, None, Some(2), None];
    assert_is(&rt, written_anew(&rt, &map), Ok(answers));
    assert_is(&rt, map.is_empty(&rt), true);
}

// Puts two keys of each first digit, with the values 1 and 2.
fn fill<R: Wait>(rt: &R, alloc: Global, map: &Map) -> Result<(), PutError> {
    let mut pairs = Vec::new(alloc);
    for digit in 0..32 {
        pairs.push((key(digit, 0), 1))?;
        pairs.push((key(digit, 1), 2))?;
    }
    map.extend(rt, pairs)
}

// The value that the view has.
fn seen(view: &Seen, key: ChosenKey) -> Option<u64> {
    view.get(&key).map(|value| **value)
}

// At each digit, the map has no key any more; its view and its snapshot have both.
fn assert_kept<R: Abort + Wait>(rt: &R, map: &Map, view: &Seen, snapshot: &Map) {
    assert_is(rt, (map.len(rt), view.len(), snapshot.len(rt)), (0, 64, 64));
    for digit in 0..32 {
        assert_is(rt, map.contains_key(rt, &key(digit, 0)), false);
        assert_is(rt, seen(view, key(digit, 0)), Some(1));
        assert_is(rt, at(rt, snapshot, key(digit, 1)), Some(2));
    }
}

#[test]
fn keys_of_every_first_digit(rt: HostRuntime) {
    let map = empty(&rt);
    assert_is(&rt, fill(&rt, rt.alloc(), &map), Ok(()));
    let view = view_of(&rt, &map);
    let snapshot = snapshot_of(&rt, &map);
    assert_is(&rt, map.len(&rt), 64);
    assert_is(&rt, map.clear(&rt), Ok(()));
    assert_kept(&rt, &map, &view, &snapshot);
}

// What the map has at the first key of two stripes.
fn at_two<R: Wait + Abort>(rt: &R, map: &Map) -> (Option<u64>, Option<u64>) {
    (at(rt, map, key(0, 0)), at(rt, map, key(31, 0)))
}

// Writes of a map, of its snapshot, and of the snapshot's.
fn write_apart<R: Wait>(rt: &R, map: &Map, snapshot: &Map, again: &Map) -> Result<(), PutError> {
    map.put(rt, key(0, 0), 10)?;
    snapshot.put(rt, key(31, 0), 20)?;
    again.remove(rt, &key(0, 0))?;
    Ok(())
}

#[test]
fn a_snapshot_and_its_map_go_separate_ways(rt: HostRuntime) {
    let map = empty(&rt);
    put(&rt, &map, key(0, 0), 1);
    put(&rt, &map, key(31, 0), 2);
    let snapshot = snapshot_of(&rt, &map);
    let again = snapshot_of(&rt, &snapshot);
    assert_is(&rt, write_apart(&rt, &map, &snapshot, &again), Ok(()));
    assert_is(&rt, at_two(&rt, &map), (Some(10), Some(2)));
    assert_is(&rt, at_two(&rt, &snapshot), (Some(1), Some(20)));
    assert_is(&rt, at_two(&rt, &again), (None, Some(2)));
}

// Writes after a view was taken.
fn write_after<R: Wait>(rt: &R, map: &Map) -> Result<(), PutError> {
    map.put(rt, key(7, 0), 2)?;
    map.put(rt, key(8, 0), 3)?;
    Ok(())
}

// The sum of the values that a walk over the view meets.
fn walked_sum(view: &Seen) -> u64 {
    let mut sum = 0u64;
    for (_, value) in view.pairs() {
        sum = sum.wrapping_add(**value);
    }
    sum
}

#[test]
fn a_view_stays_as_it_was(rt: HostRuntime) {
    let map = empty(&rt);
    put(&rt, &map, key(7, 0), 1);
    let view = view_of(&rt, &map);
    assert_is(&rt, write_after(&rt, &map), Ok(()));
    assert_is(&rt, seen(&view, key(7, 0)), Some(1));
    assert_is(&rt, view.contains_key(&key(8, 0)), false);
}

#[test]
fn a_clone_of_a_view_has_its_pairs(rt: HostRuntime) {
    let map = empty(&rt);
    put(&rt, &map, key(7, 0), 1);
    assert_is(&rt, map.is_empty(&rt), false);
    let same = view_of(&rt, &map).try_clone().expect(&rt, "no clone");
    assert_is(&rt, (same.len(), same.plain().len()), (1, 1));
    assert_is(&rt, same.is_empty(), false);
}

#[test]
fn a_view_shows_the_pairs_of_its_moment(rt: HostRuntime) {
    let map = empty(&rt);
    let before = view_of(&rt, &map);
    assert_is(&rt, write_after(&rt, &map), Ok(()));
    assert_is(&rt, walked_sum(&view_of(&rt, &map)), 5);
    assert_is(&rt, before.is_empty(), true);
}

// The value of a text, which is made where it is absent, and how often the closure ran that makes it.
fn value_or<R: AllocGlobal + Wait>(
    rt: &R,
    map: &TrieMap<ByteText, u64>,
    value: u64,
) -> Result<(u64, u32), PutError> {
    let mut runs = 0u32;
    let text = ByteText::from_text(rt.alloc(), "a")?;
    let found = map.get_or_else_update(rt, text, || {
        runs = runs.wrapping_add(1);
        value
    })?;
    Ok((*found, runs))
}

#[test]
fn the_closure_runs_where_the_key_is_absent_alone(rt: HostRuntime) {
    let map: TrieMap<ByteText, u64> = TrieMap::new(&rt).expect(&rt, "no map");
    assert_is(&rt, value_or(&rt, &map, 4), Ok((4, 1)));
    assert_is(&rt, value_or(&rt, &map, 6), Ok((4, 0)));
}

// What is answered where the key is absent and the closure fails, then where it makes a value, and then where the key is
// present; and how often the closures ran.
fn tried<R: Wait>(rt: &R, map: &Map) -> Result<([Result<u64, u32>; 3], u32), PutError> {
    let mut runs = 0u32;
    let mut answers = [Err(0), Err(0), Err(0)];
    for (answer, made) in answers.iter_mut().zip([Err(7), Ok(5), Err(8)]) {
        let found = map.try_get_or_else_update(rt, key(1, 0), || {
            runs = runs.wrapping_add(1);
            made
        })?;
        *answer = found.map(|value| *value);
    }
    Ok((answers, runs))
}

#[test]
fn a_closure_that_fails_puts_nothing(rt: HostRuntime) {
    let map = empty(&rt);
    assert_is(&rt, tried(&rt, &map), Ok(([Err(7), Ok(5), Ok(5)], 2)));
    assert_is(&rt, at(&rt, &map, key(1, 0)), Some(5));
    assert_is(&rt, map.len(&rt), 1);
}

// Puts 7 under the key, and makes 8.
fn put_and_make<R: Wait>(rt: &R, map: &Map, key: ChosenKey) -> u64 {
    let _ = map.put(rt, key, 7);
    8
}

// What is answered where the closure puts 7 under the key, and makes 8. It may use the map: no lock is held meanwhile.
fn put_meanwhile<R: Wait>(rt: &R, map: &Map) -> Result<(u64, Result<u64, ()>), PutError> {
    let (one, two) = (key(1, 0), key(1, 1));
    let found = map.get_or_else_update(rt, one, || put_and_make(rt, map, one))?;
    let tried = map.try_get_or_else_update(rt, two, || Ok(put_and_make(rt, map, two)))?;
    Ok((*found, tried.map(|value| *value)))
}

#[test]
fn the_closure_may_put_the_key(rt: HostRuntime) {
    let map = empty(&rt);
    assert_is(&rt, put_meanwhile(&rt, &map), Ok((7, Ok(7))));
    assert_is(&rt, at(&rt, &map, key(1, 0)), Some(7));
    assert_is(&rt, at(&rt, &map, key(1, 1)), Some(7));
}
