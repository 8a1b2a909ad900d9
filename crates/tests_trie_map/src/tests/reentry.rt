//! Closures that call the map: no lock is held while they run, or the thread would wait for itself.
use super::{Map, assert_is, empty, key, put};
use std::process::Abort;
use std::sync::Wait;
use std::thread::Threads;
use trie_map::{Crew, NoMemory, PutError, Sum};

// Puts a key of each first digit, and returns whether each was put.
fn puts_everywhere<R: Wait>(rt: &R, map: &Map) -> bool {
    let mut done = true;
    for digit in 0..32 {
        done = map.put(rt, key(digit, 1), 9).is_ok() && done;
    }
    done
}

// A map of two pairs.
fn two<R: AllocGlobal + Wait + Abort>(rt: &R) -> Map {
    let map = empty(rt);
    put(rt, &map, key(0, 0), 1);
    put(rt, &map, key(31, 0), 2);
    map
}

// A map of two pairs is asked, with a closure that puts a key of each first digit.
fn asked<R: AllocGlobal + Wait + Abort>(rt: &R) -> Result<(u64, bool, bool), NoMemory> {
    let map = two(rt);
    let count = map.count(rt, |_, _| puts_everywhere(rt, &map))?;
    let some = map.exists(rt, |_, _| puts_everywhere(rt, &map))?;
    let all = map.for_all(rt, |_, _| puts_everywhere(rt, &map))?;
    Ok((count, some, all))
}

#[test]
fn a_test_may_put(rt: HostRuntime) {
    assert_is(&rt, asked(&rt), Ok((2, true, true)));
}

// The number of the pair that is found, and the sum of all.
fn found_and_summed<R: AllocGlobal + Wait + Abort>(rt: &R) -> Result<(bool, i128), NoMemory> {
    let map = two(rt);
    let found = map.find(rt, |_, value| puts_everywhere(rt, &map) && *value == 2)?;
    let map = two(rt);
    let sum = map.fold(rt, &Sum, |_, value| {
        i128::from(puts_everywhere(rt, &map)) + i128::from(*value)
    })?;
    Ok((found.is_some(), sum))
}

#[test]
fn a_search_and_a_fold_may_put(rt: HostRuntime) {
    assert_is(&rt, found_and_summed(&rt), Ok((true, 5)));
}

// How many pairs two maps have that are made of two pairs.
fn made<R: AllocGlobal + Wait + Abort>(rt: &R) -> Result<(u64, u64), NoMemory> {
    let map = two(rt);
    let passing = map.filter(rt, |_, _| puts_everywhere(rt, &map))?.len();
    let map = two(rt);
    let changed = map.map_values(rt, |_, _| puts_everywhere(rt, &map))?;
    Ok((passing, changed.len()))
}

#[test]
fn what_makes_a_map_may_put(rt: HostRuntime) {
    assert_is(&rt, made(&rt), Ok((2, 2)));
}

// Two workers, each of which has its pieces cut down to single pairs.
fn two_workers() -> Crew {
    Crew {
        workers: 2,
        grain: 1,
        patience: 1_000,
    }
}

// What a crew answers of a map of two pairs: how many pass, and the sum of the values, each one more.
fn counted_and_summed<R: AllocGlobal + Threads + Wait + Abort + Sync>(
    rt: &R,
) -> Result<(u64, i128), NoMemory> {
    let map = two(rt);
    let counted = map.par_count(rt, |_, _| puts_everywhere(rt, &map), two_workers())?;
    let map = two(rt);
    let summed = map.par_fold(
        rt,
        &Sum,
        |_, value| i128::from(puts_everywhere(rt, &map)) + i128::from(*value),
        two_workers(),
    )?;
    Ok((counted, summed))
}

// How many groups the pairs of a map are in, and how many pairs are listed of another.
fn grouped_and_ranked<R: AllocGlobal + Threads + Wait + Abort + Sync>(
    rt: &R,
) -> Result<(usize, usize), NoMemory> {
    let map = two(rt);
    let groups = map.par_group_count(
        rt,
        |_, _| u64::from(puts_everywhere(rt, &map)),
        two_workers(),
    )?;
    let map = two(rt);
    let ranked = map.par_top(rt, 2, |_, _| puts_everywhere(rt, &map), two_workers())?;
    Ok((groups.len(), ranked.len()))
}

#[test]
fn what_a_crew_works_may_put(rt: HostRuntime) {
    assert_is(&rt, counted_and_summed(&rt), Ok((2, 5)));
    assert_is(&rt, grouped_and_ranked(&rt), Ok((1, 2)));
}

// The test runs once more under the lock for a pair that fails, so here all pass.
#[test]
fn a_retain_may_put(rt: HostRuntime) {
    let map = two(&rt);
    let removed = map.retain(&rt, |_, _| puts_everywhere(&rt, &map));
    assert_is(&rt, removed, Ok(0));
}

// The value that a key has once the closure that makes it has put others.
fn got_or_made<R: Wait>(rt: &R, map: &Map) -> Result<u64, PutError> {
    let found = map.get_or_else_update(rt, key(3, 7), || u64::from(puts_everywhere(rt, map)))?;
    Ok(*found)
}

// The same where the closure may fail.
fn got_or_tried<R: Wait>(rt: &R, map: &Map) -> Result<Result<u64, ()>, PutError> {
    let made = map.try_get_or_else_update(rt, key(3, 8), || {
        Ok(u64::from(puts_everywhere(rt, map)))
    })?;
    Ok(made.map(|value| *value))
}

#[test]
fn what_makes_a_value_may_put(rt: HostRuntime) {
    let map = two(&rt);
    assert_is(&rt, got_or_made(&rt, &map), Ok(1));
    assert_is(&rt, map.len(&rt), 35);
    assert_is(&rt, got_or_tried(&rt, &map), Ok(Ok(1)));
    assert_is(&rt, map.len(&rt), 36);
}
