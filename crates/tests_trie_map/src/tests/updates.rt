//! Updates of one key under its lock.
use super::{Map, assert_is, at, empty, key, plain, put};
use std::process::Abort;
use std::sync::Wait;
use std::thread;
use std::thread::Threads;
use test_keys::ChosenKey;
use trie_map::{NoMemory, PutError};

// How many threads count, and how often each does.
const THREADS: usize = 4;

const TIMES: u32 = 10_000;

// What updates of one key answer: it is stored, doubled twice, removed, and left absent.
fn updated<R: Wait>(rt: &R, map: &Map) -> Result<[Option<u64>; 5], PutError> {
    let one = key(3, 0);
    Ok([
        plain(map.update(rt, one, |_| Some(5))?),
        plain(map.update(rt, one, |old| old.map(|n| n.wrapping_mul(2)))?),
        plain(map.update(rt, one, |old| old.map(|n| n.wrapping_mul(2)))?),
        plain(map.update(rt, one, |_| None)?),
        plain(map.update(rt, one, |old| old.map(|n| n.wrapping_mul(2)))?),
    ])
}

#[test]
fn updates_of_one_key(rt: HostRuntime) {
    let map = empty(&rt);
    let answers = [None, Some(5), Some(10), Some(20), None];
    assert_is(&rt, updated(&rt, &map), Ok(answers));
    assert_is(&rt, map.is_empty(&rt), true);
}

// What updates of one key that hand out something answer: it is stored, made one more, and removed; and then left absent.
fn updated_with<R: Wait>(rt: &R, map: &Map) -> Result<[u64; 4], PutError> {
    let one = key(3, 0);
    Ok([
        map.update_with(rt, one, |old| (Some(5), old.map_or(1, |n| *n)))?,
        map.update_with(rt, one, |old| (old.map(|n| n.wrapping_add(1)), 2))?,
        map.update_with(rt, one, |old| (None, old.map_or(3, |n| *n)))?,
        map.update_with(rt, one, |old| (None, old.map_or(4, |n| *n)))?,
    ])
}

#[test]
fn updates_that_hand_out_something(rt: HostRuntime) {
    let map = empty(&rt);
    assert_is(&rt, updated_with(&rt, &map), Ok([1, 2, 6, 4]));
    assert_is(&rt, map.is_empty(&rt), true);
}

// One more than the value of the key, or an error where it is the bound: the value before, or the error.
fn raised<R: Wait>(rt: &R, map: &Map, bound: u64) -> Result<Result<Option<u64>, u64>, PutError> {
    let done = map.try_update(rt, key(3, 0), |old| {
        let value = old.map_or(0, |n| *n);
        if value < bound {
            Ok(Some(value.wrapping_add(1)))
        } else {
            Err(value)
        }
    })?;
    Ok(done.map(plain))
}

#[test]
fn an_update_that_fails_leaves_the_map(rt: HostRuntime) {
    let map = empty(&rt);
    assert_is(&rt, raised(&rt, &map, 0), Ok(Err(0)));
    assert_is(&rt, map.is_empty(&rt), true);
    assert_is(&rt, raised(&rt, &map, 2), Ok(Ok(None)));
    assert_is(&rt, raised(&rt, &map, 2), Ok(Ok(Some(1))));
    assert_is(&rt, raised(&rt, &map, 2), Ok(Err(2)));
    assert_is(&rt, at(&rt, &map, key(3, 0)), Some(2));
}

// What removals of a key answer whose value is 7, and then of one that is absent.
fn removed_where<R: Wait>(rt: &R, map: &Map) -> Result<[Option<u64>; 3], NoMemory> {
    let one = key(3, 0);
    Ok([
        plain(map.remove_where(rt, &one, |value| *value > 7)?),
        plain(map.remove_where(rt, &one, |value| *value == 7)?),
        plain(map.remove_where(rt, &one, |_| true)?),
    ])
}

#[test]
fn a_key_is_removed_where_its_value_passes(rt: HostRuntime) {
    let map = empty(&rt);
    put(&rt, &map, key(3, 0), 7);
    put(&rt, &map, key(3, 1), 7);
    let answers = [None, Some(7), None];
    assert_is(&rt, removed_where(&rt, &map), Ok(answers));
    assert_is(&rt, map.len(&rt), 1);
}

// Counts the word once more, `TIMES` times.
fn count<R: Wait>(rt: &R, counts: &Map, word: ChosenKey) -> Result<(), PutError> {
    for _ in 0..TIMES {
        counts.update(rt, word, |old| Some(old.map_or(1, |n| n.saturating_add(1))))?;
    }
    Ok(())
}

// Has all threads count the word.
fn count_all<R: AllocGlobal + Threads + Wait + Abort + Sync>(rt: &R, map: &Map, word: ChosenKey) {
    let all = thread::map_indices(
        rt,
        rt.alloc(),
        THREADS,
        &|_: usize| { count(rt, map, word) },
    );
    for done in all.expect(rt, "no threads") {
        assert_is(rt, done, Ok(()));
    }
}

#[test]
fn no_update_is_lost(rt: HostRuntime) {
    let map = empty(&rt);
    count_all(&rt, &map, key(5, 0));
    assert_is(&rt, at(&rt, &map, key(5, 0)), Some(40_000));
}
