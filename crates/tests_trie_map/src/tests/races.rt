//! Four threads on one key, whose answers have to agree with what is there.
use super::{Map, assert_is, at, empty, key, plain, put};
use std::process::Abort;
use std::sync::Wait;
use std::thread;
use std::thread::Threads;
use test_keys::ChosenKey;
use trie_map::{NoMemory, PutError};

const THREADS: usize = 4;

const TIMES: u32 = 10_000;

// What the threads do to the key.
#[derive(Clone, Copy, Debug)]
enum Calls {
    // Put it where it is absent, and remove it where it has that value.
    PutAndRemove,
    // The same, where its value passes a test.
    PutAndRemoveWhere,
    // Put it, replace it where it is present, and remove it.
    PutReplaceAndRemove,
    // Put it twice by one list, and remove it twice by another.
    PutAndRemoveMany,
    // Put a number of the thread's own, and remove the key where it still has that.
    PutOwn,
    // The same, where it is put only if the key is absent.
    PutOwnIfAbsent,
    // Make its value one more where it is the one that was read.
    Replace,
    // Draw numbers from it.
    Draw,
    // Make its value one more where it is below three, and then one less.
    Enter,
}

// What the answers of one thread add up to.
type PutResult = Result<u64, PutError>;

fn the_key() -> ChosenKey {
    key(5, 0)
}

// 1 for what was done, 0 for what was not.
fn one_if(done: bool) -> u64 {
    u64::from(done)
}

// The pairs that this thread added, less those that it removed.
fn put_and_remove<R: Wait>(rt: &R, map: &Map) -> PutResult {
    let added = one_if(map.put_if_absent(rt, the_key(), 1)?.is_none());
    let removed = one_if(map.remove_if(rt, &the_key(), &1)?);
    Ok(added.wrapping_sub(removed))
}

fn put_and_remove_where<R: Wait>(rt: &R, map: &Map) -> PutResult {
    let added = one_if(map.put_if_absent(rt, the_key(), 1)?.is_none());
    let removed = map.remove_where(rt, &the_key(), |value| *value == 1)?;
    Ok(added.wrapping_sub(one_if(removed.is_some())))
}

fn put_replace_and_remove<R: Wait>(rt: &R, map: &Map) -> PutResult {
    let added = one_if(map.put(rt, the_key(), 1)?.is_none());
    map.replace(rt, the_key(), 2)?;
    let removed = one_if(map.remove(rt, &the_key())?.is_some());
    Ok(added.wrapping_sub(removed))
}

fn put_and_remove_many<R: AllocGlobal + Wait>(rt: &R, map: &Map) -> PutResult {
    let pairs = Vec::from_array(rt.alloc(), [(the_key(), 1), (the_key(), 2)])?;
    let mut sum = 0u64;
    for before in map.put_many(rt, pairs)? {
        sum = sum.wrapping_add(one_if(before.is_none()));
    }
    for before in map.remove_many(rt, &[&the_key(), &the_key()])? {
        sum = sum.wrapping_sub(one_if(before.is_some()));
    }
    Ok(sum)
}

// What this thread's numbers add to the value of the key: those that it put, less those that it replaced or removed.
fn put_own<R: Wait>(rt: &R, map: &Map, own: u64) -> PutResult {
    let before = plain(map.put(rt, the_key(), own)?).unwrap_or(0);
    let removed = if map.remove_if(rt, &the_key(), &own)? {
        own
    } else {
        0
    };
    Ok(own.wrapping_sub(before).wrapping_sub(removed))
}

fn put_own_if_absent<R: Wait>(rt: &R, map: &Map, own: u64) -> PutResult {
    let before = map.put_if_absent(rt, the_key(), own)?;
    let added = if before.is_none() { own } else { 0 };
    let removed = if map.remove_if(rt, &the_key(), &own)? {
        own
    } else {
        0
    };
    Ok(added.wrapping_sub(removed))
}

// 1 where this thread made the value one more.
fn replace<R: Wait>(rt: &R, map: &Map) -> PutResult {
    let value = map.get_copied(rt, &the_key()).unwrap_or(0);
    let done = map.replace_if(rt, the_key(), &value, value.wrapping_add(1))?;
    Ok(one_if(done))
}

// The number that this thread drew.
fn draw<R: Wait>(rt: &R, map: &Map) -> PutResult {
    map.update_with(rt, the_key(), |old| {
        let next = old.map_or(1, |n| n.wrapping_add(1));
        (Some(next), next)
    })
}

// 1 where this thread was a fourth inside.
fn enter<R: Wait>(rt: &R, map: &Map) -> PutResult {
    let entered = map.try_update(rt, the_key(), |old| match old {
        Some(inside) if *inside >= 3 => Err(()),
        Some(inside) => Ok(Some(inside.wrapping_add(1))),
        None => Ok(Some(1)),
    })?;
    if entered.is_err() {
        return Ok(0);
    }
    let before = map.update_with(rt, the_key(), |old| match old {
        Some(inside) => (Some(inside.wrapping_sub(1)), *inside),
        None => (None, 0),
    })?;
    Ok(one_if(before == 0 || before > 3))
}

fn call<R: AllocGlobal + Wait>(rt: &R, map: &Map, calls: Calls, own: u64) -> PutResult {
    match calls {
        Calls::PutAndRemove => put_and_remove(rt, map),
        Calls::PutAndRemoveWhere => put_and_remove_where(rt, map),
        Calls::PutReplaceAndRemove => put_replace_and_remove(rt, map),
        Calls::PutAndRemoveMany => put_and_remove_many(rt, map),
        Calls::PutOwn => put_own(rt, map, own),
        Calls::PutOwnIfAbsent => put_own_if_absent(rt, map, own),
        Calls::Replace => replace(rt, map),
        Calls::Draw => draw(rt, map),
        Calls::Enter => enter(rt, map),
    }
}

// The answers of all calls of the thread that has this number of its own.
fn all_calls<R: AllocGlobal + Wait>(rt: &R, map: &Map, calls: Calls, own: u64) -> PutResult {
    let mut sum = 0u64;
    for _ in 0..TIMES {
        sum = sum.wrapping_add(call(rt, map, calls, own)?);
    }
    Ok(sum)
}

// The answers of all threads.
fn sum_by_threads<R: AllocGlobal + Threads + Wait + Abort + Sync>(
    rt: &R,
    map: &Map,
    calls: Calls,
) -> u64 {
    let mut sum = 0u64;
    let all = thread::map_indices(
        rt,
        rt.alloc(),
        THREADS,
        &|thread: usize| { all_calls(rt, map, calls, 1 + thread as u64) },
    );
    for answers in all.expect(rt, "no threads") {
        sum = sum.wrapping_add(answers.expect(rt, "a call was refused"));
    }
    sum
}

#[test]
fn what_is_added_is_removed_once(rt: HostRuntime) {
    for calls in [
        Calls::PutAndRemove,
        Calls::PutAndRemoveWhere,
        Calls::PutReplaceAndRemove,
        Calls::PutAndRemoveMany,
    ] {
        let map = empty(&rt);
        let left = sum_by_threads(&rt, &map, calls);
        assert_eq!(rt; left, map.len(&rt), "{calls:?}");
    }
}

// What is removed is what was compared, and what is put where there is nothing replaces nothing.
#[test]
fn a_number_is_removed_by_its_own_thread(rt: HostRuntime) {
    for calls in [Calls::PutOwn, Calls::PutOwnIfAbsent] {
        let map = empty(&rt);
        let left = sum_by_threads(&rt, &map, calls);
        let there = at(&rt, &map, the_key()).unwrap_or(0);
        assert_eq!(rt; left, there, "{calls:?}");
    }
}

#[test]
fn a_value_is_replaced_once(rt: HostRuntime) {
    let map = empty(&rt);
    put(&rt, &map, the_key(), 0);
    let times = sum_by_threads(&rt, &map, Calls::Replace);
    assert_is(&rt, at(&rt, &map, the_key()), Some(times));
}

// 40,000 numbers are drawn, each once.
#[test]
fn a_number_is_drawn_once(rt: HostRuntime) {
    let map = empty(&rt);
    assert_is(&rt, sum_by_threads(&rt, &map, Calls::Draw), 800_020_000);
    assert_is(&rt, at(&rt, &map, the_key()), Some(40_000));
}

#[test]
fn no_fourth_thread_is_inside(rt: HostRuntime) {
    let map = empty(&rt);
    assert_is(&rt, sum_by_threads(&rt, &map, Calls::Enter), 0);
    assert_is(&rt, at(&rt, &map, the_key()), Some(0));
}

// How many handles there are on the value of the key once it was replaced by an equal one, beside the map's.
fn handles<R: Wait>(rt: &R, map: &Map) -> Result<usize, NoMemory> {
    let before = map.get(rt, &the_key())?;
    let done = map.replace_if(rt, the_key(), &7, 7)?;
    match before {
        Some(value) if done => Ok(std::sync::Arc::strong_count(&value)),
        _ => Ok(0),
    }
}

// A value that is replaced by an equal one is another value: the map lets the first go.
#[test]
fn a_value_is_replaced_by_an_equal_one(rt: HostRuntime) {
    let map = empty(&rt);
    put(&rt, &map, the_key(), 7);
    assert_is(&rt, handles(&rt, &map), Ok(1));
    assert_is(&rt, at(&rt, &map, the_key()), Some(7));
}
