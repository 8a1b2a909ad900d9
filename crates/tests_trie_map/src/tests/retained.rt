//! Removals of the pairs that fail a test.
use super::{Map, assert_is, at, empty, key, put, view_of};
use std::process::Abort;
use std::sync::Wait;
use std::thread;
use std::thread::Threads;
use trie_map::{NoMemory, PutError};

// How many threads there are, and how many keys.
const THREADS: usize = 4;

const KEYS: u32 = 4_000;

// The values of three keys.
fn at_three<R: Wait + Abort>(rt: &R, map: &Map) -> [Option<u64>; 3] {
    [
        at(rt, map, key(0, 0)),
        at(rt, map, key(1, 1)),
        at(rt, map, key(1, 2)),
    ]
}

#[test]
fn pairs_that_fail_are_removed(rt: HostRuntime) {
    let map = empty(&rt);
    put(&rt, &map, key(0, 0), 5);
    put(&rt, &map, key(1, 1), 6);
    put(&rt, &map, key(1, 2), 7);
    assert_is(&rt, map.retain(&rt, |_, value| *value == 6), Ok(2));
    assert_is(&rt, at_three(&rt, &map), [None, Some(6), None]);
    assert_is(&rt, map.retain(&rt, |key, _| key.id == 1), Ok(0));
    assert_is(&rt, map.len(&rt), 1);
}

// How many pairs are counted of a map of ten pairs with the value 0, where the test itself has removed the even keys and
// put 1 under the odd ones by the time at which they would be removed.
fn counted<R: AllocGlobal + Wait + Abort>(rt: &R, map: &Map) -> Result<u64, NoMemory> {
    map.retain(rt, |key, value| {
        if *value == 0 && key.id % 2 == 0 {
            let _ = map.remove(rt, key);
        } else if *value == 0 {
            let _ = map.put(rt, *key, 1);
        }
        *value != 0
    })
}

#[test]
fn what_others_remove_is_not_counted(rt: HostRuntime) {
    let map = empty(&rt);
    for id in 0..10 {
        put(&rt, &map, key(id, id), 0);
    }
    assert_is(&rt, counted(&rt, &map), Ok(0));
    assert_is(&rt, map.len(&rt), 5);
}

// Puts the value under each key whose number leaves this rest when it is divided by the number of threads.
fn put_share<R: Wait>(rt: &R, map: &Map, rest: usize, value: u64) -> Result<(), PutError> {
    for number in 0..KEYS {
        if number as usize % THREADS == rest {
            map.put(rt, key(number % 32, number), value)?;
        }
    }
    Ok(())
}

// One thread removes each pair whose value is 0 while each of the others puts 1 in place of 0 under its keys.
fn work<R: Wait>(rt: &R, map: &Map, thread: usize) -> Result<(), PutError> {
    if thread == 0 {
        map.retain(rt, |_, value| *value != 0)?;
        return Ok(());
    }
    put_share(rt, map, thread, 1)
}

// Has the threads work on the map.
fn work_all<R: AllocGlobal + Threads + Wait + Abort + Sync>(rt: &R, map: &Map) {
    let all = thread::map_indices(
        rt,
        rt.alloc(),
        THREADS,
        &|place: usize| { work(rt, map, place) },
    );
    for done in all.expect(rt, "no threads") {
        assert_is(rt, done, Ok(()));
    }
}

// Each key has the value 0 before the threads work. A pair that was put meanwhile passes, so that it stays, whatever the
// view showed.
#[test]
fn what_is_put_meanwhile_stays(rt: HostRuntime) {
    let map = empty(&rt);
    for rest in 0..THREADS {
        assert_is(&rt, put_share(&rt, &map, rest, 0), Ok(()));
    }
    work_all(&rt, &map);
    let view = view_of(&rt, &map);
    assert_is(&rt, view.count(|_, value| *value == 1), 3_000);
    assert_is(&rt, view.len(), 3_000);
}
