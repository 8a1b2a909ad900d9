//! Maps with a limit: by hand, and by four threads around the limit.
use super::{assert_is, plain};
use std::process::Abort;
use std::sync::{Arc, Wait};
use std::thread;
use std::thread::Threads;
use tambyulo::BoundedMap;
use trie_map::{NoMemory, PutError};

type Bounded = BoundedMap<u64, u64>;

const THREADS: usize = 4;

const TIMES: u64 = 4_000;

// How many pairs the threads' map may have. Each of them has twice as many keys.
const LIMIT: u64 = 24;

fn with_limit<R: AllocGlobal + Wait + Abort>(rt: &R, limit: u64) -> Bounded {
    BoundedMap::with_limit(rt, limit).expect(rt, "no map")
}

// Puts a new key, or the value of one that is present.
fn put<R: Wait + Abort>(rt: &R, map: &Bounded, key: u64, value: u64) {
    map.put(rt, key, value).expect(rt, "not put");
}

// How many new keys, none of them below 1,000, the map takes until it is full.
fn room<R: Wait + Abort>(rt: &R, map: &Bounded) -> u64 {
    for new in 0..1_000u64 {
        match map.put(rt, new.wrapping_add(1_000), 0) {
            Ok(before) => assert_is(rt, before, None),
            Err(error) => {
                assert_is(rt, error, PutError::Full);
                return new;
            }
        }
    }
    1_000
}

#[test]
fn a_new_key_finds_no_place(rt: HostRuntime) {
    let sessions: BoundedMap<u64, u64> = BoundedMap::with_limit(&rt, 2).expect(&rt, "no map");
    sessions.put(&rt, 1, 10).expect(&rt, "not put");
    sessions.put(&rt, 2, 20).expect(&rt, "not put");
    assert_is(&rt, sessions.put(&rt, 3, 30), Err(PutError::Full));
    assert_is(&rt, sessions.contains_key(&rt, &3), false);
    assert_is(&rt, (sessions.limit(), sessions.len(&rt)), (2, 2));
    let before = sessions.put(&rt, 2, 21).expect(&rt, "not put");
    assert_is(&rt, plain(before), Some(20));
    let found = sessions.get(&rt, &2).expect(&rt, "not read");
    assert_is(&rt, plain(found), Some(21));
}

#[test]
fn a_limit_of_nothing_takes_nothing(rt: HostRuntime) {
    let map = with_limit(&rt, 0);
    assert_is(&rt, map.put(&rt, 1, 1), Err(PutError::Full));
    assert_is(&rt, map.put_if_absent(&rt, 1, 1), Err(PutError::Full));
    assert_is(&rt, map.is_empty(&rt), true);
}

// Each write of a full map that adds no pair is done.
#[test]
fn present_keys_are_written_where_all_is_full(rt: HostRuntime) {
    let map = with_limit(&rt, 1);
    put(&rt, &map, 1, 10);
    let shared = map.get(&rt, &1).expect(&rt, "not read");
    let shared = shared.expect(&rt, "no value");
    put(&rt, &map, 1, 11);
    let before = map.put_shared(&rt, 1, shared).expect(&rt, "not put");
    assert_is(&rt, plain(before), Some(11));
    let there = map.put_if_absent(&rt, 1, 12).expect(&rt, "refused");
    assert_is(&rt, plain(there), Some(10));
    let there = map.get_or_else_update(&rt, 1, || 12).expect(&rt, "refused");
    assert_is(&rt, *there, 10);
    let before = map.replace(&rt, 1, 13).expect(&rt, "not replaced");
    assert_is(&rt, plain(before), Some(10));
    assert_is(&rt, map.replace_if(&rt, 1, &13, 14), Ok(true));
    let before = map.update(&rt, 1, |old| old.map(|value| value.wrapping_add(1)));
    assert_is(&rt, plain(before.expect(&rt, "not updated")), Some(14));
    assert_is(&rt, map.get_copied(&rt, &1), Some(15));
    assert_is(&rt, room(&rt, &map), 0);
}

// Each call that adds a pair is refused by a full map, and leaves it as it was.
#[test]
fn each_put_of_a_new_key_is_refused(rt: HostRuntime) {
    let map = with_limit(&rt, 1);
    put(&rt, &map, 1, 10);
    let shared = Arc::new(rt.alloc(), 7).expect(&rt, "no value");
    assert_is(&rt, map.put_shared(&rt, 2, shared), Err(PutError::Full));
    assert_is(&rt, map.put_if_absent(&rt, 2, 7), Err(PutError::Full));
    let mut made = false;
    let answer = map.get_or_else_update(&rt, 2, || {
        made = true;
        7
    });
    assert_is(&rt, answer, Err(PutError::Full));
    assert_is(&rt, made, false);
    let answer = map.update(&rt, 2, |_| Some(7));
    assert_is(&rt, answer, Err(PutError::Full));
    assert_is(&rt, map.update(&rt, 2, |_| None), Ok(None));
    assert_is(&rt, map.replace(&rt, 2, 7), Ok(None));
    assert_is(&rt, map.len(&rt), 1);
    assert_is(&rt, map.contains_key(&rt, &2), false);
}

// Each call that puts a new pair takes one place.
#[test]
fn each_new_pair_takes_a_place(rt: HostRuntime) {
    let map = with_limit(&rt, 10);
    put(&rt, &map, 1, 1);
    let shared = Arc::new(rt.alloc(), 7).expect(&rt, "no value");
    assert_is(&rt, map.put_shared(&rt, 2, shared), Ok(None));
    assert_is(&rt, map.put_if_absent(&rt, 3, 3), Ok(None));
    let made = map.get_or_else_update(&rt, 4, || 4).expect(&rt, "refused");
    assert_is(&rt, *made, 4);
    assert_is(&rt, map.update(&rt, 5, |_| Some(5)), Ok(None));
    assert_is(&rt, map.len(&rt), 5);
    assert_is(&rt, room(&rt, &map), 5);
}

// Each call that removes pairs gives as many places back.
#[test]
fn each_pair_that_goes_gives_its_place_back(rt: HostRuntime) {
    let map = with_limit(&rt, 9);
    for key in 0..9 {
        put(&rt, &map, key, key);
    }
    assert_is(&rt, map.remove(&rt, &9), Ok(None));
    let gone = map.remove(&rt, &0).expect(&rt, "not removed");
    assert_is(&rt, plain(gone), Some(0));
    assert_is(&rt, map.remove_if(&rt, &1, &7), Ok(false));
    assert_is(&rt, map.remove_if(&rt, &1, &1), Ok(true));
    assert_is(
        &rt,
        map.remove_where(&rt, &2, |value| *value == 7),
        Ok(None),
    );
    let gone = map.remove_where(&rt, &2, |value| *value == 2);
    assert_is(&rt, plain(gone.expect(&rt, "not removed")), Some(2));
    let gone = map.update(&rt, 3, |_| None).expect(&rt, "not updated");
    assert_is(&rt, plain(gone), Some(3));
    assert_is(&rt, map.retain(&rt, |key, _| *key == 8), Ok(4));
    assert_is(&rt, room(&rt, &map), 8);
    assert_is(&rt, map.clear(&rt), Ok(()));
    assert_is(&rt, map.is_empty(&rt), true);
    assert_is(&rt, room(&rt, &map), 9);
    let view = map.view(&rt).expect(&rt, "no view");
    assert_is(&rt, (view.len(), map.len(&rt)), (9, 9));
}

// Whether a put was done, or refused since the map was full.
fn done_or_full<T: Drop>(answer: Result<T, PutError>) -> Result<(), NoMemory> {
    match answer {
        Err(PutError::NoMemory) => Err(NoMemory),
        _ => Ok(()),
    }
}

// One of the calls of a thread that put and remove keys of its own.
fn call<R: AllocGlobal + Wait>(
    rt: &R,
    map: &Bounded,
    which: u64,
    key: u64,
) -> Result<(), NoMemory> {
    match which {
        0 | 1 => done_or_full(map.put(rt, key, 0)),
        2 => done_or_full(map.put_shared(rt, key, Arc::new(rt.alloc(), 0)?)),
        3 => done_or_full(map.put_if_absent(rt, key, 0)),
        4 => done_or_full(map.get_or_else_update(rt, key, || 0)),
        5 => done_or_full(map.update(rt, key, |old| match old {
            Some(_) => None,
            None => Some(0),
        })),
        6 | 7 => map.remove(rt, &key).map(|_| ()),
        8 => map.remove_where(rt, &key, |_| true).map(|_| ()),
        _ => map.remove_if(rt, &key, &0).map(|_| ()),
    }
}

// The most pairs that a thread sees in views of the map, while it puts and removes keys of its own, and now and then
// removes all of them or all that there are.
fn most_seen<R: AllocGlobal + Wait>(rt: &R, map: &Bounded, thread: u64) -> Result<u64, NoMemory> {
    let mut most = 0u64;
    let first = thread.wrapping_mul(2 * LIMIT);
    for time in 0..TIMES {
        let which = time.wrapping_mul(7) % 11;
        let key = first.wrapping_add(time.wrapping_mul(17) % (2 * LIMIT));
        call(rt, map, which, key)?;
        if time % 16 == 0 {
            most = most.max(map.view(rt)?.len());
        }
        if time % 500 == 499 {
            map.retain(rt, |key, _| key / (2 * LIMIT) != thread)?;
        }
        if time % 1_000 == 999 {
            map.clear(rt)?;
        }
    }
    Ok(most)
}

// The most pairs that any of the threads saw.
fn most_by_threads<R: AllocGlobal + Threads + Wait + Abort + Sync>(rt: &R, map: &Bounded) -> u64 {
    let mut most = 0u64;
    let all = thread::map_indices(
        rt,
        rt.alloc(),
        THREADS,
        &|thread: usize| { most_seen(rt, map, thread as u64) },
    );
    for seen in all.expect(rt, "no threads") {
        most = most.max(seen.expect(rt, "no memory"));
    }
    most
}

// The threads come to the limit, and never above it. When they have ended, each place is that of a pair, or free.
#[test]
fn four_threads_stay_within_the_limit(rt: HostRuntime) {
    let map = with_limit(&rt, LIMIT);
    let most = most_by_threads(&rt, &map);
    assert!(rt;
        LIMIT / 2 <= most && most <= LIMIT,
        "{most} pairs were seen"
    );
    let left = map.len(&rt);
    assert_is(&rt, room(&rt, &map), LIMIT.wrapping_sub(left));
    assert_is(&rt, map.len(&rt), LIMIT);
}
