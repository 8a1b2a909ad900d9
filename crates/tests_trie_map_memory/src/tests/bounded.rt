//! A map with a limit, of which each place is that of a pair or free, also where a put found no memory.
use super::assert_is;
use bounded_map::BoundedMap;
use std::alloc::{AllocError, Global};
use std::process::Abort;
use std::sync::{Arc, Wait};
use std::thread;
use test_keys::take_all;
use trie_map::PutError;

type Bounded = BoundedMap<u64, u64>;

const LIMIT: u64 = 16;

// The size of the `Arc` of a key or a value, and how many of them a put is given at most.
const SMALL: usize = 16;

const MOST_SMALL: u64 = 3;

// In how many ways a pair is put.
const WAYS: u64 = 5;

// Room for some requests of that size, once all memory is taken.
fn room(alloc: Global, count: u64) -> Result<Vec<Vec<u8>>, AllocError> {
    let mut blocks = Vec::with_capacity(alloc, count as usize)?;
    for _ in 0..count {
        blocks.push(Vec::with_capacity(alloc, SMALL)?)?;
    }
    Ok(blocks)
}

// Whether a put was refused, since there was no memory.
fn is_refused<T: Drop>(answer: Result<T, PutError>) -> bool {
    answer.is_err_and(|error| error == PutError::NoMemory)
}

// Whether a put of the key in this way was.
fn is_put_refused<R: Wait>(rt: &R, map: &Bounded, way: u64, key: u64, shared: Arc<u64>) -> bool {
    match way {
        0 => is_refused(map.put(rt, key, 0)),
        1 => is_refused(map.put_shared(rt, key, shared)),
        2 => is_refused(map.put_if_absent(rt, key, 0)),
        3 => is_refused(map.update(rt, key, |_| Some(0))),
        _ => is_refused(map.get_or_else_update(rt, key, || 0)),
    }
}

// The same with room for `small` small requests alone.
fn is_refused_in_room<R: AllocGlobal + Wait + Abort>(
    rt: &R,
    map: &Bounded,
    way: u64,
    small: u64,
) -> bool {
    let key = way.wrapping_mul(MOST_SMALL).wrapping_add(small);
    let shared = Arc::new(rt.alloc(), 0).expect(rt, "no value");
    let blocks = room(rt.alloc(), small).expect(rt, "no blocks");
    let taken = take_all(rt.alloc()).expect(rt, "no list");
    drop(blocks);
    let refused = is_put_refused(rt, map, way, key, shared);
    drop(taken);
    refused
}

// Puts new keys until the map is full.
fn fill<R: Wait + Abort>(rt: &R, map: &Bounded) {
    for key in 0..LIMIT {
        match map.put(rt, key.wrapping_add(1_000), 0) {
            Ok(_) => {}
            Err(error) => assert_is(rt, error, PutError::Full),
        }
    }
}

#[test]
fn a_put_with_no_memory_gives_its_place_back(rt: HostRuntime) {
    let map: Bounded = BoundedMap::with_limit(&rt, LIMIT).expect(&rt, "no map");
    let mut refused = 0u64;
    for way in 0..WAYS {
        for small in 0..MOST_SMALL {
            let again = is_refused_in_room(&rt, &map, way, small);
            refused = refused.wrapping_add(u64::from(again));
        }
    }
    assert!(rt; WAYS <= refused, "{refused} were refused");
    fill(&rt, &map);
    assert_is(&rt, map.len(&rt), LIMIT);
}

// A place that one of two threads has taken is not there for the other.
#[test]
fn two_threads_ask_for_one_place(rt: HostRuntime) {
    let map: Bounded = BoundedMap::with_limit(&rt, 1).expect(&rt, "no map");
    let (one, other) = thread::join(
        &rt,
        || map.put(&rt, 1, 0).is_ok(),
        || map.put(&rt, 2, 0).is_ok(),
    );
    assert_is(&rt, one != other, true);
    assert_is(&rt, map.len(&rt), 1);
}
