//! Look-ups of several keys by one call, in a view and in a map that is written meanwhile.
use super::{Map, assert_is, empty, key, put, view_of};
use std::process::Abort;
use std::sync::atomic::{AtomicU32, Ordering};
use std::sync::{Arc, Wait};
use std::thread;
use std::thread::Threads;
use test_keys::ChosenKey;
use trie_map::{ByteText, NoMemory, PutError, TrieMap};

// How often the writer writes both keys. The reader looks until the writer is done.
const TURNS: u64 = 5_000;

// The value at a place of a list, or none.
fn number_at(values: &[Option<Arc<u64>>], place: usize) -> Option<u64> {
    match values.get(place)? {
        Some(value) => Some(**value),
        None => None,
    }
}

// The same of values that are lent.
fn lent_at(values: &[Option<&Arc<u64>>], place: usize) -> Option<u64> {
    let value = (*values.get(place)?)?;
    Some(**value)
}

// The values that a map has for the keys, by one call.
fn of_map<R: Wait + Abort>(rt: &R, map: &Map, keys: &[&ChosenKey]) -> [Option<u64>; 5] {
    let values = map.get_many(rt, keys).expect(rt, "no list");
    [0, 1, 2, 3, 4].map(|place| number_at(&values, place))
}

// Keys of two stripes, one that is absent, and one that stands twice.
#[test]
fn values_come_in_the_order_of_their_keys(rt: HostRuntime) {
    let map = empty(&rt);
    let (low, next, high) = (key(1, 0), key(1, 1), key(30, 0));
    put(&rt, &map, low, 21);
    put(&rt, &map, next, 4);
    put(&rt, &map, high, 5);
    let view = view_of(&rt, &map);
    put(&rt, &map, low, 99);
    let keys = [&high, &low, &key(2, 0), &next, &high];
    let seen = view.get_many(&keys).expect(&rt, "no list");
    let seen = [0, 1, 2, 3, 4].map(|place| lent_at(&seen, place));
    assert_is(&rt, seen, [Some(5), Some(21), None, Some(4), Some(5)]);
    let now = of_map(&rt, &map, &keys);
    assert_is(&rt, now, [Some(5), Some(99), None, Some(4), Some(5)]);
}

// The values of three texts, of which one is absent.
fn of_texts<R: AllocGlobal + Wait>(rt: &R) -> Result<[Option<u64>; 3], PutError> {
    let map: TrieMap<ByteText, u64> = TrieMap::new(rt)?;
    map.put(rt, ByteText::from_text(rt.alloc(), "a")?, 4)?;
    map.put(rt, ByteText::from_text(rt.alloc(), "ab")?, 6)?;
    let values = map.get_many(rt, &["ab", "b", "a"])?;
    Ok([0, 1, 2].map(|place| number_at(&values, place)))
}

#[test]
fn texts_are_looked_up_with_no_key_made(rt: HostRuntime) {
    assert_is(&rt, of_texts(&rt), Ok([Some(6), None, Some(4)]));
}

// Puts the numbers in turn at the first key and then at the second.
fn write_both<R: Wait>(
    rt: &R,
    map: &Map,
    first: ChosenKey,
    second: ChosenKey,
) -> Result<(), PutError> {
    for number in 1..TURNS {
        map.put(rt, first, number)?;
        map.put(rt, second, number)?;
    }
    Ok(())
}

// Whether the two values were there at no moment: the first is the second, or one more.
fn is_torn<R: Wait>(
    rt: &R,
    map: &Map,
    first: &ChosenKey,
    second: &ChosenKey,
) -> Result<bool, NoMemory> {
    let values = map.get_many(rt, &[first, second])?;
    let first = number_at(&values, 0).unwrap_or(0);
    let second = number_at(&values, 1).unwrap_or(0);
    Ok(1 < first.wrapping_sub(second))
}

// Looks until the writer is done, and returns how often what was seen was torn.
fn look<R: Wait>(
    rt: &R,
    map: &Map,
    first: &ChosenKey,
    second: &ChosenKey,
    done: &AtomicU32,
) -> Result<u32, PutError> {
    let mut torn = 0u32;
    for _ in rt.forever() {
        if is_torn(rt, map, first, second)? {
            torn = torn.wrapping_add(1);
        }
        if done.load(Ordering::SeqCst) != 0 {
            return Ok(torn);
        }
    }
    unreachable!()
}

// What the thread of this number does: it returns how often what it saw was torn.
fn work<R: Wait>(
    rt: &R,
    map: &Map,
    keys: (ChosenKey, ChosenKey),
    done: &AtomicU32,
    number: usize,
) -> Result<u32, PutError> {
    if number == 0 {
        let written = write_both(rt, map, keys.0, keys.1);
        done.store(1, Ordering::SeqCst);
        written?;
        return Ok(0);
    }
    look(rt, map, &keys.0, &keys.1, done)
}

// How often what was seen beside the writer was torn.
fn torn_looks<R: AllocGlobal + Threads + Wait + Abort + Sync>(
    rt: &R,
    map: &Map,
    keys: (ChosenKey, ChosenKey),
) -> u32 {
    let flag = AtomicU32::new(0);
    let done = &flag;
    let mut torn = 0u32;
    let all = thread::map_indices(
        rt,
        rt.alloc(),
        2,
        &|number: usize| { work(rt, map, keys, done, number) },
    );
    for looks in all.expect(rt, "no threads") {
        torn = torn.wrapping_add(looks.expect(rt, "a call was refused"));
    }
    torn
}

// The keys lie in stripes far from one another, and are looked up in either order of their stripes.
#[test]
fn the_values_are_of_one_moment(rt: HostRuntime) {
    let (low, high) = (key(2, 0), key(29, 0));
    for keys in [(low, high), (high, low)] {
        let map = empty(&rt);
        put(&rt, &map, low, 0);
        put(&rt, &map, high, 0);
        assert_is(&rt, torn_looks(&rt, &map, keys), 0);
    }
}
