//! Many pairs that are put, and many keys that are removed, by one call.
use super::{Map, assert_is, at, empty, key, plain, put};
use std::process::Abort;
use std::sync::atomic::{AtomicU32, Ordering};
use std::sync::{Arc, Wait};
use std::thread;
use test_keys::{ChosenKey, Random};
use trie_map::{ByteText, PutError, TrieMap};

// How many pairs a long list has, and how often a key is written in a race.
const LONG: u64 = 5_000;

const TURNS: u64 = 5_000;

// The values of a list, or none.
fn plain_all<R: AllocGlobal + Abort>(rt: &R, values: Vec<Option<Arc<u64>>>) -> Vec<Option<u64>> {
    let mut numbers = Vec::new(rt.alloc());
    for value in values {
        numbers.push(plain(value)).expect(rt, "no list");
    }
    numbers
}

// The values before of pairs that are put by one call.
fn put_all<R: AllocGlobal + Wait + Abort>(
    rt: &R,
    map: &Map,
    pairs: Vec<(ChosenKey, u64)>,
) -> Vec<Option<u64>> {
    match map.put_many(rt, pairs) {
        Ok(before) => plain_all(rt, before),
        Err(_) => rt.panic("not put"),
    }
}

// The values before of keys that are removed by one call.
fn remove_all<R: AllocGlobal + Wait + Abort>(
    rt: &R,
    map: &Map,
    keys: &[&ChosenKey],
) -> Vec<Option<u64>> {
    match map.remove_many(rt, keys) {
        Ok(before) => plain_all(rt, before),
        Err(_) => rt.panic("not removed"),
    }
}

// Keys of three stripes, one that is there, and one that stands twice.
#[test]
fn pairs_are_put_in_the_order_of_their_list(rt: HostRuntime) {
    let map = empty(&rt);
    put(&rt, &map, key(1, 0), 7);
    let pairs = [
        (key(1, 0), 10),
        (key(30, 0), 11),
        (key(1, 1), 12),
        (key(1, 0), 13),
        (key(2, 0), 14),
        (key(30, 0), 15),
    ];
    let pairs = Vec::from_array(rt.alloc(), pairs).expect(&rt, "no list");
    let before = put_all(&rt, &map, pairs);
    assert_is(
        &rt,
        before.as_slice(),
        [Some(7), None, None, Some(10), None, Some(11)].as_slice(),
    );
    let now = [key(1, 0), key(30, 0), key(1, 1), key(2, 0)].map(|key| at(&rt, &map, key));
    assert_is(&rt, now, [Some(13), Some(15), Some(12), Some(14)]);
    assert_is(&rt, map.len(&rt), 4);
}

#[test]
fn keys_are_removed_in_the_order_of_their_list(rt: HostRuntime) {
    let map = empty(&rt);
    for (digit, value) in [(1, 10), (2, 20), (30, 30)] {
        put(&rt, &map, key(digit, 0), value);
    }
    let keys = [&key(30, 0), &key(1, 0), &key(9, 0), &key(1, 0), &key(30, 1)];
    let before = remove_all(&rt, &map, &keys);
    assert_is(
        &rt,
        before.as_slice(),
        [Some(30), Some(10), None, None, None].as_slice(),
    );
    assert_is(&rt, map.len(&rt), 1);
    assert_is(&rt, at(&rt, &map, key(2, 0)), Some(20));
}

#[test]
fn empty_lists_write_nothing(rt: HostRuntime) {
    let map = empty(&rt);
    put(&rt, &map, key(1, 0), 7);
    assert_is(&rt, put_all(&rt, &map, Vec::new(rt.alloc())).len(), 0);
    assert_is(&rt, remove_all(&rt, &map, &[]).len(), 0);
    assert_is(&rt, map.len(&rt), 1);
}

// Whether texts are put and removed by one call each.
fn texts_are_written<R: AllocGlobal + Wait>(rt: &R) -> Result<[Option<u64>; 3], PutError> {
    let map: TrieMap<ByteText, u64> = TrieMap::new(rt)?;
    let mut pairs = Vec::new(rt.alloc());
    for (text, value) in [("a", 4), ("ab", 6), ("a", 5)] {
        pairs.push((ByteText::from_text(rt.alloc(), text)?, value))?;
    }
    drop(map.put_many(rt, pairs)?);
    let mut removed = [None; 3];
    for (place, value) in map
        .remove_many(rt, &["ab", "b", "a"])?
        .into_iter()
        .enumerate()
    {
        if let Some(slot) = removed.get_mut(place) {
            *slot = plain(value);
        }
    }
    Ok(removed)
}

#[test]
fn texts_are_removed_with_no_key_made(rt: HostRuntime) {
    assert_is(&rt, texts_are_written(&rt), Ok([Some(6), None, Some(5)]));
}

// A long list of pairs, of which some keys are there more than once.
fn long_list<R: AllocGlobal + Abort>(rt: &R) -> Vec<(ChosenKey, u64)> {
    let mut random = Random(71);
    let mut pairs = Vec::new(rt.alloc());
    for value in 0..LONG {
        let word = u64::from(random.next(4_000));
        let key = ChosenKey {
            path: word.wrapping_mul(0x9e37_79b9_7f4a_7c15),
            id: 0,
        };
        pairs.push((key, value)).expect(rt, "no list");
    }
    pairs
}

// What the same calls one by one answer and leave.
#[test]
fn a_long_list_is_written_as_its_pairs_are(rt: HostRuntime) {
    let (map, plain_map) = (empty(&rt), empty(&rt));
    let mut wanted = Vec::new(rt.alloc());
    for (key, value) in long_list(&rt) {
        let before = plain_map.put(&rt, key, value).expect(&rt, "not put");
        wanted.push(plain(before)).expect(&rt, "no list");
    }
    let before = put_all(&rt, &map, long_list(&rt));
    assert_eq!(rt; before.as_slice(), wanted.as_slice());
}

// Puts each number at both keys by one call.
fn write_both<R: AllocGlobal + Wait>(
    rt: &R,
    map: &Map,
    keys: (ChosenKey, ChosenKey),
) -> Result<(), PutError> {
    for number in 1..TURNS {
        let pairs = Vec::from_array(rt.alloc(), [(keys.0, number), (keys.1, number)])?;
        drop(map.put_many(rt, pairs)?);
    }
    Ok(())
}

// Looks until the writer is done, and returns how often the two keys had different values at one moment.
fn look<R: Wait>(
    rt: &R,
    map: &Map,
    keys: (ChosenKey, ChosenKey),
    done: &AtomicU32,
) -> Result<u32, PutError> {
    let mut torn = 0u32;
    for _ in rt.forever() {
        let values = map.get_many(rt, &[&keys.0, &keys.1])?;
        let mut numbers = values.into_iter().map(plain);
        if numbers.next() != numbers.next() {
            torn = torn.wrapping_add(1);
        }
        if done.load(Ordering::SeqCst) != 0 {
            return Ok(torn);
        }
    }
    unreachable!()
}

// The two keys lie in one stripe, so no moment is between their puts.
#[test]
fn pairs_of_one_stripe_are_put_at_one_moment(rt: HostRuntime) {
    let map = empty(&rt);
    let keys = (key(3, 0), key(35, 1));
    put(&rt, &map, keys.0, 0);
    put(&rt, &map, keys.1, 0);
    let done = AtomicU32::new(0);
    let (written, torn) = thread::join(
        &rt,
        || {
            let written = write_both(&rt, &map, keys);
            done.store(1, Ordering::SeqCst);
            written
        },
        || look(&rt, &map, keys, &done),
    );
    assert_is(&rt, written, Ok(()));
    assert_is(&rt, torn, Ok(0));
}
