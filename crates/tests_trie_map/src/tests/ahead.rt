//! Lists for a stripe that has so many pairs that what lies on the ways of its writes is read ahead.
use super::assert_is;
use std::process::Abort;
use std::sync::Wait;
use tambyulo::history::Unnamed;
use trie_map::{Anything, InPlace, PathKey, TrieMap};
use trie_node::{Shared, Slots, ValueSlots};

// A map in a storage.
type Stored<S> = TrieMap<u64, u64, Anything, Unnamed, S>;

// How many pairs the stripe has before a list is written, and how many keys a list has.
const LARGE: usize = 3_000;

const LISTED: usize = 60;

// The first keys of one stripe.
fn keys_of_stripe<R: AllocGlobal + Abort>(rt: &R) -> Vec<u64> {
    let mut keys = Vec::new(rt.alloc());
    for key in 0..200_000u64 {
        if keys.len() < LARGE + LISTED && key.path().digit(0) == 3 {
            keys.push(key).expect(rt, "no list");
        }
    }
    keys
}

// A list in which keys of the stripe that are there stand among others, and some stand twice.
fn listed<R: AllocGlobal + Abort>(rt: &R, keys: &[u64]) -> Vec<u64> {
    let mut list = Vec::new(rt.alloc());
    for n in 0..LISTED {
        let key = keys[LARGE - 20 + n * 7 % 45];
        list.push(key).expect(rt, "no list");
    }
    list
}

// A map of the stripe's pairs.
fn filled<R: AllocGlobal + Wait + Abort, S: Slots<u64, u64>>(rt: &R, keys: &[u64]) -> Stored<S>
where
    S::Key: Drop,
    S::Value: Drop,
{
    let map = TrieMap::new(rt).expect(rt, "no map");
    for key in &keys[..LARGE] {
        drop(map.put(rt, *key, *key).expect(rt, "not put"));
    }
    map
}

// The number itself.
fn number<S: ValueSlots<u64>>(value: Option<S::Value>) -> Option<u64>
where
    S::Value: Drop,
{
    value.map(|value| *S::lend_value(&value))
}

// Whether a list is put as its pairs are one by one.
fn puts_agree<R: AllocGlobal + Wait + Abort, S: Slots<u64, u64>>(rt: &R)
where
    S::Key: Drop,
    S::Value: Drop,
{
    let keys = keys_of_stripe(rt);
    let (map, plain_map) = (filled::<R, S>(rt, &keys), filled::<R, S>(rt, &keys));
    let mut pairs = Vec::new(rt.alloc());
    let mut wanted = Vec::new(rt.alloc());
    for (value, key) in listed(rt, &keys).into_iter().enumerate() {
        let value = value as u64;
        pairs.push((key, value)).expect(rt, "no list");
        let before = plain_map.put(rt, key, value).expect(rt, "not put");
        wanted.push(number::<S>(before)).expect(rt, "no list");
    }
    let Ok(before) = map.put_many(rt, pairs) else {
        rt.panic("not put")
    };
    for (found, wanted) in before.into_iter().zip(wanted) {
        assert_is(rt, number::<S>(found), wanted);
    }
    assert_is(rt, map.len(rt), plain_map.len(rt));
}

// Whether the keys of a list are removed as one by one.
fn removals_agree<R: AllocGlobal + Wait + Abort, S: Slots<u64, u64>>(rt: &R)
where
    S::Key: Drop,
    S::Value: Drop,
{
    let keys = keys_of_stripe(rt);
    let (map, plain_map) = (filled::<R, S>(rt, &keys), filled::<R, S>(rt, &keys));
    let list = listed(rt, &keys);
    let mut sought = Vec::new(rt.alloc());
    let mut wanted = Vec::new(rt.alloc());
    for key in &list {
        sought.push(key).expect(rt, "no list");
        let before = plain_map.remove(rt, key).expect(rt, "not removed");
        wanted.push(number::<S>(before)).expect(rt, "no list");
    }
    let Ok(before) = map.remove_many(rt, &sought) else {
        rt.panic("not removed")
    };
    for (found, wanted) in before.into_iter().zip(wanted) {
        assert_is(rt, number::<S>(found), wanted);
    }
    assert_is(rt, map.len(rt), plain_map.len(rt));
}

#[test]
fn a_list_is_put_into_a_large_stripe(rt: HostRuntime) {
    puts_agree::<_, Shared>(&rt);
    puts_agree::<_, InPlace>(&rt);
}

#[test]
fn a_list_is_removed_from_a_large_stripe(rt: HostRuntime) {
    removals_agree::<_, Shared>(&rt);
    removals_agree::<_, InPlace>(&rt);
}
