//! Maps as versions, whose roots are looked up, get new values or are filtered with requests for memory refused.

use super::assert_is;
use std::alloc::{AllocError, Global};
use std::process::Abort;
use std::sync::Arc;
use std::test::Fail;
use test_keys::{ChosenKey, Shortage};
use test_maps::{changed, found_in, outline_of_map, passing};
use trie_node::{NoMemory, Stamp};
use versions::{Refusal, Version};

// A map of the tests.
type Map = Version<ChosenKey, u32>;

// The stamp of the nodes that are made.
const NEW: Stamp = Stamp(7);

// Seven keys by their words and numbers. The first three share their words' lowest digit, and two of them the next one
// too. The fourth's leaf stands right below the root, and so does a bucket of the last three, which have one word.
const KEYS: [(u64, u32); 7] = [(1, 0), (65, 1), (3137, 2), (7, 3), (9, 4), (9, 5), (9, 6)];

// The root and two branches, four leaves and the bucket.
const NODES: u64 = 8;

// The key of a word and a number.
fn key_at(at: (u64, u32)) -> ChosenKey {
    ChosenKey {
        path: at.0,
        id: at.1,
    }
}

// The seven keys, each mapped to its number.
fn seven(alloc: Global) -> Result<Map, Refusal> {
    let mut map = Version::empty(alloc, 10, Stamp(1))?;
    for at in KEYS {
        map.put(alloc, Arc::new(alloc, key_at(at))?, Arc::new(alloc, at.1)?)?;
    }
    Ok(map)
}

// Whether a look-up of the keys ends with `bytes` bytes of memory left.
fn ends(alloc: Global, map: &Map, keys: &[&ChosenKey], bytes: usize) -> Result<bool, AllocError> {
    let mut shortage = Shortage::new(alloc)?;
    shortage.give(alloc, bytes)?;
    Ok(found_in(alloc, map, keys).is_ok())
}

// The values of the keys, in the order of the keys.
fn values_at(alloc: Global, map: &Map, keys: &[&ChosenKey]) -> Result<Vec<Option<u32>>, NoMemory> {
    let mut values = Vec::with_capacity(alloc, keys.len())?;
    for value in found_in(alloc, map, keys)? {
        values.push(match value {
            Some(value) => Some(**value),
            None => None,
        })?;
    }
    Ok(values)
}

// The list is one request, and there is no other; a list of no key makes none.
#[test]
fn a_refused_list_is_an_error(rt: HostRuntime) -> Result<(), Fail> {
    let alloc = rt.alloc();
    let map = seven(alloc)?;
    let (first, last) = (key_at(KEYS[0]), key_at(KEYS[6]));
    assert_is(&rt, ends(alloc, &map, &[], 0)?, true);
    assert_is(&rt, ends(alloc, &map, &[&first, &last], 0)?, false);
    assert_is(&rt, ends(alloc, &map, &[&first, &last], 4096)?, true);
    let values = values_at(alloc, &map, &[&first, &last])?;
    assert_is(
        &rt,
        values.as_slice() == [Some(0), Some(6)].as_slice(),
        true,
    );
    Ok(())
}

// How often the map with new values is refused because memory runs out, where each time there are 16 bytes more.
fn changes_refused(alloc: Global, map: &Map) -> Result<(u32, Option<Map>), Fail> {
    let mut shortage = Shortage::new(alloc)?;
    let mut refused = 0u32;
    for _ in 0..200 {
        if let Ok(made) = changed(
            alloc,
            map,
            NEW,
            &|_: &ChosenKey, value: &u32| value.wrapping_mul(2),
        ) {
            return Ok((refused, Some(made)));
        }
        refused = refused.wrapping_add(1);
        shortage.give(alloc, 16)?;
    }
    Ok((refused, None))
}

// It makes 15 requests: for seven values, for three branches and their children, and for a bucket and its pairs.
#[test]
fn refused_values_leave_the_map(rt: HostRuntime) -> Result<(), Fail> {
    let alloc = rt.alloc();
    let map = seven(alloc)?;
    let before = outline_of_map(alloc, &map)?;
    let (refused, made) = changes_refused(alloc, &map)?;
    assert_is(&rt, refused > 14, true);
    assert_is(
        &rt,
        made.is_some_and(|made| (made.len(), made.own_nodes()) == (7, NODES)),
        true,
    );
    assert_is(&rt, outline_of_map(alloc, &map)?, before);
    Ok(())
}

// How often the map of all its pairs is refused because memory runs out, where each time there are 16 bytes more.
fn filters_refused(alloc: Global, map: &Map) -> Result<(u32, Option<Map>), Fail> {
    let mut shortage = Shortage::new(alloc)?;
    let mut refused = 0u32;
    for _ in 0..200 {
        if let Ok(left) = passing(alloc, map, NEW, &|_: &ChosenKey, value: &u32| *value < 7) {
            return Ok((refused, Some(left)));
        }
        refused = refused.wrapping_add(1);
        shortage.give(alloc, 16)?;
    }
    Ok((refused, None))
}

// Three branches and their children are made, and a bucket and its pairs: eight requests.
#[test]
fn refused_filters_leave_the_map(rt: HostRuntime) -> Result<(), Fail> {
    let alloc = rt.alloc();
    let map = seven(alloc)?;
    let before = outline_of_map(alloc, &map)?;
    let (refused, left) = filters_refused(alloc, &map)?;
    assert_is(&rt, refused > 7, true);
    assert_is(
        &rt,
        left.is_some_and(|left| left.own_nodes() == NODES),
        true,
    );
    assert_is(&rt, outline_of_map(alloc, &map)?, before);
    Ok(())
}
