//! Random maps of few path words, each beside its rows.

use crate::plain::PlainPair;
use std::alloc::{AllocError, Global};
use std::collections::BTreeMap;
use std::panic::Expect;
use std::process::Abort;
use std::sync::Arc;
use test_keys::{ChosenKey, PARTING_WORDS, Random, position_of};
use trie_node::Stamp;
use versions::{MOST_PAIRS, Version, View};

/// A map of the tests.
pub type Map = Version<ChosenKey, i64>;

/// How many keys a map has at most.
pub const MOST_KEYS: u32 = 300;

// The values of a map by the positions and numbers of its keys.
type Sorted = BTreeMap<(u128, u32), i64>;

/// A map of up to `MOST_KEYS` keys, and its rows in the order of a walk.
pub fn random_map(rt: &impl Abort, alloc: Global, random: &mut Random) -> (Map, Vec<PlainPair>) {
    let mut map = empty(rt, alloc);
    let mut sorted = BTreeMap::new(alloc);
    let words = random.next(16).saturating_add(1);
    for value in 0..i64::from(random.next(MOST_KEYS + 1)) {
        let word = random.next(words) as usize;
        let path = PARTING_WORDS.get(word).copied().unwrap_or(0);
        let id = random.next(MOST_KEYS);
        put(rt, alloc, &mut map, ChosenKey { path, id }, value);
        insert(rt, &mut sorted, (position_of(path), id), value);
    }
    (map, listed(rt, alloc, &sorted))
}

/// A map of a key for each of these path words, at most 2,000, and its rows in the order of a walk. Keys are numbered in
/// their order, from 0, and each has its number as its value.
pub fn map_of(rt: &impl Abort, alloc: Global, paths: &[u64]) -> (Map, Vec<PlainPair>) {
    let mut map = empty(rt, alloc);
    let mut sorted = BTreeMap::new(alloc);
    for (path, id) in paths.iter().zip(0..u32::MAX) {
        let value = i64::from(id);
        put(rt, alloc, &mut map, ChosenKey { path: *path, id }, value);
        insert(rt, &mut sorted, (position_of(*path), id), value);
    }
    (map, listed(rt, alloc, &sorted))
}

/// The empty map, which has room for 2,000 keys.
pub fn empty(rt: &impl Abort, alloc: Global) -> Map {
    assert!(rt; MOST_PAIRS >= 2_000);
    Version::empty(alloc, 2_000, Stamp(1)).expect(rt, "no map")
}

/// Puts the value at the key.
pub fn put(rt: &impl Abort, alloc: Global, map: &mut Map, key: ChosenKey, value: i64) {
    let key = Arc::new(alloc, key).expect(rt, "no key");
    let value = Arc::new(alloc, value).expect(rt, "no value");
    map.put(alloc, key, value).expect(rt, "not put");
}

/// A view of the map.
pub fn view_of(rt: &impl Abort, map: &Map) -> View<ChosenKey, i64> {
    map.view().expect(rt, "no view")
}

// Maps the place to the value.
fn insert(rt: &impl Abort, sorted: &mut Sorted, at: (u128, u32), value: i64) {
    let put: Result<_, _> = sorted.insert(at, value);
    put.expect(rt, "no room");
}

// The rows of a map, where there is memory.
fn listed(rt: &impl Abort, alloc: Global, sorted: &Sorted) -> Vec<PlainPair> {
    rows_of(alloc, sorted).expect(rt, "no list")
}

// The rows of a map.
fn rows_of(alloc: Global, sorted: &Sorted) -> Result<Vec<PlainPair>, AllocError> {
    let mut rows = Vec::new(alloc);
    for (at, value) in sorted.iter() {
        rows.push(PlainPair {
            position: at.0,
            id: at.1,
            value: *value,
        })?;
    }
    Ok(rows)
}
