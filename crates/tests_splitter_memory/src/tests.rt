//! Maps of chosen path words, for tests with requests for memory refused.
mod bunches;
mod roots;
mod walks;

use std::alloc::{AllocError, Global};
use std::panic::Expect;
use std::process::Abort;
use std::sync::Arc;
use test_keys::ChosenKey;
use trie_node::Stamp;
use versions::{Version, View};

// A map of the tests.
type Map = Version<ChosenKey, i64>;

// A map of a key for each of these path words, at most 2,000. Keys are numbered in their order, from 0, and each has its
// number as its value.
fn map_of(rt: &impl Abort, alloc: Global, paths: &[u64]) -> Map {
    let mut map = Version::empty(alloc, 2_000, Stamp(1)).expect(rt, "no map");
    for (path, id) in paths.iter().zip(0..u32::MAX) {
        let key = Arc::new(alloc, ChosenKey { path: *path, id }).expect(rt, "no key");
        let value = Arc::new(alloc, i64::from(id)).expect(rt, "no value");
        map.put(alloc, key, value).expect(rt, "not put");
    }
    map
}

// A view of the map.
fn view_of(rt: &impl Abort, map: &Map) -> View<ChosenKey, i64> {
    map.view().expect(rt, "no view")
}

// The path words, `times` times.
fn repeated(alloc: Global, words: &[u64], times: usize) -> Result<Vec<u64>, AllocError> {
    let mut all = Vec::new(alloc);
    for _ in 0..times {
        all.extend_from_slice(words)?;
    }
    Ok(all)
}

// The number of a pair's key.
fn number_of(pair: Option<(&Arc<ChosenKey>, &Arc<i64>)>) -> Option<u32> {
    let (key, _) = pair?;
    Some(key.id)
}
