//! What the calls answer, by hand and by several threads at once.
mod ahead;
mod asked;
mod bounded;
mod calls;
mod clears;
mod crew_made;
mod crews;
mod drops;
mod equality;
mod exchanged;
mod filled;
mod groups;
mod hot_keys;
mod in_rows;
mod let_go;
mod listed;
mod made;
mod many;
mod many_written;
mod once;
mod races;
mod ranks;
mod reads;
mod reentry;
mod released;
mod restored;
mod retained;
mod sessions;
mod sets;
mod texts;
mod together;
mod two_readers;
mod updates;
mod walks;

use std::fmt::Debug;
use std::process::Abort;
use std::sync::{Arc, Wait};
use test_keys::ChosenKey;
use trie_map::{Anything, TrieMap, View};

// A map of the tests.
type Map = TrieMap<ChosenKey, u64>;

// A view of such a map.
type Seen = View<ChosenKey, u64, Anything>;

// A key whose word has this first digit, among others with the same.
fn key(digit: u32, id: u32) -> ChosenKey {
    ChosenKey {
        path: u64::from(digit),
        id,
    }
}

// What a shared value is.
fn plain(value: Option<Arc<u64>>) -> Option<u64> {
    value.map(|value| *value)
}

// What is seen is what is wanted. An assertion is proved wherever it is written out, so it stands here once.
fn assert_is<T: PartialEq + Debug + Drop>(rt: &impl Abort, seen: T, want: T) {
    assert_eq!(rt; seen, want);
}

// A map with no pairs. Where a step fails that has to be granted, its test ends: no test has an early return, which
// would have to drop all that the test owns.
fn empty<R: AllocGlobal + Abort>(rt: &R) -> Map {
    TrieMap::new(rt).expect(rt, "no map")
}

fn put<R: Wait + Abort>(rt: &R, map: &Map, key: ChosenKey, value: u64) {
    map.put(rt, key, value).expect(rt, "not put");
}

// The value of the key, or none.
fn at<R: Wait + Abort>(rt: &R, map: &Map, key: ChosenKey) -> Option<u64> {
    plain(map.get(rt, &key).expect(rt, "not read"))
}

fn view_of<R: Wait + Abort>(rt: &R, map: &Map) -> Seen {
    map.view(rt).expect(rt, "no view")
}

fn snapshot_of<R: Wait + Abort>(rt: &R, map: &Map) -> Map {
    map.snapshot(rt).expect(rt, "no snapshot")
}
