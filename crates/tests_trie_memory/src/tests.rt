//! Tries with requests for memory refused, and at sizes where a limit could hide. A step that has no memory where it is
//! given some ends its test where it stands, so that no test has values to drop on the way.

mod exchanges;
mod holders;
mod in_place;
mod in_rows;
mod long_rows;
mod maps;
mod memory;
mod merged;
mod prices;
mod united;
mod words;

use std::alloc::Global;
use std::fmt::Debug;
use std::panic::Expect;
use std::process::Abort;
use std::sync::Arc;
use test_keys::ChosenKey;
use test_roots::{Line, Outline, TestRoot, lines_of};
use trie_node::{Stamp, size};

/// A trie of the tests.
type Trie = TestRoot<ChosenKey, u32>;

/// A key by its path word and a number.
fn key(path: u64, id: u32) -> ChosenKey {
    ChosenKey { path, id }
}

/// What is seen is what is wanted. An assertion is proved wherever it is written out, so it stands here once.
fn assert_is<T: PartialEq + Debug + Drop>(rt: &impl Abort, seen: T, want: T) {
    assert_eq!(rt; seen, want);
}

/// A key that is shared.
fn shared_key(rt: &impl Abort, alloc: Global, at: ChosenKey) -> Arc<ChosenKey> {
    Arc::new(alloc, at).expect(rt, "no key")
}

/// A value that is shared.
fn shared_value(rt: &impl Abort, alloc: Global, value: u32) -> Arc<u32> {
    Arc::new(alloc, value).expect(rt, "no value")
}

/// A trie with no pairs.
fn new(rt: &impl Abort, alloc: Global, stamp: u64) -> Trie {
    TestRoot::new(alloc, Stamp(stamp)).expect(rt, "no root")
}

/// Another handle on the same root.
fn copy(rt: &impl Abort, trie: &Trie) -> Trie {
    trie.try_clone().expect(rt, "no handle")
}

/// The trie with a value put at a key.
fn put(
    rt: &impl Abort,
    alloc: Global,
    trie: &Trie,
    (at, value): (ChosenKey, u32),
    stamp: u64,
) -> Trie {
    let key = shared_key(rt, alloc, at);
    let value = shared_value(rt, alloc, value);
    let written = trie.with_put(alloc, key, value, Stamp(stamp));
    written.expect(rt, "not put")
}

/// The trie without a key.
fn removed(rt: &impl Abort, alloc: Global, trie: &Trie, at: ChosenKey, stamp: u64) -> Trie {
    let written = trie.with_removed(alloc, &at, Stamp(stamp));
    written.expect(rt, "not removed")
}

/// Puts a value at a key where the trie stands.
fn put_in(
    rt: &impl Abort,
    alloc: Global,
    trie: &mut Trie,
    (at, value): (ChosenKey, u32),
    stamp: u64,
) {
    let key = shared_key(rt, alloc, at);
    let value = shared_value(rt, alloc, value);
    let answer = trie.put_in(alloc, key, value, Stamp(stamp));
    answer.expect(rt, "not put");
}

/// Removes a key where the trie stands.
fn remove_in(rt: &impl Abort, alloc: Global, trie: &mut Trie, at: ChosenKey, stamp: u64) {
    let answer = trie.remove_in(alloc, &at, Stamp(stamp));
    answer.expect(rt, "not removed");
}

/// The trie of these pairs, put in their order.
fn trie_of(rt: &impl Abort, alloc: Global, pairs: &[(ChosenKey, u32)]) -> Trie {
    let mut trie = new(rt, alloc, 1);
    for pair in pairs {
        trie = put(rt, alloc, &trie, *pair, 1);
    }
    trie
}

/// The nodes and pairs of the trie.
fn seen(rt: &impl Abort, alloc: Global, trie: &Trie) -> Outline<u32> {
    trie.outline(alloc).expect(rt, "no outline")
}

/// The value of the key, or none.
fn value_of(trie: &Trie, at: &ChosenKey) -> Option<u32> {
    match trie.find(at) {
        Some(value) => Some(**value),
        None => None,
    }
}

/// The key has this value, or none.
fn assert_value(rt: &impl Abort, trie: &Trie, at: ChosenKey, want: Option<u32>) {
    assert_is(rt, value_of(trie, &at), want);
}

/// These are the nodes.
fn assert_lines(rt: &impl Abort, seen: &[Line], want: &[Line]) {
    assert_eq!(rt; seen, want);
}

/// These are the pairs.
fn assert_pairs(rt: &impl Abort, seen: &[(ChosenKey, u32)], want: &[(ChosenKey, u32)]) {
    assert_eq!(rt; seen, want);
}

/// The trie has these pairs and the shape that they have.
fn assert_holds(rt: &impl Abort, alloc: Global, trie: &Trie, pairs: &[(ChosenKey, u32)]) {
    let seen = seen(rt, alloc, trie);
    let lines = lines_of(alloc, pairs).expect(rt, "no outline");
    assert_is(rt, size(trie.root()), pairs.len() as u64);
    assert_pairs(rt, &seen.pairs, pairs);
    assert_lines(rt, &seen.lines, &lines);
}
