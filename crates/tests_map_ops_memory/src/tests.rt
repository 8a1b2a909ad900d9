//! With requests for memory refused, what the laws on maps show, and what is read of roots.
mod laws;
mod memory;
mod owned_keys;
mod roots;

use generation::Source;
use hash_path::PathKey;
use keys::ByteText;
use std::alloc::Global;
use std::fmt::Debug;
use std::panic::Expect;
use std::process::Abort;
use std::sync::Arc;
use test_keys::ChosenKey;
use trie_node::Stamp;
use versions::{Refusal, Version};

// A map from texts.
type Texts = Version<ByteText, i64>;

// A map from keys whose path words are chosen.
type Chosen = Version<ChosenKey, i64>;

// A key of the bytes of a text. Where a step fails that has to be granted, its test ends: no test has an early return,
// which would have to drop all that the test owns.
fn text(rt: &impl Abort, alloc: Global, text: &str) -> Arc<ByteText> {
    let bytes = ByteText::from_text(alloc, text).expect(rt, "no text");
    Arc::new(alloc, bytes).expect(rt, "no key")
}

// A shared value.
fn shared(rt: &impl Abort, alloc: Global, value: i64) -> Arc<i64> {
    Arc::new(alloc, value).expect(rt, "no value")
}

// A key with this path word.
fn chosen(path: u64, id: u32) -> ChosenKey {
    ChosenKey { path, id }
}

// The value of the key, or none.
fn value_of<K: PathKey + Drop>(version: &Version<K, i64>, key: &K) -> Option<i64> {
    match version.get(key) {
        Some(value) => Some(**value),
        None => None,
    }
}

// The value of the text, or none.
fn at_text(rt: &impl Abort, alloc: Global, version: &Texts, at: &str) -> Option<i64> {
    value_of(version, &*text(rt, alloc, at))
}

// What a shared value is.
fn plainly(value: Option<Arc<i64>>) -> Option<i64> {
    match value {
        Some(value) => Some(*value),
        None => None,
    }
}

// Maps the key to the value, and returns the value before, or none.
fn put<K: PathKey + Drop>(
    rt: &impl Abort,
    alloc: Global,
    version: &mut Version<K, i64>,
    key: K,
    value: i64,
) -> Result<Option<i64>, Refusal> {
    let key = Arc::new(alloc, key).expect(rt, "no key");
    let value = shared(rt, alloc, value);
    Ok(plainly(version.put(alloc, key, value)?))
}

// Maps the text to the value, and returns the value before, or none.
fn put_text(
    rt: &impl Abort,
    alloc: Global,
    version: &mut Texts,
    at: &str,
    value: i64,
) -> Result<Option<i64>, Refusal> {
    let key = text(rt, alloc, at);
    let value = shared(rt, alloc, value);
    Ok(plainly(version.put(alloc, key, value)?))
}

// A fork of the version.
fn fork<K: PathKey + Drop>(
    rt: &impl Abort,
    version: &mut Version<K, i64>,
    source: &mut Source,
) -> Version<K, i64> {
    assert!(rt; version.stamp().0 <= source.issued());
    assert!(rt; source.issued() < 1_000_000);
    version.fork(source).expect(rt, "no fork")
}

// A version that maps a to 1, b to 2 and c to 3.
fn of_three(rt: &impl Abort, alloc: Global, stamp: Stamp) -> Texts {
    let mut version = Version::empty(alloc, 10, stamp).expect(rt, "no map");
    for (at, value) in [("a", 1), ("b", 2), ("c", 3)] {
        assert_put(rt, alloc, &mut version, (at, value), Ok(None));
    }
    version
}

// The version of three pairs, and the source of its stamp.
fn started(rt: &impl Abort, alloc: Global) -> (Texts, Source) {
    let mut source = Source::new();
    let version = of_three(rt, alloc, source.next());
    (version, source)
}

// A version with no pairs, the stamp 1 and this limit.
fn empty<K: PathKey + Drop>(rt: &impl Abort, alloc: Global, limit: u64) -> Version<K, i64> {
    assert!(rt; 1 <= limit && limit <= 1000);
    Version::empty(alloc, limit, Stamp(1)).expect(rt, "no map")
}

// How many pairs there are.
fn len<K: PathKey + Drop>(version: &Version<K, i64>) -> u64 {
    version.len()
}

// What is seen is what is wanted. An assertion is proved wherever it is written out, so it stands here once, and
// below for the types that most tests compare.
fn assert_is<T: PartialEq + Debug + Drop>(rt: &impl Abort, seen: T, want: T) {
    assert_eq!(rt; seen, want);
}

// How many pairs there are, and how many nodes have the version's stamp.
fn sizes<K: PathKey + Drop>(version: &Version<K, i64>) -> (u64, u64) {
    (version.len(), version.own_nodes())
}

// How many pairs there are, and how many nodes have the version's stamp.
fn assert_sizes<K: PathKey + Drop>(rt: &impl Abort, version: &Version<K, i64>, want: (u64, u64)) {
    assert_is(rt, (version.len(), version.own_nodes()), want);
}

// How many nodes have the version's stamp.
fn assert_own<K: PathKey + Drop>(rt: &impl Abort, version: &Version<K, i64>, want: u64) {
    assert_is(rt, version.own_nodes(), want);
}

// The value of the text, or none.
fn assert_text(rt: &impl Abort, alloc: Global, version: &Texts, at: &str, want: Option<i64>) {
    assert_is(rt, at_text(rt, alloc, version, at), want);
}

// What a put of the text is answered.
fn assert_put(
    rt: &impl Abort,
    alloc: Global,
    version: &mut Texts,
    (at, value): (&str, i64),
    want: Result<Option<i64>, Refusal>,
) {
    assert_is(rt, put_text(rt, alloc, version, at, value), want);
}

// The value of the key, or none, and whether it is there.
fn assert_value(rt: &impl Abort, version: &Chosen, key: ChosenKey, want: Option<i64>) {
    assert_is(rt, value_of(version, &key), want);
    assert_is(rt, version.contains_key(&key), want.is_some());
}
