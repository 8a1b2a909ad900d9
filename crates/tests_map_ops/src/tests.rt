//! What maps of a few pairs answer, by hand, and many calls beside plain sorted lists.
mod beside_list;
mod conditions;
mod nodes;
mod operations;
mod sets;
mod stamps;
mod texts;
mod views;

use generation::Source;
use hash_path::PathKey;
use keys::ByteText;
use std::alloc::Global;
use std::fmt::Debug;
use std::panic::Expect;
use std::process::Abort;
use std::sync::Arc;
use test_keys::ChosenKey;
use trie_node::Stamp;
use versions::{MOST_PAIRS, NoMemory, Refusal, Version};

// A map from texts.
type Texts = Version<ByteText, i64>;

// A map from keys whose path words are chosen.
type Chosen = Version<ChosenKey, i64>;

// A key of the bytes of a text. Where a step fails that has to be granted, its test ends: no test has an early return,
// which would have to drop all that the test owns.
fn text(rt: &impl Abort, alloc: Global, text: &str) -> Arc<ByteText> {
    let bytes = ByteText::from_text(alloc, text).expect(rt, "no text");
    Arc::new(alloc, bytes).expect(rt, "no key")
}

// A shared value.
fn shared(rt: &impl Abort, alloc: Global, value: i64) -> Arc<i64> {
    Arc::new(alloc, value).expect(rt, "no value")
}

// A key with this path word.
fn chosen(path: u64, id: u32) -> ChosenKey {
    ChosenKey { path, id }
}

// The value of the key, or none.
fn value_of<K: PathKey + Drop>(version: &Version<K, i64>, key: &K) -> Option<i64> {
    match version.get(key) {
        Some(value) => Some(**value),
        None => None,
    }
}

// The value of the text, or none.
fn at_text(rt: &impl Abort, alloc: Global, version: &Texts, at: &str) -> Option<i64> {
    value_of(version, &*text(rt, alloc, at))
}

// What a shared value is.
fn plainly(value: Option<Arc<i64>>) -> Option<i64> {
    match value {
        Some(value) => Some(*value),
        None => None,
    }
}

// Maps the key to the value, and returns the value before, or none.
fn put<K: PathKey + Drop>(
    rt: &impl Abort,
    alloc: Global,
    version: &mut Version<K, i64>,
    key: K,
    value: i64,
) -> Result<Option<i64>, Refusal> {
    let key = Arc::new(alloc, key).expect(rt, "no key");
    let value = shared(rt, alloc, value);
    Ok(plainly(version.put(alloc, key, value)?))
}

// Maps the text to the value, and returns the value before, or none.
fn put_text(
    rt: &impl Abort,
    alloc: Global,
    version: &mut Texts,
    at: &str,
    value: i64,
) -> Result<Option<i64>, Refusal> {
    let key = text(rt, alloc, at);
    let value = shared(rt, alloc, value);
    Ok(plainly(version.put(alloc, key, value)?))
}

// Removes the key, and returns the value before, or none.
fn remove<K: PathKey + Drop>(
    rt: &impl Abort,
    alloc: Global,
    version: &mut Version<K, i64>,
    key: &K,
) -> Option<i64> {
    plainly(version.remove(alloc, key).expect(rt, "not removed"))
}

// Removes all pairs.
fn clear(alloc: Global, version: &mut Texts) -> Result<(), NoMemory> {
    version.clear(alloc)
}

// A fork of the version.
fn fork<K: PathKey + Drop>(
    rt: &impl Abort,
    version: &mut Version<K, i64>,
    source: &mut Source,
) -> Version<K, i64> {
    assert!(rt; version.stamp().0 <= source.issued());
    assert!(rt; source.issued() < 1_000_000);
    version.fork(source).expect(rt, "no fork")
}

// A version that maps a to 1, b to 2 and c to 3.
fn of_three(rt: &impl Abort, alloc: Global, stamp: Stamp) -> Texts {
    let mut version = empty_at(rt, alloc, 10, stamp);
    for (at, value) in [("a", 1), ("b", 2), ("c", 3)] {
        assert_put(rt, alloc, &mut version, (at, value), Ok(None));
    }
    version
}

// The version of three pairs, and the source of its stamp.
fn started(rt: &impl Abort, alloc: Global) -> (Texts, Source) {
    let mut source = Source::new();
    let version = of_three(rt, alloc, next(rt, &mut source));
    (version, source)
}

// A version with no pairs, this limit and this stamp. No check of the crate proves what a call asks for, so it is asserted
// here.
fn empty_at<K: PathKey + Drop>(
    rt: &impl Abort,
    alloc: Global,
    limit: u64,
    stamp: Stamp,
) -> Version<K, i64> {
    assert!(rt; 1 <= limit && limit <= MOST_PAIRS);
    Version::empty(alloc, limit, stamp).expect(rt, "no map")
}

// The same with the stamp 1.
fn empty<K: PathKey + Drop>(rt: &impl Abort, alloc: Global, limit: u64) -> Version<K, i64> {
    empty_at(rt, alloc, limit, Stamp(1))
}

// The next stamp.
fn next(rt: &impl Abort, source: &mut Source) -> Stamp {
    assert!(rt; source.issued() < 1 << 63);
    source.next()
}

// Whether the key is there.
fn has<K: PathKey + Drop>(version: &Version<K, i64>, key: &K) -> bool {
    version.contains_key(key)
}

// Whether there are no pairs.
fn is_empty(version: &Texts) -> bool {
    version.is_empty()
}

// The limit and the stamp.
fn limit_and_stamp(version: &Texts) -> (u64, Stamp) {
    (version.limit(), version.stamp())
}

// How many pairs there are.
fn len<K: PathKey + Drop>(version: &Version<K, i64>) -> u64 {
    version.len()
}

// How many nodes have the version's stamp.
fn own<K: PathKey + Drop>(version: &Version<K, i64>) -> u64 {
    version.own_nodes()
}

// What is seen is what is wanted. An assertion is proved wherever it is written out, so it stands here once, and
// below for the types that most tests compare.
fn assert_is<T: PartialEq + Debug + Drop>(rt: &impl Abort, seen: T, want: T) {
    assert_eq!(rt; seen, want);
}

// How many pairs there are, and how many nodes have the version's stamp.
fn sizes<K: PathKey + Drop>(version: &Version<K, i64>) -> (u64, u64) {
    (version.len(), version.own_nodes())
}

// How many pairs there are, and how many nodes have the version's stamp.
fn assert_sizes<K: PathKey + Drop>(rt: &impl Abort, version: &Version<K, i64>, want: (u64, u64)) {
    assert_is(rt, (version.len(), version.own_nodes()), want);
}

// How many nodes have the version's stamp.
fn assert_own<K: PathKey + Drop>(rt: &impl Abort, version: &Version<K, i64>, want: u64) {
    assert_is(rt, version.own_nodes(), want);
}

// The value of the key, or none, and whether it is there.
fn assert_value(rt: &impl Abort, version: &Chosen, key: ChosenKey, want: Option<i64>) {
    assert_is(rt, value_of(version, &key), want);
    assert_is(rt, has(version, &key), want.is_some());
}

// What a put of the key is answered: the value before, or none.
fn assert_before(
    rt: &impl Abort,
    alloc: Global,
    version: &mut Chosen,
    (key, value): (ChosenKey, i64),
    want: Option<i64>,
) {
    assert_is(rt, put(rt, alloc, version, key, value), Ok(want));
}

// The value of the text, or none.
fn assert_text(rt: &impl Abort, alloc: Global, version: &Texts, at: &str, want: Option<i64>) {
    assert_is(rt, at_text(rt, alloc, version, at), want);
}

// What a put of the text is answered.
fn assert_put(
    rt: &impl Abort,
    alloc: Global,
    version: &mut Texts,
    (at, value): (&str, i64),
    want: Result<Option<i64>, Refusal>,
) {
    assert_is(rt, put_text(rt, alloc, version, at, value), want);
}

// What a removal of the text is answered.
fn assert_removal(
    rt: &impl Abort,
    alloc: Global,
    version: &mut Texts,
    at: &str,
    want: Option<i64>,
) {
    let key = text(rt, alloc, at);
    assert_is(rt, remove(rt, alloc, version, &*key), want);
}

#[test]
fn a_new_map_is_empty(rt: HostRuntime) {
    let alloc = rt.alloc();
    let version: Texts = empty_at(&rt, alloc, 2, Stamp(7));
    assert_is(&rt, (is_empty(&version), len(&version)), (true, 0));
    assert_is(&rt, limit_and_stamp(&version), (2, Stamp(7)));
    assert_own(&rt, &version, 1);
    assert_is(&rt, trie_node::size(version.root()), 0);
    assert_text(&rt, alloc, &version, "a", None);
}

#[test]
fn a_put_answers_the_value_before(rt: HostRuntime) {
    let alloc = rt.alloc();
    let mut version = empty(&rt, alloc, 10);
    for (path, value, before) in [
        (5, 50, None),
        (3, 30, None),
        (9, 90, None),
        (3, 31, Some(30)),
    ] {
        let pair = (chosen(path, 0), value);
        assert_before(&rt, alloc, &mut version, pair, before);
    }
    assert_is(&rt, len(&version), 3);
    for (path, value) in [(3, Some(31)), (4, None), (5, Some(50)), (9, Some(90))] {
        assert_value(&rt, &version, chosen(path, 0), value);
    }
}

#[test]
fn a_third_key_is_full_and_a_key_that_is_there_never_is(rt: HostRuntime) {
    let alloc = rt.alloc();
    let mut version = empty(&rt, alloc, 2);
    for (at, value, answer) in [
        ("a", 10, Ok(None)),
        ("b", 20, Ok(None)),
        ("c", 30, Err(Refusal::Full)),
        ("a", 11, Ok(Some(10))),
    ] {
        assert_put(&rt, alloc, &mut version, (at, value), answer);
    }
    assert_is(&rt, len(&version), 2);
    assert_text(&rt, alloc, &version, "c", None);
    assert_removal(&rt, alloc, &mut version, "b", Some(20));
    assert_put(&rt, alloc, &mut version, ("c", 30), Ok(None));
}

// A version that maps a to 1, and the source of its stamp.
fn with_one(rt: &impl Abort, alloc: Global) -> (Texts, Source) {
    let mut source = Source::new();
    let mut version = empty_at(rt, alloc, 10, next(rt, &mut source));
    assert_put(rt, alloc, &mut version, ("a", 1), Ok(None));
    (version, source)
}

#[test]
fn a_put_shows_in_no_fork(rt: HostRuntime) {
    let alloc = rt.alloc();
    let (mut first, mut source) = with_one(&rt, alloc);
    let mut second = fork(&rt, &mut first, &mut source);
    assert_put(&rt, alloc, &mut first, ("a", 9), Ok(Some(1)));
    assert_text(&rt, alloc, &second, "a", Some(1));
    let third = fork(&rt, &mut second, &mut source);
    assert_put(&rt, alloc, &mut second, ("b", 2), Ok(None));
    assert_text(&rt, alloc, &third, "a", Some(1));
    assert_text(&rt, alloc, &third, "b", None);
    assert_text(&rt, alloc, &first, "a", Some(9));
    assert_is(&rt, (third.limit(), source.issued()), (10, 5));
}
