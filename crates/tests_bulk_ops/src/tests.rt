//! What a small map answers, by hand. Its keys have chosen path words; its values are at the ends of `i64`.

mod combining;
mod growing;
mod images;
mod laws;
mod memory;
mod pieces;
mod stopping;
mod sums;

use bulk_ops::{NoImages, PairFn, Part, Query, Stored, StoredItem, StoredMap, StoredTest};
use bulk_work::{Answer, Asks, Pair, ask};
use combiner::{Both, Bulk, Greatest, Least, Sum};
use pieces::joined;
use std::alloc::Global;
use std::fmt::Debug;
use std::panic::Expect;
use std::process::Abort;
use std::sync::Arc;
use test_keys::ChosenKey;
use trie_node::Stamp;
use versions::{Version, View};

// A map of the tests.
type Map = Version<ChosenKey, i64>;

// Keys with numbers below one pass.
#[derive(Drop)]
struct IdsBelow(u32);

impl PairFn<ChosenKey, i64, bool> for IdsBelow {
    ghost use Rattle.std.specs.Prelude.{◌≡◌, nat_lt};

    ghost can = { λ t. Unit {0} };

    ghost gives = { λ t k v r. r ≡ nat_lt k.id t.0 };

    fn answer(&self, key: &ChosenKey, _value: &i64) -> bool {
        key.id < self.0
    }
}

// One new value for all keys.
#[derive(Drop)]
struct OneValue(u32);

impl PairFn<ChosenKey, i64, i64> for OneValue {
    ghost use Rattle.std.specs.Prelude.{◌≡◌, pos};

    ghost can = { λ t. Unit {0} };

    ghost gives = { λ t k v r. r ≡ pos t.0 };

    fn answer(&self, _key: &ChosenKey, _value: &i64) -> i64 {
        i64::from(self.0)
    }
}

// The sum, the least and the greatest of all values.
type Three = Both<Sum, Both<Least, Greatest>>;

type ThreeItems = (i128, (Option<i64>, Option<i64>));

// Those of all three pairs.
const SUMS: ThreeItems = (9_223_372_036_854_775_806, (Some(i64::MIN), Some(i64::MAX)));

// The value, for each of the three.
#[derive(Drop)]
struct EachValue;

impl PairFn<ChosenKey, i64, ThreeItems> for EachValue {
    ghost use Rattle.std.specs.Prelude.{◌≡◌, Some};

    ghost can = { λ t. Unit {0} };

    ghost gives = { λ t k v r. r ≡ (v, (Some v, Some v)) };

    fn answer(&self, _key: &ChosenKey, value: &i64) -> ThreeItems {
        (i128::from(*value), (Some(*value), Some(*value)))
    }
}

type Asked = Query<ChosenKey, i64, IdsBelow, OneValue, Three, EachValue, NoImages>;

fn below(id: u32) -> StoredTest<ChosenKey, i64, IdsBelow> {
    Stored::new(IdsBelow(id))
}

fn instead(value: u32) -> StoredMap<ChosenKey, i64, OneValue> {
    Stored::new(OneValue(value))
}

fn values() -> StoredItem<ChosenKey, i64, ThreeItems, EachValue> {
    Stored::new(EachValue)
}

fn chosen(path: u64, id: u32) -> ChosenKey {
    ChosenKey { path, id }
}

// The empty map, which has room for 100 pairs.
fn empty(rt: &impl Abort, alloc: Global) -> Map {
    Version::empty(alloc, 100, Stamp(1)).expect(rt, "no map")
}

// Puts the value at the key.
fn put(rt: &impl Abort, alloc: Global, map: &mut Map, key: ChosenKey, value: i64) {
    let key = Arc::new(alloc, key).expect(rt, "no key");
    let value = Arc::new(alloc, value).expect(rt, "no value");
    map.put(alloc, key, value).expect(rt, "not put");
}

// A map of these pairs.
fn map_of(rt: &impl Abort, alloc: Global, pairs: &[(ChosenKey, i64)]) -> Map {
    let mut map = empty(rt, alloc);
    for (key, value) in pairs {
        put(rt, alloc, &mut map, *key, *value);
    }
    map
}

// The first pairs of three: key 2 at position 0 and key 3 at position 12 have the greatest value, key 1 at position 2^59
// has the least.
fn first(rt: &impl Abort, alloc: Global, number: usize) -> View<ChosenKey, i64> {
    let mut map = empty(rt, alloc);
    let pairs = [
        (chosen(0, 2), i64::MAX),
        (chosen(0xc000_0000_0000_0000, 3), i64::MAX),
        (chosen(1, 1), i64::MIN),
    ];
    for (key, value) in pairs.into_iter().take(number) {
        put(rt, alloc, &mut map, key, value);
    }
    map.view().expect(rt, "no view")
}

// `count` pairs, at most 2,000, numbered from 0. Every second has the path word 7, so that half of them share a bucket.
fn many(rt: &impl Abort, alloc: Global, count: u32) -> View<ChosenKey, i64> {
    let mut map: Map = Version::empty(alloc, 2_000, Stamp(1)).expect(rt, "no map");
    for id in 0..count {
        let path = if id % 2 == 0 {
            7
        } else {
            u64::from(id).wrapping_mul(0x9e37_79b9_7f4a_7c15)
        };
        put(rt, alloc, &mut map, chosen(path, id), i64::from(id));
    }
    map.view().expect(rt, "no view")
}

// What a map has at the three keys.
type Contents = (Option<i64>, Option<i64>, Option<i64>);

// What the map has at the three keys.
fn at_three(made: &Map) -> Contents {
    (
        at(made, chosen(0, 2)),
        at(made, chosen(0xc000_0000_0000_0000, 3)),
        at(made, chosen(1, 1)),
    )
}

fn at(made: &Map, key: ChosenKey) -> Option<i64> {
    match made.get(&key) {
        Some(value) => Some(**value),
        None => None,
    }
}

// An answer or a part, as plain values: of a map, how many pairs it has and what it has at the three keys; of a pair
// that was found, the number of its key and its value.
#[derive(Clone, Copy, Drop, PartialEq, Eq)]
enum Plain {
    Number(u64),
    Truth(bool),
    Found(Option<(u32, i64)>),
    Made(u64, Contents),
    Item(ThreeItems),
}

// The answer as a plain value, with the contents of the map that is made where there is one.
fn plain_answer(
    rt: &impl Abort,
    answer: &Answer<ChosenKey, i64, ThreeItems>,
    made: &Option<Map>,
) -> Plain {
    match answer {
        Answer::Count(number) => Plain::Number(*number),
        Answer::Truth(truth) => Plain::Truth(*truth),
        Answer::Found(found) => Plain::Found(plainly(found)),
        Answer::Made(number) => Plain::Made(*number, contents(rt, made)),
        Answer::Item(item) => Plain::Item(*item),
        Answer::Images(_) => panic!(rt; "images that were not asked for"),
    }
}

// The same of a part.
fn plain_of(rt: &impl Abort, part: &Part<ChosenKey, i64, ThreeItems>) -> Plain {
    match part {
        Part::Number(number) => Plain::Number(*number),
        Part::Truth(truth) => Plain::Truth(*truth),
        Part::Found(found) => Plain::Found(plainly(found)),
        Part::Made(map) => Plain::Made(map.len(), at_three(map)),
        Part::Item(item) => Plain::Item(*item),
        Part::Images(_, _) => panic!(rt; "images that were not asked for"),
    }
}

// The key and the value of a pair that was found, if one was.
fn plainly(found: &Option<Pair<ChosenKey, i64>>) -> Option<(u32, i64)> {
    match found {
        Some((key, value)) => Some((key.id, **value)),
        None => None,
    }
}

// What the map that is made has at the three keys.
fn contents(rt: &impl Abort, made: &Option<Map>) -> Contents {
    match made {
        Some(map) => at_three(map),
        None => panic!(rt; "no map is made"),
    }
}

// The answer to the query about the first `number` of the three pairs. A map is made where there is a handle for it.
fn plain_of_first(rt: &impl Abort, alloc: Global, number: usize, query: &Asked) -> Plain
    requires { ⟦<Asked as Bulk<ChosenKey, i64>>⟧.ready query.now }
{
    let view = first(rt, alloc, number);
    let (answer, made) = ask(alloc, view, query).expect(rt, "no answer");
    assert_eq!(rt; made.is_some(), query.target().is_some());
    plain_answer(rt, &answer, &made)
}

// The answer to it about the two pieces of a cut.
fn plain_of_two(rt: &impl Abort, alloc: Global, query: &Asked) -> Plain
    requires { ⟦<Asked as Bulk<ChosenKey, i64>>⟧.ready query.now }
{
    let view = first(rt, alloc, 3);
    plain_of(rt, &joined(rt, alloc, view, query))
}

// What is seen is what is wanted. An assertion is proved wherever it is written out, so it stands here once.
fn assert_is<T: PartialEq + Debug + Drop>(rt: &impl Abort, seen: T, want: T) {
    assert_eq!(rt; seen, want);
}

// The answer is this one.
fn assert_plain(rt: &impl Abort, seen: Option<Plain>, want: Plain) {
    assert!(rt; seen == Some(want));
}

// The query has this answer about all three pairs, about the two pieces of a cut, and about one of them that grew by
// the other.
fn assert_tells(rt: &impl Abort, alloc: Global, query: &Asked, want: Plain)
    requires { ⟦<Asked as Bulk<ChosenKey, i64>>⟧.ready query.now }
{
    assert_plain(rt, Some(plain_of_first(rt, alloc, 3, query)), want);
    assert_plain(rt, Some(plain_of_two(rt, alloc, query)), want);
    assert_plain(rt, Some(growing::plain_of_grown(rt, alloc, query)), want);
}

// Of three pairs, those with keys below a number: how many there are, whether there are some, whether they are all.
#[test]
fn numbers_and_truths(rt: HostRuntime) {
    let alloc = rt.alloc();
    let table = [
        (1, 0, false, false),
        (2, 1, true, false),
        (3, 2, true, false),
        (4, 3, true, true),
    ];
    for (id, count, exists, for_all) in table {
        assert_tells(&rt, alloc, &Asked::Count(below(id)), Plain::Number(count));
        assert_tells(&rt, alloc, &Asked::Exists(below(id)), Plain::Truth(exists));
        assert_tells(&rt, alloc, &Asked::ForAll(below(id)), Plain::Truth(for_all));
    }
}

#[test]
fn no_pairs_pass_all_and_none(rt: HostRuntime) {
    let alloc = rt.alloc();
    let all = plain_of_first(&rt, alloc, 0, &Asked::ForAll(below(0)));
    assert_plain(&rt, Some(all), Plain::Truth(true));
    let some = plain_of_first(&rt, alloc, 0, &Asked::Exists(below(4)));
    assert_plain(&rt, Some(some), Plain::Truth(false));
}

// Key 1 alone passes below 2, in the upper piece; no key passes below 1.
#[test]
fn pairs_that_pass(rt: HostRuntime) {
    let alloc = rt.alloc();
    for (id, want) in [(1, None), (2, Some((1, i64::MIN)))] {
        assert_tells(&rt, alloc, &Asked::Find(below(id)), Plain::Found(want));
    }
}

#[test]
fn maps_that_are_made(rt: HostRuntime) {
    let alloc = rt.alloc();
    let two = (Some(i64::MAX), None, Some(i64::MIN));
    assert_tells(&rt, alloc, &Asked::Filter(below(3), 9), Plain::Made(2, two));
    let three = (Some(4), Some(4), Some(4));
    assert_tells(
        &rt,
        alloc,
        &Asked::MapValues(instead(4), 9),
        Plain::Made(3, three),
    );
}

#[test]
fn sums_and_extremes(rt: HostRuntime) {
    let alloc = rt.alloc();
    let query = Asked::Fold(Both(Sum, Both(Least, Greatest)), values());
    let table = [
        (0, (0, (None, None))),
        (
            2,
            (18_446_744_073_709_551_614, (Some(i64::MAX), Some(i64::MAX))),
        ),
        (3, SUMS),
    ];
    for (number, want) in table {
        let seen = plain_of_first(&rt, alloc, number, &query);
        assert_plain(&rt, Some(seen), Plain::Item(want));
    }
    assert_tells(&rt, alloc, &query, Plain::Item(SUMS));
}
