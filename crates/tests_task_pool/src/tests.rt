//! What crews answer of maps with chosen path words, and which intervals they report.
mod attendance;
mod gates;
mod many;
mod memory;
mod pieces;
mod refusals;
mod rows;

ghost use Rattle.std.specs.Prelude.{◌≤◌};

use bulk_ops::{NoImages, PairFn, Part, Query, Stored, StoredTest};
use combiner::Sum;
use iter::Interval;
use std::alloc::Global;
use std::fmt::Debug;
use std::panic::Expect;
use std::process::Abort;
use std::sync::{Arc, Wait};
use std::thread::Threads;
use task_pool::{Crew, Gate, Report, run_crew};
use test_keys::ChosenKey;
use test_queries::{Values, Zero};
use trie_node::{NoMemory, Stamp};
use versions::{MOST_PAIRS, Version, View};

// A map of the tests.
type Map = Version<ChosenKey, u64>;

// A view of such a map.
type Seen = View<ChosenKey, u64>;

// What is asked of it.
type Asked = Query<ChosenKey, u64, IsValue, Zero, Sum, Values, NoImages>;

// Pairs of one value pass, or where there is none, all pairs.
#[derive(Drop)]
struct IsValue(Option<u64>);

impl PairFn<ChosenKey, u64, bool> for IsValue {
    ghost use Rattle.std.specs.Prelude.{◌≡◌};
    ghost use Rattle.tests_task_pool.specs.Passing.{passes};

    ghost can = { λ t. Unit {0} };

    ghost gives = { λ t k v r. r ≡ passes t.0 v };

    fn answer(&self, _key: &ChosenKey, value: &u64) -> bool {
        match self.0 {
            Some(wanted) => *value == wanted,
            None => true,
        }
    }
}

// The test that all pairs pass.
fn all() -> StoredTest<ChosenKey, u64, IsValue> {
    Stored::new(IsValue(None))
}

// The test that the pairs with one value pass.
fn equal(value: u64) -> StoredTest<ChosenKey, u64, IsValue> {
    Stored::new(IsValue(Some(value)))
}

// A map of `pairs` pairs: their values and the numbers of their keys count up from 0, and so do their words, or all
// have one word.
fn filled(rt: &impl Abort, alloc: Global, pairs: u32, one_word: bool) -> Map {
    let mut map = Version::empty(alloc, MOST_PAIRS, Stamp::LOOSE).expect(rt, "no map");
    for id in 0..pairs {
        let path = if one_word { 7 } else { u64::from(id) };
        put(rt, alloc, &mut map, ChosenKey { path, id });
    }
    map
}

// Puts the key, with its number as its value.
fn put(rt: &impl Abort, alloc: Global, map: &mut Map, key: ChosenKey) {
    let value = Arc::new(alloc, u64::from(key.id)).expect(rt, "no value");
    let key = Arc::new(alloc, key).expect(rt, "no key");
    map.put(alloc, key, value).expect(rt, "not put");
}

// A view of such a map.
fn seen(rt: &impl Abort, alloc: Global, pairs: u32, one_word: bool) -> Seen {
    let map = filled(rt, alloc, pairs, one_word);
    map.view().expect(rt, "no view")
}

// The number of a part that has one.
fn number<I>(part: &Part<ChosenKey, u64, I>) -> Option<u64> {
    match part {
        Part::Number(number) => Some(*number),
        _ => None,
    }
}

// What a count comes to: the number, how many intervals are listed, in how many lists, and whether two of them share a
// position, and how many of them stand in the lists from a place on.
type Counted = (Option<u64>, (usize, usize, bool), usize);

// What the crew's count of all pairs comes to.
fn counted<G: Gate + Sync, R: Threads + Wait + Sync>(
    rt: &R,
    alloc: Global,
    view: &Seen,
    crew: Crew,
    gate: &G,
    place: usize,
) -> Result<Counted, NoMemory>
    requires least_workers { 1 ≤ crew.workers }
    requires most_workers { crew.workers ≤ 16 }
    requires least_grain { 1 ≤ crew.grain }
    requires most_grain { crew.grain ≤ 65536 }
{
    let report = run_crew(rt, alloc, view, &Asked::Count(all()), crew, gate)?;
    let from = count_from(&report.lists, place);
    Ok((number(&report.part), listed(&report), from))
}

// How many intervals each of the lists from a place on has, added up.
fn count_from(lists: &[Vec<Interval>], place: usize) -> usize {
    let mut count = 0usize;
    for list in lists.iter().skip(place) {
        count = count.wrapping_add(list.len());
    }
    count
}

// How many intervals a report lists, in how many lists, and whether two of them share a position.
fn listed<P>(report: &Report<P>) -> (usize, usize, bool) {
    let mut count = 0usize;
    let mut shared = false;
    for list in report.lists.iter() {
        count = count.wrapping_add(list.len());
        for interval in list.iter() {
            shared = shared || meets_other(&report.lists, interval);
        }
    }
    (count, report.lists.len(), shared)
}

// Whether an interval with positions shares some with two of the lists' intervals, itself being one.
fn meets_other(lists: &[Vec<Interval>], interval: &Interval) -> bool {
    let mut met = 0u32;
    for list in lists {
        for other in list.iter() {
            if other.lo < interval.hi && interval.lo < other.hi {
                met = met.wrapping_add(1);
            }
        }
    }
    met > 1
}

// What is seen is what is wanted. An assertion is proved wherever it is written out, so it stands here once.
fn assert_is<T: PartialEq + Debug + Drop>(rt: &impl Abort, seen: T, want: T) {
    assert_eq!(rt; seen, want);
}
