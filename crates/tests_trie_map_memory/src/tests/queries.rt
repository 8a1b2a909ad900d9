//! Queries of their own: about the whole map, and with a test that calls the map.
ghost use Rattle.trie_map.specs.Queries.{IsReady};

use super::{Map, assert_is, empty, key, put};
use combiner::Sum;
use std::process::Abort;
use std::sync::Wait;
use std::thread::Threads;
use test_keys::ChosenKey;
use test_queries::{Values, Zero};
use trie_map::{Answer, Crew, NoImages, NoMemory, PairFn, Query, Stored, StoredTest};

// Whether the value is even.
#[derive(Drop)]
struct IsEven;

impl PairFn<ChosenKey, u64, bool> for IsEven {
    ghost use Rattle.std.specs.Prelude.{◌≡◌, ◌%◌, ◌==◌};

    ghost can = { λ test. Unit {0} };

    ghost gives = { λ test key value passes. passes ≡ (value % 2 == 0) };

    fn answer(&self, _key: &ChosenKey, value: &u64) -> bool {
        *value % 2 == 0
    }
}

// A type for the closures that the question does not have.
#[derive(Drop)]
struct Value;

impl PairFn<ChosenKey, u64, u64> for Value {
    ghost use Rattle.std.specs.Prelude.{◌≡◌};

    ghost can = { λ same. Unit {0} };

    ghost gives = { λ same key value given. given ≡ value };

    fn answer(&self, _key: &ChosenKey, value: &u64) -> u64 {
        *value
    }
}

impl PairFn<ChosenKey, u64, i128> for Value {
    ghost use Rattle.std.specs.Prelude.{◌≡◌, pos};

    ghost can = { λ item. Unit {0} };

    ghost gives = { λ item key value given. given ≡ pos value };

    fn answer(&self, _key: &ChosenKey, value: &u64) -> i128 {
        i128::from(*value)
    }
}

type Question = Query<ChosenKey, u64, IsEven, Value, Sum, Value, NoImages>;

// How many values are even.
fn even_values() -> Question
    ensures { IsReady result }
{
    Query::Count(Stored::new(IsEven))
}

#[test]
fn a_question_about_the_whole_map(rt: HostRuntime) {
    let map = empty(&rt);
    for id in 0..10 {
        put(&rt, &map, key(id % 3, id), u64::from(id));
    }
    let (answer, made) = map.query(&rt, &even_values()).expect(&rt, "no answer");
    assert!(rt; matches!(&answer, Answer::Count(5)));
    assert!(rt; made.is_none());
}

// Puts a key of each first digit, and returns whether each was put.
fn puts_everywhere<R: Wait>(rt: &R, map: &Map) -> bool {
    let mut done = true;
    for digit in 0..32 {
        done = map.put(rt, key(digit, 1), 9).is_ok() && done;
    }
    done
}

// A map of two pairs.
fn two<R: AllocGlobal + Wait + Abort>(rt: &R) -> Map {
    let map = empty(rt);
    put(rt, &map, key(0, 0), 1);
    put(rt, &map, key(31, 0), 2);
    map
}

// Two workers, each of which has its pieces cut down to single pairs.
fn two_workers() -> Crew {
    Crew {
        workers: 2,
        grain: 1,
        patience: 1_000,
    }
}

// A test that puts a key of each first digit, and passes.
#[derive(Drop)]
struct Puts<'a, R>(&'a R, &'a Map);

impl<'a, R: Wait> PairFn<ChosenKey, u64, bool> for Puts<'a, R> {
    ghost use Rattle.std.specs.Prelude.{◌≡◌, true};

    ghost can = { λ test. Unit {0} };

    ghost gives = { λ test key value passes. passes ≡ true };

    fn answer(&self, _key: &ChosenKey, _value: &u64) -> bool {
        puts_everywhere(self.0, self.1);
        true
    }
}

// That test, as a query asks it.
fn putting<'a, R: Wait>(rt: &'a R, map: &'a Map) -> StoredTest<ChosenKey, u64, Puts<'a, R>> {
    Stored::new(Puts(rt, map))
}

type Putting<'a, R> = Query<ChosenKey, u64, Puts<'a, R>, Zero, Sum, Values, NoImages>;

// How many pairs pass.
fn counted<I>(answer: &Answer<ChosenKey, u64, I>) -> u64 {
    match answer {
        Answer::Count(count) => *count,
        _ => 0,
    }
}

// What a query counts in a map of two pairs, by the calling thread and by a crew.
fn queried<R: AllocGlobal + Threads + Wait + Abort + Sync>(rt: &R) -> Result<(u64, u64), NoMemory> {
    let map = two(rt);
    let query: Putting<R> = Query::Count(putting(rt, &map));
    let (alone, _) = map.query(rt, &query)?;
    let map = two(rt);
    let query: Putting<R> = Query::Count(putting(rt, &map));
    let (together, _) = map.par_query(rt, &query, two_workers())?;
    Ok((counted(&alone), counted(&together)))
}

#[test]
fn what_a_query_asks_may_put(rt: HostRuntime) {
    assert_is(&rt, queried(&rt), Ok((2, 2)));
}
