//! What a crew works: by as many threads as it says, and queries.

use super::{Map, assert_is, empty, put, view_of};
use combiner::Sum;
use std::process::Abort;
use std::sync::Wait;
use std::sync::atomic::{AtomicU32, Ordering};
use std::thread;
use std::thread::Threads;
use test_keys::ChosenKey;
use test_queries::{Values, Zero};
use trie_map::{Answer, Crew, NoImages, PairFn, Query, Stored, StoredTest};

// Pairs of one value pass.
#[derive(Drop)]
struct Is(u64);

impl PairFn<ChosenKey, u64, bool> for Is {
    ghost use Rattle.std.specs.Prelude.{◌≡◌, ◌==◌};

    ghost can = { λ test. Unit {0} };

    ghost gives = { λ test key value passes. passes ≡ (value == test.0) };

    fn answer(&self, _key: &ChosenKey, value: &u64) -> bool {
        *value == self.0
    }
}

type Question = Query<ChosenKey, u64, Is, Zero, Sum, Values, NoImages>;

fn equal_to(value: u64) -> StoredTest<ChosenKey, u64, Is> {
    Stored::new(Is(value))
}

// A crew of `workers` workers, each of which has its pieces cut down to single pairs. None ends before the last piece
// is worked.
fn crew_of(workers: u32) -> Crew {
    Crew {
        workers,
        grain: 1,
        patience: u32::MAX,
    }
}

// Four such workers.
fn four() -> Crew {
    crew_of(4)
}

// How often a thread lets others run before it gives up; and how often once as many are there as should be, where one
// question is asked and where several are.
const TURNS: u32 = 10_000_000;

const TURNS_MORE: u32 = 20_000;

const TURNS_EACH: u32 = 500;

// Threads that are inside a closure.
#[derive(Drop)]
struct Inside {
    // How many should be there at once, and how long they wait for one more.
    wanted: u32,
    turns: u32,
    // How many there are now.
    now: AtomicU32,
    // Whether as many were there at once, and whether one more was.
    all: AtomicU32,
    more: AtomicU32,
    // Whether nobody waits any more.
    over: AtomicU32,
}

impl Inside {
    fn new(wanted: u32, turns: u32) -> Inside {
        Inside {
            wanted,
            turns,
            now: AtomicU32::new(0),
            all: AtomicU32::new(0),
            more: AtomicU32::new(0),
            over: AtomicU32::new(0),
        }
    }

    // Comes in, waits until as many threads are here as should be, and then a little for one more, and leaves. Only the
    // first wait long.
    fn meet(&self) -> bool {
        let here = self.now.fetch_add(1, Ordering::SeqCst).wrapping_add(1);
        if here >= self.wanted {
            self.all.store(1, Ordering::SeqCst);
        }
        if here > self.wanted {
            self.more.store(1, Ordering::SeqCst);
        }
        self.wait(&self.all, TURNS);
        self.wait(&self.more, self.turns);
        self.over.store(1, Ordering::SeqCst);
        self.now.fetch_sub(1, Ordering::SeqCst);
        true
    }

    // Waits for a sign, or until nobody waits any more.
    fn wait(&self, sign: &AtomicU32, turns: u32) {
        for _ in 0..turns {
            if self.over.load(Ordering::SeqCst) == 1 || sign.load(Ordering::SeqCst) == 1 {
                return;
            }
            thread::yield_now();
        }
    }

    // Whether as many threads were here at once as should be, and no more.
    fn is_right(&self) -> bool {
        self.all.load(Ordering::SeqCst) == 1 && self.more.load(Ordering::SeqCst) == 0
    }
}

// A test that passes where as many threads ask it at once as should, or after a long time.
#[derive(Drop)]
struct Meets<'a>(&'a Inside);

impl<'a> PairFn<ChosenKey, u64, bool> for Meets<'a> {
    ghost use Rattle.std.specs.Prelude.{◌≡◌, true};

    ghost can = { λ test. Unit {0} };

    ghost gives = { λ test key value passes. passes ≡ true };

    fn answer(&self, _key: &ChosenKey, _value: &u64) -> bool {
        self.0.meet();
        true
    }
}

// A map of 300 keys in all stripes: a third of them each have the values 0, 1 and 2.
fn in_thirds<R: AllocGlobal + Wait + Abort>(rt: &R) -> Map {
    let map = empty(rt);
    for id in 0..300 {
        let path = u64::from(id);
        put(rt, &map, ChosenKey { path, id }, path % 3);
    }
    map
}

#[test]
fn a_crew_counts_and_finds_no_absent_value(rt: HostRuntime) {
    let map = in_thirds(&rt);
    let counted = map.par_query(&rt, &Question::Count(equal_to(1)), four());
    let (counted, _) = counted.expect(&rt, "no count");
    assert!(rt; matches!(&counted, Answer::Count(100)));
    let found = view_of(&rt, &map).par_query(&rt, &Question::Find(equal_to(3)), four());
    let (found, _) = found.expect(&rt, "no search");
    assert!(rt; matches!(&found, Answer::Found(None)));
}

// Whether all threads of such a crew are at work at one time while it counts, and no more.
fn counting<R: Threads + Wait + Abort + Sync>(rt: &R, map: &Map, inside: &Inside) -> bool {
    let counted = map.par_count(rt, |_, _| inside.meet(), crew_of(inside.wanted));
    assert_is(rt, counted, Ok(300));
    inside.is_right()
}

// The same while it folds.
fn folding<R: Threads + Wait + Abort + Sync>(rt: &R, map: &Map, inside: &Inside) -> bool {
    let crew = crew_of(inside.wanted);
    let folded = map.par_fold(rt, &Sum, |_, _| i128::from(inside.meet()), crew);
    assert_is(rt, folded, Ok(300));
    inside.is_right()
}

// The same while it counts groups, of which there is one.
fn grouping<R: Threads + Wait + Abort + Sync>(rt: &R, map: &Map, inside: &Inside) -> bool {
    let crew = crew_of(inside.wanted);
    let groups = map.par_group_count(rt, |_, _| u64::from(inside.meet()), crew);
    assert_is(rt, groups.map(|groups| groups.get(&1)), Ok(300));
    inside.is_right()
}

// The same while it looks for the highest scores.
fn ranking<R: Threads + Wait + Abort + Sync>(rt: &R, map: &Map, inside: &Inside) -> bool {
    let ranked = map.par_top(rt, 7, |_, _| inside.meet(), crew_of(inside.wanted));
    assert_is(rt, ranked.map(|ranked| ranked.len()), Ok(7));
    inside.is_right()
}

// A crew of four has four threads at work at one time, and no fifth.
#[test]
fn a_crew_has_as_many_threads_as_it_says(rt: HostRuntime) {
    let map = in_thirds(&rt);
    assert_is(&rt, counting(&rt, &map, &Inside::new(4, TURNS_MORE)), true);
}

// A crew of three has three, whatever it is asked.
#[test]
fn each_question_is_worked_by_all_threads(rt: HostRuntime) {
    let map = in_thirds(&rt);
    assert_is(&rt, counting(&rt, &map, &Inside::new(3, TURNS_EACH)), true);
    assert_is(&rt, folding(&rt, &map, &Inside::new(3, TURNS_EACH)), true);
    assert_is(&rt, grouping(&rt, &map, &Inside::new(3, TURNS_EACH)), true);
    assert_is(&rt, ranking(&rt, &map, &Inside::new(3, TURNS_EACH)), true);
}

type Meeting<'a> = Query<ChosenKey, u64, Meets<'a>, Zero, Sum, Values, NoImages>;

// Asks all pairs, and returns how many passed.
fn met<R: Threads + Wait + Abort + Sync>(rt: &R, map: &Map, inside: &Inside) -> u64 {
    let query: Meeting = Query::Count(Stored::new(Meets(inside)));
    let (answer, _) = map.par_query(rt, &query, four()).expect(rt, "no count");
    match answer {
        Answer::Count(count) => count,
        _ => 0,
    }
}

#[test]
fn a_crew_asks_a_query_by_all_its_threads(rt: HostRuntime) {
    let map = in_thirds(&rt);
    let inside = Inside::new(4, TURNS_MORE);
    assert_is(&rt, met(&rt, &map, &inside), 300);
    assert_is(&rt, inside.is_right(), true);
}
