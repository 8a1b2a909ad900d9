//! Queries that are worked by the shape of the trie.
ghost use Rattle.trie_map.specs.Queries.{IsReady};

use super::assert_is;
use super::tallied::{MANY, Tallied, Tallies, Tally, filled};
use combiner::Sum;
use std::process::Abort;
use std::sync::Wait;
use std::thread::Threads;
use trie_map::{Crew, NoImages, NoMemory, PairFn, Query, Stored};

// The closures of the queries: even numbers pass, and each value stays as it is.
#[derive(Drop)]
struct Even;

impl PairFn<Tallied, u64, bool> for Even {
    ghost use Rattle.std.specs.Prelude.{◌≡◌, ◌%◌, ◌==◌};

    ghost can = { λ even. Unit {0} };

    ghost gives = { λ even key value passes. passes ≡ (value % 2 == 0) };

    fn answer(&self, _key: &Tallied, value: &u64) -> bool {
        *value % 2 == 0
    }
}

#[derive(Drop)]
struct Same;

impl PairFn<Tallied, u64, u64> for Same {
    ghost use Rattle.std.specs.Prelude.{◌≡◌};

    ghost can = { λ same. Unit {0} };

    ghost gives = { λ same key value given. given ≡ value };

    fn answer(&self, _key: &Tallied, value: &u64) -> u64 {
        *value
    }
}

impl PairFn<Tallied, u64, i128> for Same {
    ghost use Rattle.std.specs.Prelude.{◌≡◌, pos};

    ghost can = { λ same. Unit {0} };

    ghost gives = { λ same key value given. given ≡ pos value };

    fn answer(&self, _key: &Tallied, value: &u64) -> i128 {
        i128::from(*value)
    }
}

type Question = Query<Tallied, u64, Even, Same, Sum, Same, NoImages>;

fn filter() -> Question
    ensures { IsReady result }
{
    Query::Filter(Stored::new(Even), 1)
}

fn change() -> Question
    ensures { IsReady result }
{
    Query::MapValues(Stored::new(Same), 1)
}

// How many pairs a map has, and how often keys were hashed and compared while it was made.
type Told = (Option<u64>, (u32, u32));

// Of the map that the query makes.
fn queried<R: Wait>(
    rt: &R,
    map: &Tallies,
    tally: &Tally,
    query: &Question,
) -> Result<Told, NoMemory>
    requires { IsReady query.now }
{
    tally.take();
    let (_, made) = map.query(rt, query)?;
    Ok((made.map(|made| made.len()), tally.take()))
}

// What a query makes of a whole map is made by the shape of its trie.
#[test]
fn no_key_is_hashed_or_compared_for_what_a_query_makes(rt: HostRuntime) {
    let tally = Tally::new(&rt);
    let map = filled(&rt, &tally);
    let filtered = queried(&rt, &map, &tally, &filter());
    assert_is(&rt, filtered, Ok((Some(500), (0, 0))));
    let changed = queried(&rt, &map, &tally, &change());
    assert_is(&rt, changed, Ok((Some(MANY), (0, 0))));
}

// Two workers, each of which cuts its pieces down to a hundred pairs.
fn two_workers() -> Crew {
    Crew {
        workers: 2,
        grain: 100,
        patience: 1_000,
    }
}

// Fewer keys than this are hashed. Pair by pair it would be each that is put.
const FEW: u32 = 100;

// Of the map that a crew makes.
fn queried_by_crew<R: Threads + Wait + Sync>(
    rt: &R,
    map: &Tallies,
    tally: &Tally,
    query: &Question,
) -> Result<Told, NoMemory>
    requires { IsReady query.now }
{
    tally.take();
    let (_, made) = map.par_query(rt, query, two_workers())?;
    Ok((made.map(|made| made.len()), tally.take()))
}

// A crew makes a map of this many pairs, and few keys are hashed.
fn assert_few<R: Threads + Wait + Abort + Sync>(
    rt: &R,
    map: &Tallies,
    tally: &Tally,
    query: &Question,
    len: u64,
)
    requires { IsReady query.now }
{
    let told = queried_by_crew(rt, map, tally, query).expect(rt, "no map");
    let (made, (hashed, compared)) = told;
    assert_is(rt, (made, compared), (Some(len), 0));
    assert!(rt; hashed < FEW, "{hashed} keys were hashed");
}

// And what a crew makes: keys are hashed where pieces are joined, and only those beside a cut.
#[test]
fn few_keys_are_hashed_for_what_a_crew_makes(rt: HostRuntime) {
    let tally = Tally::new(&rt);
    let map = filled(&rt, &tally);
    assert_few(&rt, &map, &tally, &filter(), 500);
    assert_few(&rt, &map, &tally, &change(), MANY);
}
