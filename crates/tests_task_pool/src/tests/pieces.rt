//! When the gate is asked, and how many pieces are begun where a part is settled.
ghost use Rattle.std.specs.Prelude.{◌≡◌, ◌≤◌};

use super::{Asked, Seen, all, assert_is, seen};
use bulk_ops::{NoImages, PairFn, Part, Query, Stored, StoredTest};
use combiner::Sum;
use hash_path::Bound;
use std::panic::Expect;
use std::process::Abort;
use std::sync::Wait;
use std::sync::atomic::{AtomicU32, Ordering};
use std::test::*;
use std::thread::Threads;
use task_pool::{Crew, Gate, run_crew};
use test_keys::ChosenKey;
use test_queries::{Values, Zero};

// How many pairs there are.
const PAIRS: u32 = 64;

const WORKERS: u32 = 16;

const RUNS: u32 = 20;

// A crew of `workers` workers, none of which gives up.
fn crew(workers: u32, grain: u64) -> Crew
    ensures { result ≡ record { workers = workers; grain = grain; patience = 4294967295 } }
{
    Crew {
        workers,
        grain,
        patience: u32::MAX,
    }
}

// What a worker alone does: pairs that were tested, pieces that it was asked to begin, and whether a piece was begun before
// the gate was asked.
#[derive(Drop)]
struct Steps {
    tested: AtomicU32,
    begun: AtomicU32,
    early: AtomicU32,
}

fn no_steps() -> Steps {
    Steps {
        tested: AtomicU32::new(0),
        begun: AtomicU32::new(0),
        early: AtomicU32::new(0),
    }
}

// Each pair passes, and is counted.
#[derive(Drop)]
struct Counted<'a>(&'a Steps);

impl<'a> PairFn<ChosenKey, u64, bool> for Counted<'a> {
    ghost use Rattle.std.specs.Prelude.{◌≡◌, true};

    ghost can = { λ t. Unit {0} };

    ghost gives = { λ t k v r. r ≡ true };

    fn answer(&self, _key: &ChosenKey, _value: &u64) -> bool {
        self.0.tested.fetch_add(1, Ordering::SeqCst);
        true
    }
}

// Where pieces have one pair, as many pairs were tested as pieces were begun before.
impl Gate for Steps {
    fn before(&self, _worker: u32, _lo: Bound, _hi: Bound) {
        let begun = self.begun.fetch_add(1, Ordering::SeqCst);
        if self.tested.load(Ordering::SeqCst) != begun {
            self.early.store(1, Ordering::SeqCst);
        }
    }
}

// That test, as a query asks it.
fn counting<'a>(steps: &'a Steps) -> StoredTest<ChosenKey, u64, Counted<'a>> {
    Stored::new(Counted(steps))
}

type Tested<'a> = Query<ChosenKey, u64, Counted<'a>, Zero, Sum, Values, NoImages>;

// What one worker does that counts pairs, where pieces have at most `grain` of them.
fn steps_of<R: AllocGlobal + Threads + Wait + Abort + Sync>(rt: &R, grain: u64) -> [u32; 3]
    requires least_grain { 1 ≤ grain }
    requires most_grain { grain ≤ 65536 }
{
    let alloc = rt.alloc();
    let view = seen(rt, alloc, PAIRS, false);
    let steps = no_steps();
    let query: Tested = Query::Count(counting(&steps));
    let report = run_crew(rt, alloc, &view, &query, crew(1, grain), &steps);
    drop(report.expect(rt, "no report"));
    [
        steps.tested.load(Ordering::SeqCst),
        steps.begun.load(Ordering::SeqCst),
        steps.early.load(Ordering::SeqCst),
    ]
}

// The gate is asked before a piece is worked, and not behind it: of a worker's pieces, and of a caller's that works alone.
#[test]
fn a_piece_is_worked_once_the_gate_was_asked(rt: HostRuntime) {
    assert_is(&rt, steps_of(&rt, 1), [PAIRS, PAIRS, 0]);
    assert_is(&rt, steps_of(&rt, u64::from(PAIRS)), [PAIRS, 1, 0]);
}

// Counts the pieces that are begun, by whomever.
#[derive(Drop)]
struct Begun(AtomicU32);

impl Gate for Begun {
    fn before(&self, _worker: u32, _lo: Bound, _hi: Bound) {
        self.0.fetch_add(1, Ordering::SeqCst);
    }
}

// How many of 64 pieces are begun where each is settled, and whether the answer is true.
fn begun_of_settled<R: AllocGlobal + Threads + Wait + Abort + Sync>(
    rt: &R,
    view: &Seen,
    workers: u32,
) -> (u32, bool)
    requires least_workers { 1 ≤ workers }
    requires most_workers { workers ≤ 16 }
{
    let begun = Begun(AtomicU32::new(0));
    let query = Asked::Exists(all());
    let report = run_crew(rt, rt.alloc(), view, &query, crew(workers, 1), &begun);
    let report = report.expect(rt, "no report");
    let truth = matches!(&report.part, Part::Truth(true));
    (begun.0.load(Ordering::SeqCst), truth)
}

// A part that is settled ends the work: no worker begins another piece, and the caller works none of what is left.
#[test]
fn a_settled_part_ends_the_work(rt: HostRuntime) {
    let view = seen(&rt, rt.alloc(), PAIRS, false);
    assert_is(&rt, begun_of_settled(&rt, &view, 1), (1, true));
    for _ in 0..RUNS {
        let (begun, truth) = begun_of_settled(&rt, &view, WORKERS);
        assert_is(&rt, (begun <= WORKERS, truth), (true, true));
    }
}
