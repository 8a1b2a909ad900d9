//! Many runs of many workers with `patience` 0, on few pairs.
ghost use Rattle.std.specs.Prelude.{◌≡◌};

use super::{Asked, Seen, all, assert_is, equal, listed, seen};
use bulk_ops::Part;
use bulk_work::Answer;
use std::process::Abort;
use std::sync::Wait;
use std::test::*;
use std::thread::Threads;
use task_pool::{Crew, Free, ask_crew, run_crew};

const RUNS: u32 = 100;

// Sixteen workers, each of which ends at its first round that finds no piece.
fn hasty() -> Crew
    ensures { result ≡ record { workers = 16; grain = 1; patience = 0 } }
{
    Crew {
        workers: 16,
        grain: 1,
        patience: 0,
    }
}

// What an answer says: a truth, or the number of the key and the value of a pair that was found.
type Answers = (Option<bool>, Option<(u32, u64)>);

// What such a crew answers about the view, where it says something.
fn answer_of<R: AllocGlobal + Threads + Wait + Abort + Sync>(
    rt: &R,
    view: &Seen,
    query: &Asked,
) -> Answers
    requires { ⟦<Asked as combiner::Bulk<test_keys::ChosenKey, u64>>⟧.ready query.now }
{
    let view = view.try_clone().expect(rt, "no view");
    let (answer, _) = ask_crew(rt, rt.alloc(), view, query, hasty()).expect(rt, "no answer");
    match &answer {
        Answer::Truth(truth) => (Some(*truth), None),
        Answer::Found(Some((key, value))) => (None, Some((key.id, **value))),
        _ => (None, None),
    }
}

#[test]
fn all_pairs_pass(rt: HostRuntime) {
    let view = seen(&rt, rt.alloc(), 64, false);
    let query = Asked::ForAll(all());
    for _ in 0..RUNS {
        assert_is(&rt, answer_of(&rt, &view, &query), (Some(true), None));
    }
}

#[test]
fn an_absent_value_does_not_exist(rt: HostRuntime) {
    let view = seen(&rt, rt.alloc(), 64, false);
    let query = Asked::Exists(equal(64));
    for _ in 0..RUNS {
        assert_is(&rt, answer_of(&rt, &view, &query), (Some(false), None));
    }
}

#[test]
fn the_one_pair_that_passes_is_found(rt: HostRuntime) {
    let view = seen(&rt, rt.alloc(), 64, false);
    let query = Asked::Find(equal(17));
    for _ in 0..RUNS {
        assert_is(&rt, answer_of(&rt, &view, &query), (None, Some((17, 17))));
    }
}

// Where a part is settled, what is left need not be worked; what was worked shares no position all the same.
#[test]
fn a_settled_part_is_of_apart_intervals(rt: HostRuntime) {
    let alloc = rt.alloc();
    let view = seen(&rt, alloc, 64, false);
    let query = Asked::Exists(all());
    for _ in 0..RUNS {
        let report = run_crew(&rt, alloc, &view, &query, hasty(), &Free).expect(&rt, "no report");
        let truth = matches!(&report.part, Part::Truth(true));
        let (_, lists, shared) = listed(&report);
        assert_is(&rt, (truth, lists, shared), (true, 17, false));
    }
}
