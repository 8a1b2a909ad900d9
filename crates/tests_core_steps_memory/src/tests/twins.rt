//! A core whose steps may be refused memory beside one that has ample memory: the outcomes of both, what each handle shows,
//! and what each worker's part is.

use super::{answer_to, assert_is, assert_outcome, core_of_two};
use bulk_ops::Part;
use core_steps::Outcome;
use std::alloc::Global;
use std::panic::Expect;
use std::process::Abort;
use test_cores::{
    Case, Plan, TestCore, TestOutcome, TestPart, found_row, plain_of, plain_part, rows_of_map,
    rows_of_view, step_of,
};
use test_machine::PlainPair;

// The handles, jobs and workers that the steps are about, and some that are none.
const HANDLES: [u32; 4] = [0, 1, 2, 1024];

const JOBS: u64 = 2;

const WORKERS: u32 = 3;

// Two cores of two workers that have made the same steps.
#[derive(Drop)]
pub(super) struct Twins {
    pub(super) core: TestCore,
    other: TestCore,
}

// Rows as they should be.
fn assert_rows(rt: &impl Abort, rows: &[PlainPair], want: &[PlainPair]) {
    assert_is(rt, rows, want);
}

// The rows that an outcome shows: those of a view.
fn rows_shown(rt: &impl Abort, alloc: Global, outcome: &TestOutcome) -> Vec<PlainPair> {
    match outcome {
        Outcome::View(view) => rows_of_view(alloc, view).expect(rt, "no rows"),
        _ => Vec::new(alloc),
    }
}

// The rows that a part shows: those of a map that is made.
fn rows_made(rt: &impl Abort, alloc: Global, part: &TestPart) -> Vec<PlainPair> {
    match part {
        Part::Made(map) => rows_of_map(alloc, map).expect(rt, "no rows"),
        _ => Vec::new(alloc),
    }
}

// The row that a part has found.
fn row_found(part: &TestPart) -> Option<PlainPair> {
    match part {
        Part::Found(found) => found_row(found),
        _ => None,
    }
}

// What the core answers to the step of a plan.
fn answer_of(rt: &impl Abort, alloc: Global, core: &mut TestCore, plan: Plan) -> TestOutcome {
    let step = step_of(alloc, plan).expect(rt, "no step");
    answer_to(rt, alloc, core, step)
}

impl Twins {
    // New cores.
    pub(super) fn new(rt: &impl Abort, alloc: Global) -> Twins {
        Twins {
            core: core_of_two(rt, alloc),
            other: core_of_two(rt, alloc),
        }
    }

    // Makes a step with both, which have this outcome and show the same rows.
    pub(super) fn make(&mut self, rt: &impl Abort, alloc: Global, row: Case) {
        let outcome = answer_of(rt, alloc, &mut self.core, row.0);
        assert_outcome(rt, plain_of(&outcome), row.1);
        self.follow(rt, alloc, row, &outcome);
    }

    // The other makes a step that the core has made, with the same outcome.
    pub(super) fn follow(
        &mut self,
        rt: &impl Abort,
        alloc: Global,
        row: Case,
        outcome: &TestOutcome,
    ) {
        let other = answer_of(rt, alloc, &mut self.other, row.0);
        assert_outcome(rt, plain_of(&other), row.1);
        let rows = rows_shown(rt, alloc, outcome);
        assert_rows(rt, &rows, &rows_shown(rt, alloc, &other));
    }

    // The part of a worker of a job is the same.
    fn assert_part(&self, rt: &impl Abort, alloc: Global, job: u64, worker: u32) {
        let (part, other) = (self.core.part(job, worker), self.other.part(job, worker));
        assert_is(rt, part.map(plain_part), other.map(plain_part));
        if let (Some(part), Some(other)) = (part, other) {
            assert_is(rt, row_found(part), row_found(other));
            let rows = rows_made(rt, alloc, part);
            assert_rows(rt, &rows, &rows_made(rt, alloc, other));
        }
    }

    // The same of all workers of all jobs, and of some that are none.
    pub(super) fn assert_parts(&self, rt: &impl Abort, alloc: Global) {
        for job in 0..JOBS {
            for worker in 0..WORKERS {
                self.assert_part(rt, alloc, job, worker);
            }
        }
    }

    // A view of the handle has the same outcome, and shows the same rows.
    fn assert_map(&mut self, rt: &impl Abort, alloc: Global, handle: u32) {
        let plan = Plan::View(handle);
        let outcome = answer_of(rt, alloc, &mut self.core, plan);
        self.follow(rt, alloc, (plan, plain_of(&outcome)), &outcome);
    }

    // The same of all handles.
    pub(super) fn assert_maps(&mut self, rt: &impl Abort, alloc: Global) {
        for handle in HANDLES {
            self.assert_map(rt, alloc, handle);
        }
    }
}
