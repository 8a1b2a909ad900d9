//! A core beside a plain machine that makes the same steps: the outcomes of both, what each handle shows, and what each
//! worker's part is.

use super::{answer_to, assert_is, assert_outcome, assert_run, assert_true, core_of};
use crate::machine::{Expected, Machine};
use crate::worker_states::Job;
use bulk_ops::Part;
use bulk_work::Answer;
use core_steps::Outcome;
use std::alloc::Global;
use std::panic::Expect;
use std::process::Abort;
use test_cores::{
    PlainOutcome, Plan, TestCore, TestOutcome, TestPart, found_row, outcome_of, plain_of,
    plain_part, rows_of_map, rows_of_view, step_of,
};
use test_machine::{PlainPair, answer};

// The handles that the steps are about.
const HANDLES: [u32; 9] = [0, 1, 2, 3, 4, 5, 1023, 1024, u32::MAX];

// A core beside a plain machine, with what was done with both so far and the outcomes of it.
#[derive(Drop)]
pub(super) struct Twins {
    pub(super) core: TestCore,
    pub(super) machine: Machine,
    pub(super) plans: Vec<Plan>,
    pub(super) returned: Vec<PlainOutcome>,
}

// A new core like a machine.
fn core_like(rt: &impl Abort, alloc: Global, machine: &Machine) -> TestCore {
    core_of(
        rt,
        alloc,
        machine.table.limits,
        machine.workers,
        machine.grain,
    )
}

// Rows as they should be.
fn assert_rows(rt: &impl Abort, rows: &[PlainPair], want: &[PlainPair]) {
    assert_is(rt, rows, want);
}

// A row that is found is one of these.
fn assert_found(rt: &impl Abort, found: Option<PlainPair>, rows: &[PlainPair]) {
    if let Some(row) = found {
        assert_true(rt, rows.contains(&row));
    }
}

// The outcome shows these rows: a view all of them, a find one of them where there is one.
fn assert_shows(rt: &impl Abort, alloc: Global, outcome: &TestOutcome, rows: &[PlainPair]) {
    match outcome {
        Outcome::View(view) => {
            let seen = rows_of_view(alloc, view).expect(rt, "no rows");
            assert_rows(rt, &seen, rows);
        }
        Outcome::Answer(Answer::Found(found)) => assert_found(rt, found_row(found), rows),
        _ => (),
    }
}

// The part shows these rows: a map all of them, a find one of them where there is one.
fn assert_part_shows(rt: &impl Abort, alloc: Global, part: &TestPart, rows: &[PlainPair]) {
    match part {
        Part::Found(found) => assert_found(rt, found_row(found), rows),
        Part::Made(map) => {
            let seen = rows_of_map(alloc, map).expect(rt, "no rows");
            assert_rows(rt, &seen, rows);
        }
        _ => (),
    }
}

// The part is that of what the worker has worked.
fn assert_part(rt: &impl Abort, alloc: Global, part: &TestPart, job: &Job, worker: u32) {
    let rows = job.worked_rows(rt, alloc, worker);
    let chosen = job.question.chosen(alloc, &rows).expect(rt, "no room");
    assert_outcome(
        rt,
        plain_part(part),
        outcome_of(answer(job.question, &chosen, rows.len())),
    );
    assert_part_shows(rt, alloc, part, &chosen);
}

impl Twins {
    // A machine beside a core that is like it.
    pub(super) fn new(rt: &impl Abort, alloc: Global, machine: Machine) -> Twins {
        let core = core_like(rt, alloc, &machine);
        Twins {
            core,
            machine,
            plans: Vec::new(alloc),
            returned: Vec::new(alloc),
        }
    }

    // Makes a step with both, with the same outcome.
    pub(super) fn make(&mut self, rt: &impl Abort, alloc: Global, plan: Plan) -> PlainOutcome {
        let expected = self.machine.step(rt, alloc, plan);
        self.assert_made(rt, alloc, plan, &expected);
        self.plans.push(plan).expect(rt, "no room");
        self.returned.push(expected.returned).expect(rt, "no room");
        expected.returned
    }

    // The core makes the step, which has the outcome that is expected.
    fn assert_made(&mut self, rt: &impl Abort, alloc: Global, plan: Plan, expected: &Expected) {
        let step = step_of(alloc, plan).expect(rt, "no step");
        let outcome = answer_to(rt, alloc, &mut self.core, step);
        assert_outcome(rt, plain_of(&outcome), expected.returned);
        assert_shows(rt, alloc, &outcome, &expected.rows);
    }

    // The part of a worker of a job is that of what it has worked, and there is none where there is no such job or
    // worker.
    fn assert_part_of(&self, rt: &impl Abort, alloc: Global, number: u64, worker: u32) {
        let there = worker < self.machine.workers;
        match (self.machine.job(number), self.core.part(number, worker)) {
            (Some(job), Some(part)) => {
                assert_true(rt, there);
                assert_part(rt, alloc, part, job, worker);
            }
            (Some(_), None) => assert_true(rt, !there),
            (None, part) => assert_true(rt, part.is_none()),
        }
    }

    // The same of all workers of all jobs, and of the job that would be next.
    pub(super) fn assert_parts(&self, rt: &impl Abort, alloc: Global) {
        for number in 0..=self.machine.table.next {
            for worker in 0..17 {
                self.assert_part_of(rt, alloc, number, worker);
            }
        }
    }

    // Each live handle has the same rows, and no other handle is live.
    pub(super) fn assert_maps(&mut self, rt: &impl Abort, alloc: Global) {
        for handle in HANDLES {
            self.make(rt, alloc, Plan::View(handle));
        }
    }

    // A new core returns the same outcomes for all steps as one list.
    pub(super) fn assert_run(&self, rt: &impl Abort, alloc: Global) {
        let mut core = core_like(rt, alloc, &self.machine);
        assert_run(rt, alloc, &mut core, &self.plans, &self.returned);
    }
}
