//! The machine of handles with its boards, as a plain program over lists.

use crate::worker_states::Job;
use core_steps::Move;
use handles::Limits;
use std::alloc::Global;
use std::panic::Expect;
use std::process::Abort;
use test_cores::{PlainOutcome, Plan, outcome_of};
use test_machine::{PlainPair, PlainTable, Question, Request, TableOutcome};
use versions::Refusal;

/// What a core keeps: its table, and what the workers have of each open job.
#[derive(Drop)]
pub struct Machine {
    pub table: PlainTable,
    pub workers: u32,
    pub grain: u64,
    pub jobs: Vec<Job>,
}

/// The outcome of a step, and the rows that it shows: those of a view, and those that a find may give.
#[derive(Drop)]
pub struct Expected {
    pub returned: PlainOutcome,
    pub rows: Vec<PlainPair>,
}

// The outcome, with no rows.
fn with_no_rows(alloc: Global, returned: PlainOutcome) -> Expected {
    Expected {
        returned,
        rows: Vec::new(alloc),
    }
}

impl Machine {
    /// No handles and no jobs.
    pub fn new(alloc: Global, limits: Limits, workers: u32, grain: u64) -> Machine {
        Machine {
            table: PlainTable::new(alloc, limits),
            workers,
            grain,
            jobs: Vec::new(alloc),
        }
    }

    /// Makes a step.
    pub fn step(&mut self, rt: &impl Abort, alloc: Global, plan: Plan) -> Expected {
        if let Plan::Move(job, chosen) = plan {
            return with_no_rows(alloc, self.make_move(rt, alloc, job, chosen));
        }
        match plan.request() {
            Some(request) if !self.is_unfinished(rt, alloc, request) => {
                self.serve(rt, alloc, request)
            }
            _ => with_no_rows(alloc, PlainOutcome::Unfinished),
        }
    }

    // A worker's move.
    fn make_move(
        &mut self,
        rt: &impl Abort,
        alloc: Global,
        number: u64,
        chosen: Move,
    ) -> PlainOutcome {
        let (grain, workers) = (self.grain, self.workers);
        let Some(job) = self.job_mut(number) else {
            return PlainOutcome::Refused(Refusal::NoJob);
        };
        let (worker, other) = match chosen {
            Move::Steal(worker, from) => (worker, from),
            Move::Take(worker) | Move::Split(worker) | Move::Work(worker) => (worker, worker),
        };
        if worker >= workers || other >= workers {
            return PlainOutcome::Refused(Refusal::NoWorker);
        }
        PlainOutcome::Moved(job.make_move(rt, alloc, chosen, grain))
    }

    // Where an open job stands.
    fn job_at(&self, number: u64) -> Option<usize> {
        self.jobs.iter().position(|job| job.number == number)
    }

    /// An open job.
    pub fn job(&self, number: u64) -> Option<&Job> {
        self.jobs.get(self.job_at(number)?)
    }

    fn job_mut(&mut self, number: u64) -> Option<&mut Job> {
        let at = self.job_at(number)?;
        self.jobs.get_mut(at)
    }

    // Whether a job is to be finished that has no answer yet.
    fn is_unfinished(&self, rt: &impl Abort, alloc: Global, request: Request) -> bool {
        let Request::Finish(number) = request else {
            return false;
        };
        match self.job(number) {
            Some(job) => !job.has_answer(rt, alloc),
            None => false,
        }
    }

    // A client's step. A job that it opens or closes is opened or closed for the workers.
    fn serve(&mut self, rt: &impl Abort, alloc: Global, request: Request) -> Expected {
        let served = self.table.serve(alloc, request).expect(rt, "no room");
        if let (Request::Freeze(_, question), TableOutcome::Frozen(number)) = (
            request,
            served.outcome,
        ) {
            self.open(rt, alloc, number, question, &served.rows);
        }
        if let Some(number) = request.closed() {
            self.jobs.retain(|open| open.number != number);
        }
        Expected {
            returned: outcome_of(served.outcome),
            rows: served.rows,
        }
    }

    // The whole map of the job waits for a worker.
    fn open(
        &mut self,
        rt: &impl Abort,
        alloc: Global,
        number: u64,
        question: Question,
        rows: &[PlainPair],
    ) {
        let rows = Vec::from_slice(alloc, rows).expect(rt, "no room");
        let job = Job::new(rt, alloc, number, question, rows, self.workers);
        self.jobs.push(job).expect(rt, "no room");
    }
}
