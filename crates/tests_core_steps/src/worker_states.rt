//! A job as a plain program: its frozen rows, and for each worker the spans that wait, the one that it holds and those
//! that it has worked.

use crate::maps::{Span, middle_of_rows, rows_within};
use core_steps::{Move, Progress};
use std::alloc::Global;
use std::panic::Expect;
use std::process::Abort;
use test_cores::END;
use test_machine::{PlainPair, Question};

/// What a worker has of a job. The oldest span stands first in the queue.
#[derive(Drop)]
pub struct WorkerState {
    pub queue: Vec<Span>,
    pub held: Option<Span>,
    pub worked: Vec<Span>,
}

/// An open job.
#[derive(Drop)]
pub struct Job {
    pub number: u64,
    pub question: Question,
    pub rows: Vec<PlainPair>,
    pub worker_states: Vec<WorkerState>,
}

// What each worker has at first: the whole map waits for worker 0.
fn worker_state_of(rt: &impl Abort, alloc: Global, worker: u32) -> WorkerState {
    let mut queue = Vec::new(alloc);
    if worker == 0 {
        push_span(rt, &mut queue, (0, END));
    }
    WorkerState {
        queue,
        held: None,
        worked: Vec::new(alloc),
    }
}

// Adds a span to spans.
fn push_span(rt: &impl Abort, spans: &mut Vec<Span>, span: Span) {
    spans.push(span).expect(rt, "no room");
}

impl Job {
    /// A job whose whole map waits for worker 0.
    pub fn new(
        rt: &impl Abort,
        alloc: Global,
        number: u64,
        question: Question,
        rows: Vec<PlainPair>,
        workers: u32,
    ) -> Job {
        let mut worker_states = Vec::new(alloc);
        for worker in 0..workers {
            worker_states
                .push(worker_state_of(rt, alloc, worker))
                .expect(rt, "no room");
        }
        Job {
            number,
            question,
            rows,
            worker_states,
        }
    }

    /// Makes a move, of a worker that there is, where a piece of at most `grain` pairs is not cut.
    pub fn make_move(
        &mut self,
        rt: &impl Abort,
        alloc: Global,
        chosen: Move,
        grain: u64,
    ) -> Progress {
        match chosen {
            Move::Take(worker) => self.take(worker),
            Move::Steal(worker, from) => self.steal(worker, from),
            Move::Split(worker) => self.split(rt, alloc, worker, grain),
            Move::Work(worker) => self.work(rt, alloc, worker),
        }
    }

    /// What the worker holds.
    pub fn held(&self, worker: u32) -> Option<Span> {
        match self.worker_states.get(worker as usize) {
            Some(worker_state) => worker_state.held,
            None => None,
        }
    }

    // The newest span of the worker's own queue goes to its hands, where they are empty.
    fn take(&mut self, worker: u32) -> Progress {
        match self.worker_states.get_mut(worker as usize) {
            Some(worker_state) if worker_state.held.is_none() => {
                let newest = worker_state.queue.pop();
                worker_state.held = newest;
                took(newest)
            }
            _ => Progress::Idle,
        }
    }

    // The oldest span of the other's queue goes to the worker's hands, where they are empty.
    fn steal(&mut self, worker: u32, from: u32) -> Progress {
        if self.held(worker).is_some() {
            return Progress::Idle;
        }
        let oldest = match self.worker_states.get_mut(from as usize) {
            Some(worker_state) if !worker_state.queue.is_empty() => Some(
                worker_state.queue.remove(0),
            ),
            _ => None,
        };
        if let Some(worker_state) = self.worker_states.get_mut(worker as usize) {
            worker_state.held = oldest;
        }
        took(oldest)
    }

    // What the worker holds is cut in two, where it can be.
    fn split(&mut self, rt: &impl Abort, alloc: Global, worker: u32, grain: u64) -> Progress {
        let Some((lo, hi)) = self.held(worker) else {
            return Progress::Idle;
        };
        let rows = rows_within(rt, alloc, &self.rows, &[(lo, hi)]);
        let Some(mid) = middle_of_rows(rt, alloc, &rows, grain) else {
            return Progress::Whole;
        };
        if let Some(worker_state) = self.worker_states.get_mut(worker as usize) {
            worker_state.held = Some((lo, mid));
            push_span(rt, &mut worker_state.queue, (mid, hi));
        }
        Progress::Cut(lo, mid, hi)
    }

    // What the worker holds counts as worked.
    fn work(&mut self, rt: &impl Abort, alloc: Global, worker: u32) -> Progress {
        let Some((lo, hi)) = self.held(worker) else {
            return Progress::Idle;
        };
        if let Some(worker_state) = self.worker_states.get_mut(worker as usize) {
            worker_state.held = None;
            push_span(rt, &mut worker_state.worked, (lo, hi));
        }
        let pairs = rows_within(rt, alloc, &self.rows, &[(lo, hi)]).len() as u64;
        Progress::Worked(lo, hi, pairs, self.is_settled(rt, alloc, worker))
    }

    /// The rows that the worker has worked.
    pub fn worked_rows(&self, rt: &impl Abort, alloc: Global, worker: u32) -> Vec<PlainPair> {
        match self.worker_states.get(worker as usize) {
            Some(worker_state) => rows_within(rt, alloc, &self.rows, &worker_state.worked),
            None => Vec::new(alloc),
        }
    }

    // Whether the rows that the worker has worked decide the answer.
    fn is_settled(&self, rt: &impl Abort, alloc: Global, worker: u32) -> bool {
        let rows = self.worked_rows(rt, alloc, worker);
        let chosen = self.question.chosen(alloc, &rows).expect(rt, "no room");
        self.question.is_decided(chosen.len(), rows.len())
    }

    // Whether nothing waits and nothing is held.
    fn is_done(&self) -> bool {
        for worker_state in &self.worker_states {
            if worker_state.held.is_some() || !worker_state.queue.is_empty() {
                return false;
            }
        }
        true
    }

    /// Whether the job has an answer: all is worked, or some worker's rows decide.
    pub fn has_answer(&self, rt: &impl Abort, alloc: Global) -> bool {
        if self.is_done() {
            return true;
        }
        for worker in 0..self.worker_states.len().min(16) as u32 {
            if self.is_settled(rt, alloc, worker) {
                return true;
            }
        }
        false
    }
}

// The progress of a worker that got a span, or got none.
fn took(span: Option<Span>) -> Progress {
    match span {
        Some((lo, hi)) => Progress::Took(lo, hi),
        None => Progress::Idle,
    }
}
