//! Many random lists of steps of clients and workers, each step of the core beside that of a plain program.

use super::assert_true;
use super::kinds::{KINDS, kind_of};
use super::twins::Twins;
use crate::choices::{FIRST_PAIRS, chooser_of};
use core_steps::Move;
use std::alloc::Global;
use std::panic::Expect;
use std::process::Abort;
use test_cores::{PlainOutcome, Plan};

// How many lists a test makes.
const LISTS: u32 = 500;

// How many steps are chosen for each list, after the first pairs.
const STEPS: u32 = 200;

// How many open jobs are worked to their end after a list.
const ENDED: usize = 3;

// What a worker has to do until it has nothing of the job.
fn left(twins: &Twins, number: u64, worker: u32) -> Option<Plan> {
    let worker_state = twins
        .machine
        .job(number)?
        .worker_states
        .get(worker as usize)?;
    if worker_state.held.is_some() {
        return Some(Plan::Move(number, Move::Work(worker)));
    }
    if worker_state.queue.is_empty() {
        return None;
    }
    Some(Plan::Move(number, Move::Take(worker)))
}

// The worker works all that it has of a job.
fn work_all(rt: &impl Abort, alloc: Global, twins: &mut Twins, number: u64, worker: u32) {
    for _ in 0..STEPS {
        let Some(plan) = left(twins, number, worker) else {
            return;
        };
        twins.make(rt, alloc, plan);
    }
}

// Works all that is left of a job, and collects its answer.
fn end(rt: &impl Abort, alloc: Global, twins: &mut Twins, number: u64) {
    for worker in 0..twins.machine.workers {
        work_all(rt, alloc, twins, number, worker);
    }
    let returned = twins.make(rt, alloc, Plan::Finish(number));
    assert_true(rt, returned != PlainOutcome::Unfinished);
}

// The number of the last open job.
fn last_job(twins: &Twins) -> Option<u64> {
    match twins.machine.jobs.last() {
        Some(job) => Some(job.number),
        None => None,
    }
}

// Ends the last open jobs.
fn end_some(rt: &impl Abort, alloc: Global, twins: &mut Twins) {
    for _ in 0..ENDED {
        if let Some(number) = last_job(twins) {
            end(rt, alloc, twins, number);
        }
    }
}

// The steps of one list.
fn made(rt: &impl Abort, alloc: Global, list: u32) -> Twins {
    let (mut chooser, machine) = chooser_of(alloc, list);
    let mut twins = Twins::new(rt, alloc, machine);
    twins.make(rt, alloc, Plan::Open(1));
    for _ in 0..FIRST_PAIRS {
        twins.make(rt, alloc, chooser.first_put());
    }
    for _ in 0..STEPS {
        let plan = chooser.next(&twins.machine);
        twins.make(rt, alloc, plan);
    }
    twins
}

// Counts the kinds of the outcomes.
fn count_kinds(met: &mut Vec<u32>, returned: &[PlainOutcome]) {
    for returned in returned {
        if let Some(count) = met.get_mut(kind_of(*returned)) {
            *count = count.saturating_add(1);
        }
    }
}

// No count of a kind.
fn no_kinds(rt: &impl Abort, alloc: Global) -> Vec<u32> {
    let mut met = Vec::new(alloc);
    for _ in 0..KINDS {
        met.push(0).expect(rt, "no room");
    }
    met
}

// The list with this number beside a plain machine. The kinds of its outcomes are counted.
fn assert_list(rt: &impl Abort, alloc: Global, list: u32, met: &mut Vec<u32>) {
    let mut twins = made(rt, alloc, list);
    twins.assert_parts(rt, alloc);
    twins.assert_maps(rt, alloc);
    end_some(rt, alloc, &mut twins);
    twins.assert_maps(rt, alloc);
    twins.assert_run(rt, alloc);
    count_kinds(met, &twins.returned);
}

// Lists from the number on, all beside plain machines. Each kind of outcome is met.
fn assert_lists(rt: &impl Abort, alloc: Global, first: u32) {
    let mut met = no_kinds(rt, alloc);
    for number in 0..LISTS {
        assert_list(rt, alloc, first.saturating_add(number), &mut met);
    }
    assert_true(rt, !met.contains(&0));
}

#[test]
fn first_random_steps_agree_with_a_plain_machine(rt: HostRuntime) {
    assert_lists(&rt, rt.alloc(), 0);
}

#[test]
fn second_random_steps_agree_with_a_plain_machine(rt: HostRuntime) {
    assert_lists(&rt, rt.alloc(), LISTS);
}

#[test]
fn third_random_steps_agree_with_a_plain_machine(rt: HostRuntime) {
    assert_lists(&rt, rt.alloc(), 2 * LISTS);
}

#[test]
fn fourth_random_steps_agree_with_a_plain_machine(rt: HostRuntime) {
    assert_lists(&rt, rt.alloc(), 3 * LISTS);
}
