//! Requests for memory that are refused, each in turn: those of a step, and those of a list of steps. After each
//! refusal the core has the maps, jobs and parts of a core that was refused nothing, and goes on as that one does.
ghost use Rattle.std.specs.Prelude.{All, ◌<◌, length};
ghost use Rattle.bulk_ops.specs.Queries.{IsReady};
ghost use Rattle.core_steps.specs.Steps.{CanAsk, asked_by};

use super::twins::Twins;
use super::{assert_is, assert_outcome};
use core_steps::Move;
use std::alloc::Global;
use std::panic::Expect;
use std::process::Abort;
use test_cores::{
    COUNT, Case, PlainOutcome, Plan, TestCore, TestOutcome, TestStep, all_worked, plain_of,
    step_of, steps_of,
};
use test_keys::Shortage;
use test_machine::{ALL, Do, Question};

/// How many bytes more each try of a step has. No request takes fewer of the C library's heap, so each of them is the
/// first to be refused at some try.
pub(super) const FEW: usize = 32;

/// More tries than any step needs.
pub(super) const TRIES: usize = 256;

// How many bytes more each try of a list has, and more tries than a list needs.
const MANY: usize = 256;

const LISTS: usize = 128;

// The number of the first step that puts a pair.
const FIRST_PUT: usize = 1;

/// What the core returns for a copy of the step, if it has the memory. The copy takes none.
pub(super) fn returned_if(
    rt: &impl Abort,
    alloc: Global,
    core: &mut TestCore,
    step: &TestStep,
) -> Option<TestOutcome>
    requires { CanAsk IsReady (asked_by step.now) }
{
    let copy = step.try_clone().expect(rt, "no copy");
    core.step(alloc, copy).ok()
}

// What the core returns for a step with `bytes` bytes of memory, if those are enough.
fn returned_with(
    rt: &impl Abort,
    alloc: Global,
    core: &mut TestCore,
    plan: Plan,
    bytes: usize,
) -> Option<TestOutcome> {
    let step = step_of(alloc, plan).expect(rt, "no step");
    let _shortage = Shortage::with_bytes(alloc, bytes).expect(rt, "no shortage");
    returned_if(rt, alloc, core, &step)
}

// The twins return these outcomes for the steps.
fn assert_twins(rt: &impl Abort, alloc: Global, twins: &mut Twins, rows: &[Case]) {
    for row in rows {
        twins.make(rt, alloc, *row);
    }
}

// Twins that have made the steps.
fn twins_after(rt: &impl Abort, alloc: Global, rows: &[Case]) -> Twins {
    let mut twins = Twins::new(rt, alloc);
    assert_twins(rt, alloc, &mut twins, rows);
    twins
}

// The core has the maps of the other's handles, its jobs and their parts.
fn assert_alike(rt: &impl Abort, alloc: Global, twins: &mut Twins) {
    twins.assert_parts(rt, alloc);
    twins.assert_maps(rt, alloc);
}

// The same, and it makes the steps as the other does.
fn assert_goes_on(rt: &impl Abort, alloc: Global, twins: &mut Twins, rows: &[Case]) {
    assert_alike(rt, alloc, twins);
    assert_twins(rt, alloc, twins, rows);
    assert_alike(rt, alloc, twins);
}

// The twins' next step has `bytes` bytes of memory: what the core returns for it, if those are enough. Else it is made
// with ample memory then.
fn returned_next(
    rt: &impl Abort,
    alloc: Global,
    twins: &mut Twins,
    row: Case,
    bytes: usize,
) -> Option<PlainOutcome> {
    let Some(outcome) = returned_with(rt, alloc, &mut twins.core, row.0, bytes) else {
        assert_goes_on(rt, alloc, twins, &[row]);
        return None;
    };
    twins.follow(rt, alloc, row, &outcome);
    Some(plain_of(&outcome))
}

// The outcome of the step with this number with `bytes` bytes of memory, if those are enough. The steps before it and
// those behind it have ample memory.
fn returned_at(
    rt: &impl Abort,
    alloc: Global,
    rows: &[Case],
    number: usize,
    bytes: usize,
) -> Option<PlainOutcome>
    requires { number < length rows.now }
{
    let mut twins = twins_after(rt, alloc, &rows[..number]);
    let returned = returned_next(rt, alloc, &mut twins, rows[number], bytes);
    assert_goes_on(rt, alloc, &mut twins, &rows[number + 1..]);
    returned
}

// The step with this number is refused with no memory, with a little, and so on, until it has its outcome: how often.
fn refusals(rt: &impl Abort, alloc: Global, rows: &[Case], number: usize) -> usize
    requires { number < length rows.now }
{
    for refused in 0..TRIES {
        if let Some(returned) = returned_at(rt, alloc, rows, number, refused * FEW) {
            assert_outcome(rt, returned, rows[number].1);
            return refused;
        }
    }
    TRIES
}

// Whether the step with this number, which has this outcome, makes a request for memory. A pair that is put into an
// empty map lies in the root, so that there is none.
fn asks_for_memory(row: Case, number: usize) -> bool {
    match row.0 {
        Plan::Open(_) | Plan::Freeze(_, _) => true,
        Plan::On(_, Do::Put(_, _)) => number != FIRST_PUT,
        Plan::Move(_, Move::Work(_)) => true,
        _ => matches!(row.1, PlainOutcome::Made(_)),
    }
}

// Each of the steps is refused as long as it has too little memory: never where it makes no request.
fn assert_each_refused(rt: &impl Abort, alloc: Global, rows: &[Case]) {
    for number in 0..rows.len() {
        let refused = refusals(rt, alloc, rows, number);
        let (row, is_refused) = (rows[number], refused > 0);
        let asks = asks_for_memory(row, number);
        assert_is(rt, (row.1, is_refused), (row.1, asks));
        assert_is(rt, (row.1, refused < TRIES), (row.1, true));
    }
}

const COUNTED: [Case; 3] = [
    (Plan::Finish(0), PlainOutcome::Count(2)),
    (Plan::On(1, Do::Size), PlainOutcome::Size(3)),
    (Plan::View(1), PlainOutcome::Viewed),
];

#[test]
fn a_count_goes_on_after_each_refusal(rt: HostRuntime) {
    let rows = all_worked(rt.alloc(), COUNT, &COUNTED).expect(&rt, "no rows");
    assert_each_refused(&rt, rt.alloc(), &rows);
}

const MADE: [Case; 3] = [
    (Plan::Finish(0), PlainOutcome::Made(2)),
    (Plan::On(2, Do::Size), PlainOutcome::Size(2)),
    (Plan::Drop(1), PlainOutcome::Unit),
];

#[test]
fn a_filter_goes_on_after_each_refusal(rt: HostRuntime) {
    let question = Question::Filter(ALL, 2);
    let rows = all_worked(rt.alloc(), question, &MADE).expect(&rt, "no rows");
    assert_each_refused(&rt, rt.alloc(), &rows);
}

// The plans of steps.
fn plans_of(rt: &impl Abort, alloc: Global, rows: &[Case]) -> Vec<Plan> {
    let mut plans = Vec::new(alloc);
    for row in rows {
        plans.push(row.0).expect(rt, "no room");
    }
    plans
}

// The outcomes of the steps as one list with `bytes` bytes of memory, as far as the core comes.
fn outcomes_with(
    rt: &impl Abort,
    alloc: Global,
    core: &mut TestCore,
    steps: &[TestStep],
    bytes: usize,
) -> Vec<TestOutcome>
    requires { All (λ step. CanAsk IsReady (asked_by step)) steps.now }
{
    let _shortage = Shortage::with_bytes(alloc, bytes).expect(rt, "no shortage");
    match core.run(alloc, steps) {
        Ok(trace) => trace.outcomes,
        Err((trace, _)) => trace.outcomes,
    }
}

// The core makes the steps as one list with `bytes` bytes of memory, as far as it comes: how many. The other makes the
// same.
fn made_with(
    rt: &impl Abort,
    alloc: Global,
    twins: &mut Twins,
    rows: &[Case],
    bytes: usize,
) -> usize {
    let plans = plans_of(rt, alloc, rows);
    let steps = steps_of(alloc, &plans).expect(rt, "no steps");
    let outcomes = outcomes_with(rt, alloc, &mut twins.core, &steps, bytes);
    for (outcome, row) in outcomes.iter().zip(rows) {
        assert_outcome(rt, plain_of(outcome), row.1);
        twins.follow(rt, alloc, *row, outcome);
    }
    outcomes.len()
}

// How many of the steps a new core makes as one list with `bytes` bytes of memory. It makes the others afterwards.
fn steps_made(rt: &impl Abort, alloc: Global, rows: &[Case], bytes: usize) -> usize {
    let mut twins = twins_after(rt, alloc, &[]);
    let made = made_with(rt, alloc, &mut twins, rows, bytes);
    assert!(rt; made <= rows.len());
    assert_goes_on(rt, alloc, &mut twins, &rows[made..]);
    made
}

#[test]
fn a_run_is_cut_short_and_goes_on(rt: HostRuntime) {
    let rows = all_worked(rt.alloc(), COUNT, &COUNTED).expect(&rt, "no rows");
    assert_is(&rt, steps_made(&rt, rt.alloc(), &rows, 0), 0);
    let mut longest = 0;
    for number in 1..LISTS {
        longest = steps_made(&rt, rt.alloc(), &rows, number * MANY);
    }
    assert_is(&rt, longest, rows.len());
}
