//! Refusals that are due while requests for memory are refused: all, then those that a few bytes do not serve, and so
//! on.
ghost use Rattle.bulk_ops.specs.Queries.{IsReady};
ghost use Rattle.core_steps.specs.Steps.{CanAsk, asked_by};

use super::memory::{FEW, TRIES, returned_if};
use super::{assert_is, assert_steps, core_of_two};
use core_steps::Move;
use handles::Limits;
use std::alloc::Global;
use std::panic::Expect;
use std::process::Abort;
use test_cores::{COUNT, Case, PlainOutcome, Plan, TestCore, TestStep, plain_of, step_of};
use test_keys::{ChosenKey, Shortage};
use test_machine::{ALL, Do, Question};
use versions::Refusal;

const KEY: ChosenKey = ChosenKey { path: 0, id: 0 };

// The number of a map that is made is reserved.
const MAKES_2: Question = Question::Filter(ALL, 2);

const MAKES_1: Question = Question::Filter(ALL, 1);

const MAKES_1024: Question = Question::Filter(ALL, 1024);

// Whether the step has this outcome with no memory, with a little, and so on.
fn always_returns(
    rt: &impl Abort,
    alloc: Global,
    core: &mut TestCore,
    step: &TestStep,
    want: PlainOutcome,
) -> bool
    requires { CanAsk IsReady (asked_by step.now) }
{
    let mut shortage = Shortage::with_bytes(alloc, 0).expect(rt, "no shortage");
    for _ in 0..TRIES {
        let outcome = returned_if(rt, alloc, core, step);
        if outcome.as_ref().map(plain_of) != Some(want) {
            return false;
        }
        shortage.give(alloc, FEW).expect(rt, "not given");
    }
    true
}

// The step has this outcome, whatever the memory.
fn assert_always(rt: &impl Abort, alloc: Global, core: &mut TestCore, row: Case) {
    let step = step_of(alloc, row.0).expect(rt, "no step");
    let is_returned = always_returns(rt, alloc, core, &step, row.1);
    assert_is(rt, (row.1, is_returned), (row.1, true));
}

// Each of the steps has its outcome, whatever the memory.
fn assert_all_always(rt: &impl Abort, alloc: Global, core: &mut TestCore, rows: &[Case]) {
    for row in rows {
        assert_always(rt, alloc, core, *row);
    }
}

// One pair is put under handle 1.
const PUT: [Case; 2] = [
    (Plan::Open(1), PlainOutcome::Unit),
    (Plan::On(1, Do::Put(KEY, 1)), PlainOutcome::Old(None)),
];

// A core with one pair under handle 1.
fn begun(rt: &impl Abort, alloc: Global) -> TestCore {
    let mut core = core_of_two(rt, alloc);
    assert_steps(rt, alloc, &mut core, &PUT);
    core
}

// The same with a job.
fn frozen(rt: &impl Abort, alloc: Global, question: Question) -> TestCore {
    let mut core = begun(rt, alloc);
    assert_steps(
        rt,
        alloc,
        &mut core,
        &[(Plan::Freeze(1, question), PlainOutcome::Job(0))],
    );
    core
}

const REFUSED_FREEZES: [Case; 5] = [
    (
        Plan::Freeze(1024, COUNT),
        PlainOutcome::Refused(Refusal::BadNumber),
    ),
    (
        Plan::Freeze(1, MAKES_1024),
        PlainOutcome::Refused(Refusal::BadNumber),
    ),
    (
        Plan::Freeze(3, COUNT),
        PlainOutcome::Refused(Refusal::NoHandle),
    ),
    (
        Plan::Freeze(1, MAKES_1),
        PlainOutcome::Refused(Refusal::Taken),
    ),
    (
        Plan::Freeze(1, MAKES_2),
        PlainOutcome::Refused(Refusal::Taken),
    ),
];

#[test]
fn a_freeze_is_refused_whatever_the_memory(rt: HostRuntime) {
    let mut core = frozen(&rt, rt.alloc(), MAKES_2);
    assert_all_always(&rt, rt.alloc(), &mut core, &REFUSED_FREEZES);
    let rows = [(Plan::Freeze(1, COUNT), PlainOutcome::Job(1))];
    assert_steps(&rt, rt.alloc(), &mut core, &rows);
}

// A core with 64 open jobs, whose numbers go from 0 to 63.
fn with_all_jobs(rt: &impl Abort, alloc: Global) -> TestCore {
    let mut core = begun(rt, alloc);
    for number in 0..64 {
        let row = (Plan::Freeze(1, COUNT), PlainOutcome::Job(number));
        assert_steps(rt, alloc, &mut core, &[row]);
    }
    core
}

const ONE_TOO_MANY: [Case; 2] = [
    (
        Plan::Freeze(1, COUNT),
        PlainOutcome::Refused(Refusal::TooManyJobs),
    ),
    (
        Plan::Freeze(3, COUNT),
        PlainOutcome::Refused(Refusal::NoHandle),
    ),
];

const ONE_LESS: [Case; 2] = [
    (Plan::Abandon(0), PlainOutcome::Abandoned),
    (Plan::Freeze(1, COUNT), PlainOutcome::Job(64)),
];

#[test]
fn a_65th_job_is_refused_whatever_the_memory(rt: HostRuntime) {
    let mut core = with_all_jobs(&rt, rt.alloc());
    assert_all_always(&rt, rt.alloc(), &mut core, &ONE_TOO_MANY);
    assert_steps(&rt, rt.alloc(), &mut core, &ONE_LESS);
}

const THREE_ENTRIES: Limits = Limits {
    pairs: 4,
    entries: 3,
};

const NO_ENTRY: [Case; 2] = [
    (
        Plan::Freeze(1, COUNT),
        PlainOutcome::Refused(Refusal::JournalFull),
    ),
    (
        Plan::Freeze(3, COUNT),
        PlainOutcome::Refused(Refusal::JournalFull),
    ),
];

#[test]
fn a_freeze_without_an_entry_is_refused_whatever_the_memory(rt: HostRuntime) {
    let made = TestCore::new(rt.alloc(), THREE_ENTRIES, 2, 1);
    let mut core = made.expect(&rt, "no core");
    assert_steps(&rt, rt.alloc(), &mut core, &PUT);
    assert_all_always(&rt, rt.alloc(), &mut core, &NO_ENTRY);
}

const REFUSED_MOVES: [Case; 11] = [
    (
        Plan::Move(1, Move::Take(0)),
        PlainOutcome::Refused(Refusal::NoJob),
    ),
    (
        Plan::Move(1, Move::Steal(1, 0)),
        PlainOutcome::Refused(Refusal::NoJob),
    ),
    (
        Plan::Move(1, Move::Split(0)),
        PlainOutcome::Refused(Refusal::NoJob),
    ),
    (
        Plan::Move(1, Move::Work(2)),
        PlainOutcome::Refused(Refusal::NoJob),
    ),
    (
        Plan::Move(0, Move::Take(2)),
        PlainOutcome::Refused(Refusal::NoWorker),
    ),
    (
        Plan::Move(0, Move::Steal(2, 0)),
        PlainOutcome::Refused(Refusal::NoWorker),
    ),
    (
        Plan::Move(0, Move::Steal(0, 2)),
        PlainOutcome::Refused(Refusal::NoWorker),
    ),
    (
        Plan::Move(0, Move::Split(2)),
        PlainOutcome::Refused(Refusal::NoWorker),
    ),
    (
        Plan::Move(0, Move::Work(2)),
        PlainOutcome::Refused(Refusal::NoWorker),
    ),
    (Plan::Finish(1), PlainOutcome::Refused(Refusal::NoJob)),
    (Plan::Abandon(1), PlainOutcome::Refused(Refusal::NoJob)),
];

#[test]
fn a_move_is_refused_whatever_the_memory(rt: HostRuntime) {
    let mut core = frozen(&rt, rt.alloc(), COUNT);
    assert_all_always(&rt, rt.alloc(), &mut core, &REFUSED_MOVES);
}

#[test]
fn a_finish_is_unfinished_whatever_the_memory(rt: HostRuntime) {
    let mut core = frozen(&rt, rt.alloc(), MAKES_2);
    let row = (Plan::Finish(0), PlainOutcome::Unfinished);
    assert_always(&rt, rt.alloc(), &mut core, row);
}
