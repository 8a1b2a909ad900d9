//! Each public call once, as far as the other tests do not make it.

use super::{answer_to, assert_is, assert_outcome, assert_true, core_of_two};
use core_steps::{Move, Progress};
use std::alloc::Global;
use std::panic::Expect;
use std::process::Abort;
use test_cores::{Case, END, PlainOutcome, Plan, TestCore, plain_of, step_of};
use test_keys::ChosenKey;
use test_machine::{Do, Question};

const KEY: ChosenKey = ChosenKey { path: 0, id: 7 };

// Each kind of step, and its outcome.
const STEPS: [Case; 21] = [
    (Plan::Open(1), PlainOutcome::Unit),
    (
        Plan::On(1, Do::PutIfAbsent(KEY, 1)),
        PlainOutcome::Old(None),
    ),
    (Plan::On(1, Do::Put(KEY, 2)), PlainOutcome::Old(Some(1))),
    (Plan::On(1, Do::Replace(KEY, 3)), PlainOutcome::Old(Some(2))),
    (
        Plan::On(1, Do::ReplaceIf(KEY, 3, 4)),
        PlainOutcome::Done(true),
    ),
    (Plan::On(1, Do::RemoveIf(KEY, 3)), PlainOutcome::Done(false)),
    (Plan::On(1, Do::Get(KEY)), PlainOutcome::Old(Some(4))),
    (Plan::Snapshot(1, 2), PlainOutcome::Unit),
    (Plan::On(1, Do::Remove(KEY)), PlainOutcome::Old(Some(4))),
    (Plan::Freeze(2, Question::Total), PlainOutcome::Job(0)),
    (Plan::On(2, Do::Size), PlainOutcome::Size(1)),
    (Plan::On(2, Do::Clear), PlainOutcome::Cleared),
    (Plan::View(2), PlainOutcome::Viewed),
    (Plan::Drop(2), PlainOutcome::Unit),
    (
        Plan::Move(0, Move::Take(0)),
        PlainOutcome::Moved(Progress::Took(0, END)),
    ),
    (
        Plan::Move(0, Move::Split(0)),
        PlainOutcome::Moved(Progress::Whole),
    ),
    (
        Plan::Move(0, Move::Steal(1, 0)),
        PlainOutcome::Moved(Progress::Idle),
    ),
    (
        Plan::Move(0, Move::Work(0)),
        PlainOutcome::Moved(Progress::Worked(0, END, 1, false)),
    ),
    (Plan::Finish(0), PlainOutcome::Total(4)),
    (Plan::Freeze(1, Question::Zeros(3)), PlainOutcome::Job(1)),
    (Plan::Abandon(1), PlainOutcome::Abandoned),
];

// A copy of a step has this outcome.
fn assert_copy(rt: &impl Abort, alloc: Global, core: &mut TestCore, row: Case) {
    let step = step_of(alloc, row.0).expect(rt, "no step");
    let copy = step.try_clone().expect(rt, "no copy");
    drop(step);
    let outcome = answer_to(rt, alloc, core, copy);
    assert_outcome(rt, plain_of(&outcome), row.1);
}

#[test]
fn a_copy_of_a_step_returns_the_same(rt: HostRuntime) {
    let mut core = core_of_two(&rt, rt.alloc());
    assert_is(&rt, core.workers(), 2);
    for row in STEPS {
        assert_copy(&rt, rt.alloc(), &mut core, row);
    }
}

#[test]
fn a_move_names_workers(rt: HostRuntime) {
    for chosen in [
        Move::Take(2),
        Move::Steal(2, 1),
        Move::Steal(1, 2),
        Move::Split(2),
    ] {
        assert_true(&rt, chosen.names_other(2));
        assert_true(&rt, !chosen.names_other(3));
    }
    assert_true(&rt, Move::Work(2).names_other(2));
    assert_true(&rt, !Move::Work(2).names_other(3));
}
