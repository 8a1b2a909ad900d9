//! Worked lists of steps, by hand: each step by step, and once more as one list. The keys a, b and c have the path words
//! of those texts.

use super::{assert_is, assert_run, assert_steps, core_of_two, outcomes_of, plans_of};
use bulk_ops::Part;
use core_steps::{Move, Progress};
use std::alloc::Global;
use std::panic::Expect;
use std::process::Abort;
use test_cores::{
    COUNT, Case, END, PlainOutcome, Plan, TestCore, WORKED, all_worked, begun, found_row,
    plain_part,
};
use test_keys::ChosenKey;
use test_machine::{ALL, Do, Passing, Place, Question};
use versions::Refusal;

const A: ChosenKey = ChosenKey {
    path: 0xaf63_dc4c_8601_ec8c,
    id: 0,
};

const B: ChosenKey = ChosenKey {
    path: 0xaf63_df4c_8601_f1a5,
    id: 0,
};

const C: ChosenKey = ChosenKey {
    path: 0xaf63_de4c_8601_eff2,
    id: 0,
};

// A new core returns these outcomes for the steps as one list.
fn assert_list(rt: &impl Abort, alloc: Global, rows: &[Case]) {
    let plans = plans_of(rt, alloc, rows);
    let returned = outcomes_of(rt, alloc, rows);
    let mut core = core_of_two(rt, alloc);
    assert_run(rt, alloc, &mut core, &plans, &returned);
}

// A new core returns these outcomes for the steps, one after another and as one list.
fn assert_rows(rt: &impl Abort, alloc: Global, rows: &[Case]) -> TestCore {
    assert_list(rt, alloc, rows);
    let mut core = core_of_two(rt, alloc);
    assert_steps(rt, alloc, &mut core, rows);
    core
}

// A new core, each of whose workers holds a piece of the map that is asked, returns these outcomes for the steps.
fn after(rt: &impl Abort, alloc: Global, question: Question, more: &[Case]) -> TestCore {
    let rows = begun(alloc, question, more).expect(rt, "no rows");
    assert_rows(rt, alloc, &rows)
}

// The place and the value of the pair that the part of a worker of job 0 has found.
fn found_by(core: &TestCore, worker: u32) -> Option<(Place, u64)> {
    match core.part(0, worker) {
        Some(Part::Found(found)) => found_row(found).map(|row| (row.place, row.value)),
        _ => None,
    }
}

// The part of a worker of job 0 has found the pair of a position.
fn assert_found(rt: &impl Abort, core: &TestCore, worker: u32, position: u128, value: u64) {
    let place = (position, 0);
    assert_is(rt, found_by(core, worker), Some((place, value)));
}

const FOUND: [Case; 1] = [(
    Plan::Move(0, Move::Work(1)),
    PlainOutcome::Moved(Progress::Worked(12, END, 1, true)),
)];

const FOUND_TOO: [Case; 4] = [
    (
        Plan::Move(0, Move::Take(1)),
        PlainOutcome::Moved(Progress::Idle),
    ),
    (
        Plan::Move(0, Move::Take(2)),
        PlainOutcome::Refused(Refusal::NoWorker),
    ),
    (
        Plan::Move(1, Move::Take(1)),
        PlainOutcome::Refused(Refusal::NoJob),
    ),
    (
        Plan::Move(0, Move::Work(0)),
        PlainOutcome::Moved(Progress::Worked(0, 12, 1, true)),
    ),
];

#[test]
fn a_found_pair_stays_with_its_worker(rt: HostRuntime) {
    let mut core = after(&rt, rt.alloc(), Question::Find(ALL), &FOUND);
    assert_found(&rt, &core, 1, 12, 2);
    assert_steps(&rt, rt.alloc(), &mut core, &FOUND_TOO);
    assert_found(&rt, &core, 1, 12, 2);
    assert_found(&rt, &core, 0, 0, 1);
    let rows = [(Plan::Finish(0), PlainOutcome::Found(true))];
    assert_steps(&rt, rt.alloc(), &mut core, &rows);
}

// The part of a worker of a job has this plain value, if there is one.
fn assert_part(
    rt: &impl Abort,
    core: &TestCore,
    job: u64,
    worker: u32,
    want: Option<PlainOutcome>,
) {
    assert_is(rt, core.part(job, worker).map(plain_part), want);
}

// The outcomes when both pieces are worked and counted.
const COUNTED: [Case; 3] = [
    (Plan::Finish(0), PlainOutcome::Count(2)),
    (
        Plan::Move(0, Move::Take(0)),
        PlainOutcome::Refused(Refusal::NoJob),
    ),
    (Plan::On(1, Do::Size), PlainOutcome::Size(3)),
];

#[test]
fn a_stolen_piece_is_counted_once(rt: HostRuntime) {
    let mut core = after(&rt, rt.alloc(), COUNT, &WORKED);
    assert_part(&rt, &core, 0, 0, Some(PlainOutcome::Count(1)));
    assert_part(&rt, &core, 0, 1, Some(PlainOutcome::Count(1)));
    assert_part(&rt, &core, 0, 2, None);
    assert_part(&rt, &core, 1, 0, None);
    assert_steps(&rt, rt.alloc(), &mut core, &COUNTED);
    assert_part(&rt, &core, 0, 0, None);
}

#[test]
fn a_stolen_piece_is_counted_once_in_one_list(rt: HostRuntime) {
    let rows = all_worked(rt.alloc(), COUNT, &COUNTED).expect(&rt, "no rows");
    assert_list(&rt, rt.alloc(), &rows);
}

const SETTLED: [Case; 2] = [
    (
        Plan::Move(0, Move::Work(1)),
        PlainOutcome::Moved(Progress::Worked(12, END, 1, true)),
    ),
    (Plan::Finish(0), PlainOutcome::Truth(true)),
];

#[test]
fn a_settled_part_answers_for_all(rt: HostRuntime) {
    let question = Question::Exists(Passing {
        least: 2,
        most: 2,
        odd: true,
    });
    after(&rt, rt.alloc(), question, &SETTLED);
}

const IDLE: [Case; 8] = [
    (
        Plan::Move(0, Move::Take(1)),
        PlainOutcome::Moved(Progress::Idle),
    ),
    (
        Plan::Move(0, Move::Steal(1, 2)),
        PlainOutcome::Refused(Refusal::NoWorker),
    ),
    (
        Plan::Move(1, Move::Steal(1, 2)),
        PlainOutcome::Refused(Refusal::NoJob),
    ),
    (
        Plan::Move(0, Move::Split(0)),
        PlainOutcome::Moved(Progress::Whole),
    ),
    (
        Plan::Move(0, Move::Work(1)),
        PlainOutcome::Moved(Progress::Worked(12, END, 1, false)),
    ),
    (
        Plan::Move(0, Move::Take(1)),
        PlainOutcome::Moved(Progress::Idle),
    ),
    (Plan::Abandon(0), PlainOutcome::Abandoned),
    (Plan::Finish(0), PlainOutcome::Refused(Refusal::NoJob)),
];

#[test]
fn idle_whole_and_no_worker(rt: HostRuntime) {
    after(&rt, rt.alloc(), COUNT, &IDLE);
}

// The cut points of the three keys.
const FIRST: u128 = 6_917_529_027_641_081_856;

const SECOND: u128 = 10_376_293_541_461_622_784;

const THREE_KEYS: [Case; 16] = [
    (Plan::Open(1), PlainOutcome::Unit),
    (Plan::On(1, Do::Put(A, 1)), PlainOutcome::Old(None)),
    (Plan::On(1, Do::Put(B, 2)), PlainOutcome::Old(None)),
    (Plan::On(1, Do::Put(C, 3)), PlainOutcome::Old(None)),
    (Plan::Freeze(1, COUNT), PlainOutcome::Job(0)),
    (
        Plan::Move(0, Move::Take(0)),
        PlainOutcome::Moved(Progress::Took(0, END)),
    ),
    (
        Plan::Move(0, Move::Split(0)),
        PlainOutcome::Moved(Progress::Cut(0, FIRST, END)),
    ),
    (
        Plan::Move(0, Move::Split(0)),
        PlainOutcome::Moved(Progress::Whole),
    ),
    (
        Plan::Move(0, Move::Work(0)),
        PlainOutcome::Moved(Progress::Worked(0, FIRST, 1, false)),
    ),
    (
        Plan::Move(0, Move::Take(0)),
        PlainOutcome::Moved(Progress::Took(FIRST, END)),
    ),
    (
        Plan::Move(0, Move::Split(0)),
        PlainOutcome::Moved(Progress::Cut(FIRST, SECOND, END)),
    ),
    (
        Plan::Move(0, Move::Steal(1, 0)),
        PlainOutcome::Moved(Progress::Took(SECOND, END)),
    ),
    (Plan::Finish(0), PlainOutcome::Unfinished),
    (
        Plan::Move(0, Move::Work(1)),
        PlainOutcome::Moved(Progress::Worked(SECOND, END, 1, false)),
    ),
    (
        Plan::Move(0, Move::Work(0)),
        PlainOutcome::Moved(Progress::Worked(FIRST, SECOND, 1, false)),
    ),
    (Plan::Finish(0), PlainOutcome::Count(3)),
];

#[test]
fn three_keys_in_three_pieces(rt: HostRuntime) {
    assert_rows(&rt, rt.alloc(), &THREE_KEYS);
}
