//! The worked steps of two workers, each beside its outcome: the keys P, Q and R have the path words 0,
//! 0xc000000000000000 and 1, so that P has position 0 and Q position 12.

use crate::plain_outcome::PlainOutcome;
use crate::plans::Plan;
use core_steps::{Move, Progress};
use std::alloc::{AllocError, Global};
use test_keys::ChosenKey;
use test_machine::{ALL, Do, Question};

/// A step, and its outcome.
pub type Case = (Plan, PlainOutcome);

/// The end of all positions.
pub const END: u128 = 1 << 64;

const P: ChosenKey = ChosenKey { path: 0, id: 0 };

const Q: ChosenKey = ChosenKey {
    path: 0xc000_0000_0000_0000,
    id: 0,
};

const R: ChosenKey = ChosenKey { path: 1, id: 0 };

/// The count of all pairs.
pub const COUNT: Question = Question::Count(ALL);

// P=1 and Q=2 are put on handle 1.
const PUT: [Case; 3] = [
    (Plan::Open(1), PlainOutcome::Unit),
    (Plan::On(1, Do::Put(P, 1)), PlainOutcome::Old(None)),
    (Plan::On(1, Do::Put(Q, 2)), PlainOutcome::Old(None)),
];

// After a freeze R=3 is put; then worker 0 holds P's piece and worker 1 Q's.
const CUT: [Case; 4] = [
    (Plan::On(1, Do::Put(R, 3)), PlainOutcome::Old(None)),
    (
        Plan::Move(0, Move::Take(0)),
        PlainOutcome::Moved(Progress::Took(0, END)),
    ),
    (
        Plan::Move(0, Move::Split(0)),
        PlainOutcome::Moved(Progress::Cut(0, 12, END)),
    ),
    (
        Plan::Move(0, Move::Steal(1, 0)),
        PlainOutcome::Moved(Progress::Took(12, END)),
    ),
];

/// Then worker 1 works, worker 0 works, and the job is not finished before.
pub const WORKED: [Case; 3] = [
    (
        Plan::Move(0, Move::Work(1)),
        PlainOutcome::Moved(Progress::Worked(12, END, 1, false)),
    ),
    (Plan::Finish(0), PlainOutcome::Unfinished),
    (
        Plan::Move(0, Move::Work(0)),
        PlainOutcome::Moved(Progress::Worked(0, 12, 1, false)),
    ),
];

/// The steps until each of two workers holds a piece of the map that is asked, and then these.
pub fn begun(alloc: Global, question: Question, more: &[Case]) -> Result<Vec<Case>, AllocError> {
    let mut rows = Vec::from_slice(alloc, &PUT)?;
    rows.push((Plan::Freeze(1, question), PlainOutcome::Job(0)))?;
    rows.extend_from_slice(&CUT)?;
    rows.extend_from_slice(more)?;
    Ok(rows)
}

/// The steps until both pieces are worked, and then these.
pub fn all_worked(
    alloc: Global,
    question: Question,
    more: &[Case],
) -> Result<Vec<Case>, AllocError> {
    let mut rows = begun(alloc, question, &WORKED)?;
    rows.extend_from_slice(more)?;
    Ok(rows)
}
