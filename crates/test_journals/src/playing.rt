//! What was played beside what the steps say.
use crate::model::{entries_where, replayed};
use crate::script::{Ending, lent, script_of};
use crate::steps::{Step, entry_in, outcome_in};
use crate::unlike::Unlike;
use handles::Limits;
use std::alloc::Global;
use std::sync::Wait;
use std::thread::Threads;
use test_clients::{Entered, Outcome, TestClosed, seen_in};
use test_keys::ChosenKey;
use versions::{Refusal, View};

/// A job that is abandoned in the table of a closed map, and why that is refused, if it is.
pub type End = (u64, Option<Refusal>);

// Each step has its outcome.
fn compare_outcomes(returned: &[Outcome], steps: &[Step]) -> Result<(), Unlike> {
    if returned.len() != steps.len() {
        return Err(Unlike::Outcomes(returned.len(), steps.len()));
    }
    for (returned, step) in returned.iter().zip(steps) {
        let wanted = outcome_in(*step);
        if *returned != wanted {
            return Err(Unlike::Outcome(*returned, wanted));
        }
    }
    Ok(())
}

// The views that are kept show what they showed.
fn compare_kept(views: &[View<ChosenKey, u64>], steps: &[Step]) -> Result<(), Unlike> {
    let mut rest = views.iter();
    for step in steps {
        if let Step::Keep(_, _, wanted) = step {
            let seen = match rest.next() {
                Some(view) => Some(seen_in(view)),
                None => None,
            };
            if seen != Some(*wanted) {
                return Err(Unlike::Kept(seen, *wanted));
            }
        }
    }
    Ok(())
}

// The table answers so where the jobs are abandoned.
fn compare_ends(closed: &mut TestClosed, ends: &[End]) -> Result<(), Unlike> {
    for (job, wanted) in ends {
        let refusal = closed.table.abandon(*job).err();
        if refusal != *wanted {
            return Err(Unlike::End(*job, refusal, *wanted));
        }
    }
    Ok(())
}

// The entries are those that the steps say, in order.
fn compare_entries(entries: &[Entered], steps: &[Step]) -> Result<(), Unlike> {
    let mut place = 0usize;
    for step in steps {
        if let Some(wanted) = entry_in(*step) {
            let entry = entries.get(place).copied();
            if entry != Some(wanted) {
                return Err(Unlike::Entry(entry, Some(wanted)));
            }
            place = place.saturating_add(1);
        }
    }
    match entries.get(place) {
        Some(entry) => Err(Unlike::Entry(Some(*entry), None)),
        None => Ok(()),
    }
}

// The entries of a map that was closed. A plain program comes to the same table, which answers so.
fn entries_left(
    alloc: Global,
    limits: Limits,
    closed: Option<TestClosed>,
    ends: &[End],
) -> Result<Vec<Entered>, Unlike> {
    let Some(closed) = closed else {
        return Err(Unlike::Torn);
    };
    let mut closed = closed;
    let entries = replayed(alloc, limits, &closed);
    let compared = compare_ends(&mut closed, ends);
    drop(closed);
    entries_where(compared, entries?)
}

/// Each step has the outcome that it says, and the map closes. A plain program comes to the same table from the entries
/// of its journal, which are handed over.
///
/// # Errors
///
/// What is otherwise.
pub fn played<R: Threads + Wait + Sync>(
    rt: &R,
    alloc: Global,
    seats: u32,
    limits: Limits,
    steps: &[Step],
    ends: &[End],
) -> Result<Vec<Entered>, Unlike> {
    let script = script_of(alloc, steps, Ending::All)?;
    let (both, closed) = lent(rt, alloc, seats, limits, script)?;
    let (returned, views) = both;
    let outcomes = compare_outcomes(&returned, steps);
    drop(returned);
    let entries = entries_left(alloc, limits, closed, ends);
    let kept = compare_kept(&views, steps);
    drop(views);
    outcomes?;
    entries_where(kept, entries?)
}

/// The same, and the entries are those that the steps say, in order.
///
/// # Errors
///
/// What is otherwise.
pub fn played_and_filed<R: Threads + Wait + Sync>(
    rt: &R,
    alloc: Global,
    seats: u32,
    limits: Limits,
    steps: &[Step],
    ends: &[End],
) -> Result<(), Unlike> {
    let entries = played(rt, alloc, seats, limits, steps, ends)?;
    let compared = compare_entries(&entries, steps);
    drop(entries);
    compared
}
