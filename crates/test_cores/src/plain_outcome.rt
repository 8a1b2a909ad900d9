//! The outcomes of a core, as plain values.

use bulk_ops::Part;
use bulk_work::Pair;
use core_steps::{Outcome, Progress};
use iter::{pairs, pairs_of};
use std::alloc::Global;
use test_keys::ChosenKey;
use test_machine::{PlainPair, TableOutcome, outcome_of_answer, outcome_of_reply, row_of};
use trie_node::NoMemory;
use versions::{Refusal, Version, View};

/// An outcome of the tests.
pub type TestOutcome = Outcome<ChosenKey, u64, i128>;

/// A part of the tests.
pub type TestPart = Part<ChosenKey, u64, i128>;

/// An outcome: of a view nothing, of a pair that is found only that there is one, and of a map that is made its size.
#[derive(Clone, Copy, Debug, PartialEq, Eq)]
pub enum PlainOutcome {
    Unit,
    Old(Option<u64>),
    Done(bool),
    Size(u64),
    Cleared,
    Viewed,
    Job(u64),
    Count(u64),
    Truth(bool),
    Found(bool),
    Made(u64),
    Total(i128),
    Unfinished,
    Abandoned,
    Moved(Progress),
    Refused(Refusal),
}

/// The outcome of a request, as the outcome of a step.
pub fn outcome_of(returned: TableOutcome) -> PlainOutcome {
    match returned {
        TableOutcome::Unit => PlainOutcome::Unit,
        TableOutcome::Old(value) => PlainOutcome::Old(value),
        TableOutcome::Done(done) => PlainOutcome::Done(done),
        TableOutcome::Size(size) => PlainOutcome::Size(size),
        TableOutcome::Cleared => PlainOutcome::Cleared,
        TableOutcome::Viewed => PlainOutcome::Viewed,
        TableOutcome::Frozen(job) => PlainOutcome::Job(job),
        TableOutcome::Count(count) => PlainOutcome::Count(count),
        TableOutcome::Truth(truth) => PlainOutcome::Truth(truth),
        TableOutcome::Found(found) => PlainOutcome::Found(found),
        TableOutcome::Made(size) => PlainOutcome::Made(size),
        TableOutcome::Total(total) => PlainOutcome::Total(total),
        TableOutcome::Abandoned => PlainOutcome::Abandoned,
        TableOutcome::Refused(refusal) => PlainOutcome::Refused(refusal),
    }
}

/// An outcome as a plain value.
pub fn plain_of(outcome: &TestOutcome) -> PlainOutcome {
    match outcome {
        Outcome::Reply(reply) => outcome_of(outcome_of_reply(reply)),
        Outcome::View(_) => PlainOutcome::Viewed,
        Outcome::Frozen(job) => PlainOutcome::Job(*job),
        Outcome::Answer(answer) => outcome_of(outcome_of_answer(answer)),
        Outcome::Unfinished => PlainOutcome::Unfinished,
        Outcome::Abandoned => PlainOutcome::Abandoned,
        Outcome::Moved(progress) => PlainOutcome::Moved(*progress),
        Outcome::Refused(refusal) => PlainOutcome::Refused(*refusal),
    }
}

/// A part as a plain value.
pub fn plain_part(part: &TestPart) -> PlainOutcome {
    match part {
        Part::Number(count) => PlainOutcome::Count(*count),
        Part::Truth(truth) => PlainOutcome::Truth(*truth),
        Part::Found(found) => PlainOutcome::Found(found.is_some()),
        Part::Made(map) => PlainOutcome::Made(map.len()),
        Part::Images(_, view) => PlainOutcome::Made(view.len()),
        Part::Item(item) => PlainOutcome::Total(*item),
    }
}

/// The rows of a view, in the order of a walk.
pub fn rows_of_view(
    alloc: Global,
    view: &View<ChosenKey, u64>,
) -> Result<Vec<PlainPair>, NoMemory> {
    let mut rows = Vec::new(alloc);
    for (key, value) in pairs(alloc, view)? {
        rows.push(row_of(**key, **value))?;
    }
    Ok(rows)
}

/// The rows of a map, in the order of a walk.
pub fn rows_of_map(
    alloc: Global,
    map: &Version<ChosenKey, u64>,
) -> Result<Vec<PlainPair>, NoMemory> {
    let mut rows = Vec::new(alloc);
    for (key, value) in pairs_of(alloc, map)? {
        rows.push(row_of(**key, **value))?;
    }
    Ok(rows)
}

/// The row of a pair that is found.
pub fn found_row(found: &Option<Pair<ChosenKey, u64>>) -> Option<PlainPair> {
    match found {
        Some((key, value)) => Some(row_of(**key, **value)),
        None => None,
    }
}
