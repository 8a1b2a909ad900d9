//! The outcomes of a table, as plain values.

use crate::asking::ThreeItems;
use bulk_work::{Answer, Pair};
use handles::{CallReply, Reply};
use std::sync::Arc;
use test_keys::ChosenKey;
use versions::{Refusal, View};

/// The outcome of a step: of a view its number of pairs and the value of the key 97, and of a pair that is found the
/// path word of its key and its value.
#[derive(Clone, Copy, Debug, PartialEq)]
pub enum PlainOutcome {
    Unit,
    Old(Option<i64>),
    Done(bool),
    Size(u64),
    Cleared,
    Viewed(u64, Option<i64>),
    Frozen(u64, u64, Option<i64>),
    Count(u64),
    Truth(bool),
    Found(Option<(u64, i64)>),
    Made(u64),
    Item(i128, Option<i64>, Option<i64>),
    Refused(Refusal),
}

/// What a call returns.
pub fn call_outcome_of(answer: &Result<CallReply<i64>, Refusal>) -> PlainOutcome {
    match answer {
        Ok(CallReply::Unit) => PlainOutcome::Unit,
        Ok(CallReply::Reply(reply)) => reply_outcome(reply),
        Err(refusal) => PlainOutcome::Refused(*refusal),
    }
}

// What a reply says.
fn reply_outcome(reply: &Reply<i64>) -> PlainOutcome {
    match reply {
        Reply::Old(value) => PlainOutcome::Old(old_value(value)),
        Reply::Done(done) => PlainOutcome::Done(*done),
        Reply::Size(size) => PlainOutcome::Size(*size),
        Reply::Cleared => PlainOutcome::Cleared,
    }
}

// The value before.
fn old_value(value: &Option<Arc<i64>>) -> Option<i64> {
    match value {
        Some(value) => Some(**value),
        None => None,
    }
}

/// The value of the key 97.
pub fn value_in(view: &View<ChosenKey, i64>) -> Option<i64> {
    match view.get(&ChosenKey { path: 97, id: 0 }) {
        Some(value) => Some(**value),
        None => None,
    }
}

/// What a view returns.
pub fn view_outcome(answer: &Result<View<ChosenKey, i64>, Refusal>) -> PlainOutcome {
    match answer {
        Ok(view) => PlainOutcome::Viewed(view.len(), value_in(view)),
        Err(refusal) => PlainOutcome::Refused(*refusal),
    }
}

/// What a freeze returns.
pub fn freeze_outcome(answer: &Result<(u64, View<ChosenKey, i64>), Refusal>) -> PlainOutcome {
    match answer {
        Ok((job, view)) => PlainOutcome::Frozen(*job, view.len(), value_in(view)),
        Err(refusal) => PlainOutcome::Refused(*refusal),
    }
}

/// What a finish returns.
pub fn finish_outcome(
    answer: &Result<Answer<ChosenKey, i64, ThreeItems>, Refusal>,
) -> PlainOutcome {
    match answer {
        Ok(answer) => answer_outcome(answer),
        Err(refusal) => PlainOutcome::Refused(*refusal),
    }
}

// What an answer says.
fn answer_outcome(answer: &Answer<ChosenKey, i64, ThreeItems>) -> PlainOutcome {
    match answer {
        Answer::Count(count) => PlainOutcome::Count(*count),
        Answer::Truth(truth) => PlainOutcome::Truth(*truth),
        Answer::Found(found) => PlainOutcome::Found(found_pair(found)),
        Answer::Made(count) => PlainOutcome::Made(*count),
        Answer::Images(map) => PlainOutcome::Made(map.len()),
        Answer::Item((sum, (least, greatest))) => PlainOutcome::Item(*sum, *least, *greatest),
    }
}

// The pair that is found.
fn found_pair(found: &Option<Pair<ChosenKey, i64>>) -> Option<(u64, i64)> {
    match found {
        Some(pair) => Some((pair.0.path, *pair.1)),
        None => None,
    }
}

/// The outcome where there is nothing but a refusal to report.
pub fn unit_outcome(answer: Result<(), Refusal>) -> PlainOutcome {
    match answer {
        Ok(()) => PlainOutcome::Unit,
        Err(refusal) => PlainOutcome::Refused(refusal),
    }
}
