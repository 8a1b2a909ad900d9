//! The outcomes of seats, as plain values.
use crate::constants::{KEYS, NOTHING};
use bulk_work::Answer;
use handles::{CallReply, Outcome as Filed};
use std::sync::Arc;
use test_keys::ChosenKey;
use test_machine::{PlainPair, TableOutcome, outcome_of_reply, value_of};
use versions::{Refusal, View};

/// What a view shows: how many pairs there are, and the value of each key of the tests.
#[derive(Clone, Copy, Debug, PartialEq, Eq)]
pub struct Seen {
    pub len: u64,
    pub values: [Option<u64>; 4],
}

/// What a call of a seat returns, as a plain value.
#[derive(Clone, Copy, Debug, PartialEq, Eq)]
pub enum Outcome {
    Unit,
    Old(Option<u64>),
    Done(bool),
    Size(u64),
    Cleared,
    View(Seen),
    Frozen(u64, Seen),
    Count(u64),
    Truth(bool),
    Found(Option<(u64, u64)>),
    Made(u64),
    Total(i128),
    Abandoned,
    Refused(Refusal),
    /// A value was got or stored: whether it was made for that, and which it is.
    Got(bool, u64),
    /// None was, and whether one was made.
    NotGot(bool, Refusal),
    /// A bulk call was refused, and the ticket of its job came back.
    Returned(Refusal),
    /// The test had no memory or no ticket to ask with, or a request for memory was to be refused and none was.
    Lost,
}

impl Outcome {
    /// Whether it makes an entry in the journal.
    pub fn is_entry(self) -> bool {
        !matches!(
            self,
            Outcome::Refused(Refusal::JournalFull | Refusal::NoJob | Refusal::NoMemory)
        )
    }
}

/// What the view shows.
pub fn seen_in(view: &View<ChosenKey, u64>) -> Seen {
    let mut values = [None; 4];
    for (value, key) in values.iter_mut().zip(KEYS) {
        *value = match view.get(&key) {
            Some(found) => Some(**found),
            None => None,
        };
    }
    Seen {
        len: view.len(),
        values,
    }
}

/// What a view of the rows shows.
pub fn shown(rows: &[PlainPair]) -> Seen {
    let mut shown = NOTHING;
    shown.len = rows.len() as u64;
    for (value, key) in shown.values.iter_mut().zip(KEYS) {
        *value = value_of(rows, key);
    }
    shown
}

/// The outcome of a value that was got or stored.
pub fn got_outcome(is_made: bool, answer: &Result<Arc<u64>, Refusal>) -> Outcome {
    match answer {
        Ok(value) => Outcome::Got(is_made, **value),
        Err(refusal) => Outcome::NotGot(is_made, *refusal),
    }
}

/// What a call returns.
pub fn call_outcome_of(answer: &Result<CallReply<u64>, Refusal>) -> Outcome {
    match answer {
        Ok(reply) => reply_outcome(reply),
        Err(refusal) => Outcome::Refused(*refusal),
    }
}

/// What a view returns.
pub fn view_outcome(answer: &Result<View<ChosenKey, u64>, Refusal>) -> Outcome {
    match answer {
        Ok(view) => Outcome::View(seen_in(view)),
        Err(refusal) => Outcome::Refused(*refusal),
    }
}

/// What the answer of a job says, which is dropped.
pub fn outcome_of_job(answer: Answer<ChosenKey, u64, i128>) -> Outcome {
    let returned = answer_outcome(&answer);
    drop(answer);
    returned
}

// What the answer of a job says.
fn answer_outcome(answer: &Answer<ChosenKey, u64, i128>) -> Outcome {
    let found = match answer {
        Answer::Found(Some((key, value))) => Some((key.path, **value)),
        _ => None,
    };
    outcome_of(test_machine::outcome_of_answer(answer), NOTHING, found)
}

// What a reply says.
fn reply_outcome(reply: &CallReply<u64>) -> Outcome {
    outcome_of(outcome_of_reply(reply), NOTHING, None)
}

/// The outcome of a request, with what a view or a freeze shows and the pair that is found.
pub fn outcome_of(returned: TableOutcome, seen: Seen, found: Option<(u64, u64)>) -> Outcome {
    match returned {
        TableOutcome::Unit => Outcome::Unit,
        TableOutcome::Old(value) => Outcome::Old(value),
        TableOutcome::Done(done) => Outcome::Done(done),
        TableOutcome::Size(count) => Outcome::Size(count),
        TableOutcome::Cleared => Outcome::Cleared,
        TableOutcome::Viewed => Outcome::View(seen),
        TableOutcome::Frozen(job) => Outcome::Frozen(job, seen),
        TableOutcome::Count(count) => Outcome::Count(count),
        TableOutcome::Truth(truth) => Outcome::Truth(truth),
        TableOutcome::Found(_) => Outcome::Found(found),
        TableOutcome::Made(count) => Outcome::Made(count),
        TableOutcome::Total(total) => Outcome::Total(total),
        TableOutcome::Abandoned => Outcome::Abandoned,
        TableOutcome::Refused(refusal) => Outcome::Refused(refusal),
    }
}

/// The outcome of an entry as a plain value.
pub fn plain_outcome(returned: &Filed<ChosenKey, u64, i128>) -> Outcome {
    match returned {
        Filed::Reply(reply) => reply_outcome(reply),
        Filed::View(view) => Outcome::View(seen_in(view)),
        Filed::Frozen(job, view) => Outcome::Frozen(*job, seen_in(view)),
        Filed::Answer(answer) => answer_outcome(answer),
        Filed::Abandoned => Outcome::Abandoned,
        Filed::Refused(refusal) => Outcome::Refused(*refusal),
    }
}
