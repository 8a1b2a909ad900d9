//! The outcomes of requests, as plain values.

use crate::questions::Question;
use crate::rows::PlainPair;
use bulk_work::Answer;
use handles::{CallReply, Reply};
use test_keys::ChosenKey;
use versions::Refusal;

/// An outcome: of a view nothing, of a pair that is found only that there is one, and of a map that is made its size.
#[derive(Clone, Copy, Debug, PartialEq, Eq)]
pub enum TableOutcome {
    Unit,
    Old(Option<u64>),
    Done(bool),
    Size(u64),
    Cleared,
    Viewed,
    Frozen(u64),
    Count(u64),
    Truth(bool),
    Found(bool),
    Made(u64),
    Total(i128),
    Abandoned,
    Refused(Refusal),
}

impl TableOutcome {
    /// Whether it makes an entry in the journal.
    pub fn is_entry(self) -> bool {
        !matches!(
            self,
            TableOutcome::Refused(Refusal::NoJob | Refusal::JournalFull)
        )
    }
}

/// The answer to the question about `all` rows, of which `chosen` are those that the question selects.
pub fn answer(question: Question, chosen: &[PlainPair], all: usize) -> TableOutcome {
    let count = chosen.len() as u64;
    match question {
        Question::Count(_) => TableOutcome::Count(count),
        Question::Exists(_) => TableOutcome::Truth(count > 0),
        Question::ForAll(_) => TableOutcome::Truth(count == all as u64),
        Question::Find(_) => TableOutcome::Found(count > 0),
        Question::Filter(_, _) | Question::Zeros(_) => TableOutcome::Made(count),
        Question::Total => TableOutcome::Total(total(chosen)),
    }
}

// The sum of the values.
fn total(rows: &[PlainPair]) -> i128 {
    let mut total = 0i128;
    for row in rows {
        total = total.wrapping_add(i128::from(row.value));
    }
    total
}

/// A reply as a plain value.
pub fn outcome_of_reply(reply: &CallReply<u64>) -> TableOutcome {
    match reply {
        CallReply::Unit => TableOutcome::Unit,
        CallReply::Reply(Reply::Old(None)) => TableOutcome::Old(None),
        CallReply::Reply(Reply::Old(Some(value))) => TableOutcome::Old(Some(**value)),
        CallReply::Reply(Reply::Done(done)) => TableOutcome::Done(*done),
        CallReply::Reply(Reply::Size(size)) => TableOutcome::Size(*size),
        CallReply::Reply(Reply::Cleared) => TableOutcome::Cleared,
    }
}

/// An answer as a plain value.
pub fn outcome_of_answer(answer: &Answer<ChosenKey, u64, i128>) -> TableOutcome {
    match answer {
        Answer::Count(count) => TableOutcome::Count(*count),
        Answer::Truth(truth) => TableOutcome::Truth(*truth),
        Answer::Found(found) => TableOutcome::Found(found.is_some()),
        Answer::Made(size) => TableOutcome::Made(*size),
        Answer::Images(map) => TableOutcome::Made(map.len()),
        Answer::Item(item) => TableOutcome::Total(*item),
    }
}
