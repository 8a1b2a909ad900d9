//! Questions about all pairs, one after another.

use crate::maps::{Map, SharedView};
use bench_kit::{Best, Fault};
use bulk_work::work_in;
use closure_ops::{Filters, NewValues};
use combiner::Sum;
use hash_path::PathKey;
use keys::ByteText;
use slots::Slots;
use splitter::whole;
use std::alloc::Global;
use std::rt::Runtime;
use std::time::Instant;
use trie_node::NoMemory;
use versions::View;

/// A question about all pairs.
#[derive(Clone, Copy)]
pub enum Question {
    /// How many values are below the limit.
    Count(i64),
    /// Whether a value is below 0.
    Absent,
    /// The sum of the values.
    Total,
    /// The map of the pairs that have a value below the limit.
    Filter(i64),
    /// The map with one new value for each key.
    OneValue,
}

/// What is answered.
#[derive(Drop)]
enum Answer<K: PathKey, S: Slots<K, i64>> {
    Number(i128),
    Made(Map<K, S>),
}

/// Asks each question about all pairs.
pub fn ask_all<S: Slots<ByteText, i64>, R: Runtime + AllocGlobal>(
    rt: &R,
    rounds: u32,
    view: &SharedView<ByteText, S>,
) -> Result<(), Fault>
where
    S::Key: Drop,
    S::Value: Drop,
{
    let half = (view.len() / 2) as i64;
    ask_one(rt, rounds, "count", view, Question::Count(half))?;
    ask_one(rt, rounds, "exists_absent", view, Question::Absent)?;
    ask_one(rt, rounds, "fold_sum", view, Question::Total)?;
    ask_one(rt, rounds, "filter", view, Question::Filter(half))?;
    ask_one(rt, rounds, "map_values", view, Question::OneValue)
}

/// Asks a question in each round, and reports the number of its answer, which is dropped once its time is counted.
pub fn ask_one<K: PathKey, S: Slots<K, i64>, R: Runtime + AllocGlobal>(
    rt: &R,
    rounds: u32,
    name: &str,
    view: &SharedView<K, S>,
    question: Question,
) -> Result<(), Fault>
where
    S::Key: Drop,
    S::Value: Drop,
{
    let mut best = Best::new();
    let mut checksum = 0;
    for _ in 0..rounds {
        let start = Instant::now(rt)?;
        let answer = ask(rt.alloc(), view, question)?;
        let time = start.elapsed(rt);
        checksum = number_in(answer);
        best.count(time?);
    }
    best.show(rt, name, 1, checksum)
}

/// A number for the answer: itself, or the size of a map.
fn number_in<K: PathKey, S: Slots<K, i64>>(answer: Answer<K, S>) -> i128
where
    S::Key: Drop,
    S::Value: Drop,
{
    match answer {
        Answer::Number(number) => number,
        Answer::Made(map) => {
            let count = map.len();
            drop(map);
            i128::from(count)
        }
    }
}

/// The answer to the question.
fn ask<K: PathKey, S: Slots<K, i64>>(
    alloc: Global,
    view: &SharedView<K, S>,
    question: Question,
) -> Result<Answer<K, S>, NoMemory>
where
    S::Key: Drop,
    S::Value: Drop,
{
    match question {
        Question::Count(limit) => {
            let count = view.count(move |_, value| *value < limit);
            Ok(Answer::Number(i128::from(count)))
        }
        Question::Absent => {
            let exists = view.exists(|_, value| *value < 0);
            Ok(Answer::Number(i128::from(exists)))
        }
        Question::Total => Ok(Answer::Number(view.fold(&Sum, |_, value| i128::from(*value)))),
        Question::Filter(limit) => Ok(Answer::Made(below(alloc, view.plain(), limit)?)),
        Question::OneValue => Ok(Answer::Made(of_one_value(alloc, view.plain(), 1)?)),
    }
}

/// The map of the pairs that have a value below the limit, made as a crew has it made of a piece.
fn below<K: PathKey, S: Slots<K, i64>>(
    alloc: Global,
    view: &View<K, i64, S>,
    limit: i64,
) -> Result<Map<K, S>, NoMemory>
where
    S::Key: Drop,
    S::Value: Drop,
{
    let piece = whole(alloc, view.try_clone()?);
    let test = move |_: &K, value: &i64| *value < limit;
    let made = work_in(alloc, &piece, &Filters { test });
    drop(piece);
    made
}

/// The map with one new value for each key, made in the same way.
fn of_one_value<K: PathKey, S: Slots<K, i64>>(
    alloc: Global,
    view: &View<K, i64, S>,
    value: i64,
) -> Result<Map<K, S>, NoMemory>
where
    S::Key: Drop,
    S::Value: Drop,
{
    let piece = whole(alloc, view.try_clone()?);
    let change = move |_: &K, _: &i64| value;
    let made = work_in(alloc, &piece, &NewValues { change });
    drop(piece);
    made
}
