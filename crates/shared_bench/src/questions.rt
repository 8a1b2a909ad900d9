//! Questions about all pairs of a view, by a crew of `workers` workers, or by the caller alone where there are none.

use crate::maps::MapView;
use bulk_work::work_in;
use group_counts::GroupFolds;
use keys::ByteText;
use slots::Slots;
use splitter::whole;
use std::sync::Wait;
use std::thread::Threads;
use trie_map::{Crew, Greatest, Sum};
use trie_node::NoMemory;
use versions::Version;

/// A map that is made of the pairs of a view.
type Made<S> = Version<ByteText, i64, S>;

/// A map from what a group of keys has in common to the greatest of their values.
type Grouped = Version<ByteText, Option<i64>>;

/// A question about all pairs.
#[derive(Clone, Copy)]
pub enum Question {
    /// How many values are below the limit.
    Count(i64),
    /// Whether a value is below 0.
    Absent,
    /// The sum of the values.
    Total,
    /// The map of the pairs that have a value below the limit.
    Filter(i64),
    /// The map with one new value for each key.
    OneValue,
    /// The map of coarser keys, each a key without its last byte, with the greatest value of the keys that have it in common.
    Coarser,
}

/// What is answered.
#[derive(Drop)]
pub enum Answer<S: Slots<ByteText, i64>> {
    Number(i128),
    Made(Made<S>),
    Grouped(Grouped),
}

/// The answer to the question.
pub fn ask<S: Slots<ByteText, i64> + Send + Sync, R: Threads + AllocGlobal + Wait + Sync>(
    rt: &R,
    view: &MapView<S>,
    question: Question,
    workers: u32,
) -> Result<Answer<S>, NoMemory>
where
    S::Key: Drop + Send + Sync,
    S::Value: Drop + Send + Sync,
{
    match question {
        Question::Count(limit) => {
            Ok(Answer::Number(i128::from(count(rt, view, limit, workers)?)))
        }
        Question::Absent => Ok(Answer::Number(i128::from(exists(rt, view, 0, workers)?))),
        Question::Total => Ok(Answer::Number(fold_sum(rt, view, workers)?)),
        Question::Filter(limit) => Ok(Answer::Made(filter(rt, view, limit, workers)?)),
        Question::OneValue => Ok(Answer::Made(map_values(rt, view, 1, workers)?)),
        Question::Coarser => Ok(Answer::Grouped(map_pairs(rt, view, workers)?)),
    }
}

/// A number for the answer: itself, or the size of a map.
pub fn number_in<S: Slots<ByteText, i64>>(answer: Answer<S>) -> i128
where
    S::Key: Drop,
    S::Value: Drop,
{
    match answer {
        Answer::Number(number) => number,
        Answer::Made(map) => {
            let count = map.len();
            drop(map);
            i128::from(count)
        }
        Answer::Grouped(map) => {
            let count = map.len();
            drop(map);
            i128::from(count)
        }
    }
}

/// How many pairs have a value below the limit.
fn count<S: Slots<ByteText, i64> + Send + Sync, R: Threads + Wait + Sync>(
    rt: &R,
    view: &MapView<S>,
    limit: i64,
    workers: u32,
) -> Result<u64, NoMemory>
where
    S::Key: Drop + Send + Sync,
    S::Value: Drop + Send + Sync,
{
    let test = move |_: &ByteText, value: &i64| *value < limit;
    if workers == 0 {
        Ok(view.count(test))
    } else {
        view.par_count(rt, test, Crew::of(workers))
    }
}

/// Whether some pair has a value below the limit.
fn exists<S: Slots<ByteText, i64> + Send + Sync, R: Threads + Wait + Sync>(
    rt: &R,
    view: &MapView<S>,
    limit: i64,
    workers: u32,
) -> Result<bool, NoMemory>
where
    S::Key: Drop + Send + Sync,
    S::Value: Drop + Send + Sync,
{
    let test = move |_: &ByteText, value: &i64| *value < limit;
    if workers == 0 {
        Ok(view.exists(test))
    } else {
        view.par_exists(rt, test, Crew::of(workers))
    }
}

/// The sum of all values.
fn fold_sum<S: Slots<ByteText, i64> + Send + Sync, R: Threads + Wait + Sync>(
    rt: &R,
    view: &MapView<S>,
    workers: u32,
) -> Result<i128, NoMemory>
where
    S::Key: Drop + Send + Sync,
    S::Value: Drop + Send + Sync,
{
    let item = |_: &ByteText, value: &i64| i128::from(*value);
    if workers == 0 {
        Ok(view.fold(&Sum, item))
    } else {
        view.par_fold(rt, &Sum, item, Crew::of(workers))
    }
}

/// The map of the pairs that have a value below the limit.
fn filter<S: Slots<ByteText, i64> + Send + Sync, R: Threads + Wait + Sync>(
    rt: &R,
    view: &MapView<S>,
    limit: i64,
    workers: u32,
) -> Result<Made<S>, NoMemory>
where
    S::Key: Drop + Send + Sync,
    S::Value: Drop + Send + Sync,
{
    let test = move |_: &ByteText, value: &i64| *value < limit;
    if workers == 0 {
        view.filter(test)
    } else {
        view.par_filter(rt, test, Crew::of(workers))
    }
}

/// The map with one new value for each key.
fn map_values<S: Slots<ByteText, i64> + Send + Sync, R: Threads + Wait + Sync>(
    rt: &R,
    view: &MapView<S>,
    new: i64,
    workers: u32,
) -> Result<Made<S>, NoMemory>
where
    S::Key: Drop + Send + Sync,
    S::Value: Drop + Send + Sync,
{
    let change = move |_: &ByteText, _: &i64| new;
    if workers == 0 {
        view.map_values(change)
    } else {
        view.par_map_values(rt, change, Crew::of(workers))
    }
}

/// The map of coarser keys, each a key without its last byte, with the greatest value of the keys that have it in common.
fn map_pairs<S: Slots<ByteText, i64> + Send + Sync, R: Threads + AllocGlobal + Wait + Sync>(
    rt: &R,
    view: &MapView<S>,
    workers: u32,
) -> Result<Grouped, NoMemory>
where
    S::Key: Drop + Send + Sync,
    S::Value: Drop + Send + Sync,
{
    let alloc = rt.alloc();
    let group = move |key: &ByteText, _: &i64| ByteText::from_slice(
        alloc,
        but_last(key.as_bytes()),
    );
    let item = |_: &ByteText, value: &i64| Some(*value);
    if workers == 0 {
        let piece = whole(alloc, view.plain().try_clone()?);
        let folds = GroupFolds {
            group,
            monoid: &Greatest,
            item,
        };
        let made = work_in(alloc, &piece, &folds);
        drop(piece);
        made
    } else {
        view.par_group_fold(rt, group, &Greatest, item, Crew::of(workers))
    }
}

// The bytes but the last one.
fn but_last(bytes: &[u8]) -> &[u8] {
    match bytes {
        [front @ .., _] => front,
        [] => bytes,
    }
}
