//! The time that a crew takes for each question.

use crate::maps::{Map, MapView, filled};
use crate::questions::{Question, ask, number_in};
use bench_kit::{Fault, Times, show_checksum, show_figure};
use keys::ByteText;
use slots::Slots;
use std::rt::Runtime;
use std::sync::Wait;
use std::thread::Threads;
use std::time::Instant;

/// How often each question is asked.
const ROUNDS: u32 = 15;

/// Asks each question of a view of a map of `pairs` pairs.
pub fn ask_all<
    S: Slots<ByteText, i64> + Send + Sync,
    R: Runtime + AllocGlobal + Threads + Wait + Sync,
>(rt: &R, pairs: u32, workers: u32) -> Result<(), Fault>
where
    S::Key: Drop + Send + Sync,
    S::Value: Drop + Send + Sync,
{
    let map = filled::<S, R>(rt, pairs)?;
    let done = ask_all_of(rt, &map, pairs, workers);
    drop(map);
    done
}

/// The same of this map.
fn ask_all_of<
    S: Slots<ByteText, i64> + Send + Sync,
    R: Runtime + AllocGlobal + Threads + Wait + Sync,
>(rt: &R, map: &Map<S>, pairs: u32, workers: u32) -> Result<(), Fault>
where
    S::Key: Drop + Send + Sync,
    S::Value: Drop + Send + Sync,
{
    let view = map.view(rt)?;
    let done = ask_each(rt, workers, &view, i64::from(pairs / 2));
    drop(view);
    done
}

/// Asks each question of this view.
fn ask_each<
    S: Slots<ByteText, i64> + Send + Sync,
    R: Runtime + AllocGlobal + Threads + Wait + Sync,
>(rt: &R, workers: u32, view: &MapView<S>, half: i64) -> Result<(), Fault>
where
    S::Key: Drop + Send + Sync,
    S::Value: Drop + Send + Sync,
{
    ask_one(rt, workers, "crew_count", view, Question::Count(half))?;
    ask_one(rt, workers, "crew_exists_absent", view, Question::Absent)?;
    ask_one(rt, workers, "crew_fold_sum", view, Question::Total)?;
    ask_one(rt, workers, "crew_filter", view, Question::Filter(half))?;
    ask_one(rt, workers, "crew_map_values", view, Question::OneValue)?;
    ask_one(rt, workers, "crew_map_pairs", view, Question::Coarser)
}

/// Asks one question in each round, and prints the median of the times and the number of the answer.
fn ask_one<S: Slots<ByteText, i64> + Send + Sync, R: Runtime + AllocGlobal + Threads + Wait + Sync>(
    rt: &R,
    workers: u32,
    name: &str,
    view: &MapView<S>,
    question: Question,
) -> Result<(), Fault>
where
    S::Key: Drop + Send + Sync,
    S::Value: Drop + Send + Sync,
{
    let mut times = Times::new(rt.alloc());
    match time_each(rt, workers, view, question, &mut times) {
        Ok(checksum) => {
            let median = times.spread()?.median;
            show_figure(rt, name, workers, u128::from(median))?;
            show_checksum(rt, name, checksum)
        }
        Err(fault) => {
            drop(times);
            Err(fault)
        }
    }
}

/// Asks it in each round, counts the times, and returns the number of the answer, which is dropped once its time is counted.
fn time_each<
    S: Slots<ByteText, i64> + Send + Sync,
    R: Runtime + AllocGlobal + Threads + Wait + Sync,
>(
    rt: &R,
    workers: u32,
    view: &MapView<S>,
    question: Question,
    times: &mut Times,
) -> Result<i128, Fault>
where
    S::Key: Drop + Send + Sync,
    S::Value: Drop + Send + Sync,
{
    let mut checksum = 0;
    for _ in 0..ROUNDS {
        let start = Instant::now(rt)?;
        let answer = ask(rt, view, question, workers)?;
        let time = start.elapsed(rt);
        checksum = number_in(answer);
        times.count(time?)?;
    }
    Ok(checksum)
}
