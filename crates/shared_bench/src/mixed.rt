//! Calls of several threads on one map, with their checksums: nine gets for each put.

use crate::arguments::Load;
use crate::maps::{Map, filled, number_of, put, sum_of};
use bench_kit::{Best, Fault, copied, plain_text_keys};
use keys::ByteText;
use slots::Slots;
use std::alloc::Global;
use std::rt::Runtime;
use std::sync::Wait;
use std::thread;
use std::thread::Threads;
use std::time::Instant;

/// How many calls a round makes, over all its threads.
const CALLS: u32 = 400_000;

/// How many of them are one put and gets else.
pub const CALLS_OF_A_PUT: u32 = 10;

/// How a key's value is read.
#[derive(Clone, Copy)]
pub enum Reads {
    /// By `get`, which returns another of the value: with handles, another handle.
    Got,
    /// By `get_copied`, which copies it under the lock, as dashmap's guard lets a caller do.
    Copied,
}

/// Times the calls by one, two and four threads, which read by `get`, and then by `get_copied`.
pub fn mixed<
    S: Slots<ByteText, i64> + Send + Sync,
    R: Runtime + AllocGlobal + Threads + Wait + Sync,
>(rt: &R, load: Load) -> Result<(), Fault>
where
    S::Key: Drop + Send + Sync,
    S::Value: Drop + Send + Sync,
{
    let keys = plain_text_keys(rt.alloc(), load.pairs)?;
    let done = mixed_at::<S, R>(rt, load, keys.as_slice());
    drop(keys);
    done
}

/// The same at these keys, of a map that is filled with them.
fn mixed_at<
    S: Slots<ByteText, i64> + Send + Sync,
    R: Runtime + AllocGlobal + Threads + Wait + Sync,
>(rt: &R, load: Load, keys: &[ByteText]) -> Result<(), Fault>
where
    S::Key: Drop + Send + Sync,
    S::Value: Drop + Send + Sync,
{
    let map = filled::<S, R>(rt, load.pairs)?;
    let got = calls_by_more(rt, &map, keys, load.rounds, Reads::Got);
    let copied = calls_by_more(rt, &map, keys, load.rounds, Reads::Copied);
    drop(map);
    got?;
    copied
}

/// The calls by one, two and four threads.
fn calls_by_more<
    S: Slots<ByteText, i64> + Send + Sync,
    R: Runtime + AllocGlobal + Threads + Wait + Sync,
>(rt: &R, map: &Map<S>, keys: &[ByteText], rounds: u32, reads: Reads) -> Result<(), Fault>
where
    S::Key: Drop + Send + Sync,
    S::Value: Drop + Send + Sync,
{
    calls_by(rt, map, keys, rounds, 1, reads)?;
    calls_by(rt, map, keys, rounds, 2, reads)?;
    calls_by(rt, map, keys, rounds, 4, reads)
}

/// The same by `threads` threads.
fn calls_by<
    S: Slots<ByteText, i64> + Send + Sync,
    R: Runtime + AllocGlobal + Threads + Wait + Sync,
>(
    rt: &R,
    map: &Map<S>,
    keys: &[ByteText],
    rounds: u32,
    threads: u32,
    reads: Reads,
) -> Result<(), Fault>
where
    S::Key: Drop + Send + Sync,
    S::Value: Drop + Send + Sync,
{
    let mut best = Best::new();
    let mut sum = 0i64;
    for _ in 0..rounds {
        let start = Instant::now(rt)?;
        sum = one_round(rt, map, keys, threads, reads)?;
        best.count(start.elapsed(rt)?);
    }
    best.show_of(rt, name_of(reads), threads, CALLS, i128::from(sum))
}

/// The name of the measurement of calls that read so.
fn name_of(reads: Reads) -> &'static str {
    match reads {
        Reads::Got => "mixed",
        Reads::Copied => "mixed_copied",
    }
}

/// The calls of one round, divided among the threads: the sum of the values that were read.
fn one_round<
    S: Slots<ByteText, i64> + Send + Sync,
    R: Runtime + AllocGlobal + Threads + Wait + Sync,
>(rt: &R, map: &Map<S>, keys: &[ByteText], threads: u32, reads: Reads) -> Result<i64, Fault>
where
    S::Key: Drop + Send + Sync,
    S::Value: Drop + Send + Sync,
{
    let calls = CALLS / threads.max(1);
    let sums = thread::map_indices(
        rt,
        rt.alloc(),
        threads as usize,
        &|thread: usize| { calls_of(rt, rt.alloc(), map, keys, calls, thread as u64, reads) },
    )?;
    sum_of(sums)
}

/// The next random number: xorshift.
pub fn next(state: u64) -> u64 {
    let state = state ^ (state << 13);
    let state = state ^ (state >> 7);
    state ^ (state << 17)
}

/// The calls of one thread. A put gives a key the value that it has, so that the sum is the same in each run.
pub fn calls_of<S: Slots<ByteText, i64>, R: Wait>(
    rt: &R,
    alloc: Global,
    map: &Map<S>,
    keys: &[ByteText],
    calls: u32,
    thread: u64,
    reads: Reads,
) -> Result<i64, Fault>
where
    S::Key: Drop,
    S::Value: Drop,
{
    let mut sum = 0i64;
    let mut state = thread.wrapping_add(1);
    for call in 0..calls {
        state = next(state);
        let place = (state % (keys.len() as u64).max(1)) as usize;
        let Some(key) = keys.get(place) else {
            break;
        };
        if call % CALLS_OF_A_PUT == 0 {
            put(rt, map, copied(alloc, key)?, place as i64)?;
        } else {
            sum = sum.wrapping_add(read(rt, map, key, reads)?);
        }
    }
    Ok(sum)
}

/// The value of the key, 0 where it has none.
fn read<S: Slots<ByteText, i64>, R: Wait>(
    rt: &R,
    map: &Map<S>,
    key: &ByteText,
    reads: Reads,
) -> Result<i64, Fault>
where
    S::Key: Drop,
    S::Value: Drop,
{
    match reads {
        Reads::Got => Ok(number_of::<S>(map.get(rt, key)?)),
        Reads::Copied => Ok(map.get_copied(rt, key).unwrap_or(0)),
    }
}
