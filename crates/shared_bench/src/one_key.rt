//! Calls of several threads at one key of a map, with their checksums: gets, copies, reads by readers, and then puts.

use crate::arguments::Load;
use crate::maps::{Map, filled, number_of, put, sum_of};
use bench_kit::{Best, Fault, copied, text_key};
use keys::ByteText;
use slots::Slots;
use std::alloc::Global;
use std::rt::Runtime;
use std::sync::Wait;
use std::thread;
use std::thread::Threads;
use std::time::Instant;
use trie_map::{Anything, Readers};
use write_history::Unnamed;

/// How many calls a round makes, over all its threads.
const CALLS: u32 = 400_000;

/// What the threads do at the key.
#[derive(Clone, Copy)]
enum Call {
    Get,
    Copy,
    /// A copy by the thread's reader, mostly with no lock.
    Read,
    Put,
}

/// What the threads share that read by readers.
type MapReaders<'m, S> = Readers<'m, ByteText, i64, Anything, Unnamed, Unnamed, S>;

/// Times gets, copies of the value and copies by readers, of the last key of the map, each by one, two and four
/// threads; and then puts of it, by one and by four.
pub fn one_key<
    S: Slots<ByteText, i64> + Send + Sync,
    R: Runtime + AllocGlobal + Threads + Wait + Sync,
>(rt: &R, load: Load) -> Result<(), Fault>
where
    S::Key: Drop + Send + Sync,
    S::Value: Drop + Send + Sync,
{
    let map = filled::<S, R>(rt, load.pairs)?;
    let done = one_key_of(rt, &map, load);
    drop(map);
    done
}

/// The same of this map.
fn one_key_of<
    S: Slots<ByteText, i64> + Send + Sync,
    R: Runtime + AllocGlobal + Threads + Wait + Sync,
>(rt: &R, map: &Map<S>, load: Load) -> Result<(), Fault>
where
    S::Key: Drop + Send + Sync,
    S::Value: Drop + Send + Sync,
{
    let number = load.pairs.saturating_sub(1);
    let key = text_key(rt.alloc(), number)?;
    let done = at_key(rt, map, &key, number, load.rounds);
    drop(key);
    done
}

/// The same at this key.
fn at_key<S: Slots<ByteText, i64> + Send + Sync, R: Runtime + AllocGlobal + Threads + Wait + Sync>(
    rt: &R,
    map: &Map<S>,
    key: &ByteText,
    number: u32,
    rounds: u32,
) -> Result<(), Fault>
where
    S::Key: Drop + Send + Sync,
    S::Value: Drop + Send + Sync,
{
    for call in [Call::Get, Call::Copy, Call::Read] {
        calls_by(rt, map, key, number, rounds, 1, call)?;
        calls_by(rt, map, key, number, rounds, 2, call)?;
        calls_by(rt, map, key, number, rounds, 4, call)?;
    }
    calls_by(rt, map, key, number, rounds, 1, Call::Put)?;
    calls_by(rt, map, key, number, rounds, 4, Call::Put)
}

/// Times the calls by `threads` threads.
fn calls_by<
    S: Slots<ByteText, i64> + Send + Sync,
    R: Runtime + AllocGlobal + Threads + Wait + Sync,
>(
    rt: &R,
    map: &Map<S>,
    key: &ByteText,
    number: u32,
    rounds: u32,
    threads: u32,
    call: Call,
) -> Result<(), Fault>
where
    S::Key: Drop + Send + Sync,
    S::Value: Drop + Send + Sync,
{
    let mut best = Best::new();
    let mut sum = 0i64;
    for _ in 0..rounds {
        let start = Instant::now(rt)?;
        sum = one_round(rt, map, key, number, threads, call)?;
        best.count(start.elapsed(rt)?);
    }
    best.show_of(rt, name_of(call), threads, CALLS, i128::from(sum))
}

/// The name of the measurement of such calls.
fn name_of(call: Call) -> &'static str {
    match call {
        Call::Get => "one_key_reads",
        Call::Copy => "one_key_copies",
        Call::Read => "one_key_reader",
        Call::Put => "one_key_writes",
    }
}

/// The calls of one round, divided among the threads: the sum of the values that they returned.
fn one_round<
    S: Slots<ByteText, i64> + Send + Sync,
    R: Runtime + AllocGlobal + Threads + Wait + Sync,
>(rt: &R, map: &Map<S>, key: &ByteText, number: u32, threads: u32, call: Call) -> Result<i64, Fault>
where
    S::Key: Drop + Send + Sync,
    S::Value: Drop + Send + Sync,
{
    let readers = map.readers();
    let sum = round_with(rt, map, &readers, key, number, threads, call);
    drop(readers);
    sum
}

/// The same, with what the threads share that read by readers.
fn round_with<
    S: Slots<ByteText, i64> + Send + Sync,
    R: Runtime + AllocGlobal + Threads + Wait + Sync,
>(
    rt: &R,
    map: &Map<S>,
    readers: &MapReaders<'_, S>,
    key: &ByteText,
    number: u32,
    threads: u32,
    call: Call,
) -> Result<i64, Fault>
where
    S::Key: Drop + Send + Sync,
    S::Value: Drop + Send + Sync,
{
    let calls = CALLS / threads.max(1);
    let sums = thread::map_indices(
        rt,
        rt.alloc(),
        threads as usize,
        &|_: usize| {
            match call {
                Call::Get => gets(rt, map, key, calls),
                Call::Copy => Ok(copies(rt, map, key, calls)),
                Call::Read => Ok(reads(rt, readers, key, calls)),
                Call::Put => puts(rt, rt.alloc(), map, key, number, calls),
            }
        },
    )?;
    sum_of(sums)
}

/// The gets of one thread.
fn gets<S: Slots<ByteText, i64>, R: Wait>(
    rt: &R,
    map: &Map<S>,
    key: &ByteText,
    calls: u32,
) -> Result<i64, Fault>
where
    S::Key: Drop,
    S::Value: Drop,
{
    let mut sum = 0i64;
    for _ in 0..calls {
        sum = sum.wrapping_add(number_of::<S>(map.get(rt, key)?));
    }
    Ok(sum)
}

/// The copies of one thread.
fn copies<S: Slots<ByteText, i64>, R: Wait>(rt: &R, map: &Map<S>, key: &ByteText, calls: u32) -> i64
where
    S::Key: Drop,
    S::Value: Drop,
{
    let mut sum = 0i64;
    for _ in 0..calls {
        sum = sum.wrapping_add(map.get_copied(rt, key).unwrap_or(0));
    }
    sum
}

/// The copies of one thread by a reader of its own, which has no base at first.
fn reads<S: Slots<ByteText, i64>, R: Wait>(
    rt: &R,
    readers: &MapReaders<'_, S>,
    key: &ByteText,
    calls: u32,
) -> i64
where
    S::Key: Drop,
    S::Value: Drop,
{
    let mut reader = readers.reader();
    let mut sum = 0i64;
    for _ in 0..calls {
        sum = sum.wrapping_add(reader.get_copied(rt, key).unwrap_or(0));
    }
    drop(reader);
    sum
}

/// The puts of one thread. Each gives the key the value that it has, so that the sum is the same in each run.
fn puts<S: Slots<ByteText, i64>, R: Wait>(
    rt: &R,
    alloc: Global,
    map: &Map<S>,
    key: &ByteText,
    number: u32,
    calls: u32,
) -> Result<i64, Fault>
where
    S::Key: Drop,
    S::Value: Drop,
{
    let mut sum = 0i64;
    for _ in 0..calls {
        sum = sum.wrapping_add(put(rt, map, copied(alloc, key)?, i64::from(number))?);
    }
    Ok(sum)
}
