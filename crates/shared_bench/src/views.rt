//! Views of a map, with nobody writing and while others write.

use crate::maps::{Map, filled};
use crate::mixed::{Reads, calls_of};
use bench_kit::{Fault, Times, plain_text_keys, show_checksum, show_figure};
use keys::ByteText;
use slots::Slots;
use std::rt::Runtime;
use std::sync::Wait;
use std::sync::atomic::{AtomicBool, Ordering};
use std::thread;
use std::thread::Threads;
use std::time::{Clock, Duration, Instant};

/// How many threads write while views are taken, and how many views are timed.
const WRITERS: u32 = 4;

const VIEWS: usize = 1_001;

/// How many calls a writer makes before it looks whether the views are taken.
const CALLS_AT_A_TIME: u32 = 100;

/// Times views with nobody writing, and while four threads write, and prints the median of each.
pub fn views<
    S: Slots<ByteText, i64> + Send + Sync,
    R: Runtime + Clock + AllocGlobal + Threads + Wait + Sync,
>(rt: &R, pairs: u32) -> Result<(), Fault>
where
    S::Key: Drop + Send + Sync,
    S::Value: Drop + Send + Sync,
{
    let map = filled::<S, R>(rt, pairs)?;
    let done = views_of(rt, &map, pairs);
    drop(map);
    done
}

/// The same of this map.
fn views_of<
    S: Slots<ByteText, i64> + Send + Sync,
    R: Runtime + AllocGlobal + Threads + Wait + Sync,
>(rt: &R, map: &Map<S>, pairs: u32) -> Result<(), Fault>
where
    S::Key: Drop + Send + Sync,
    S::Value: Drop + Send + Sync,
{
    let alone = median_of_views(rt, map)?;
    show(rt, "view_alone", 1, alone, map)?;
    let keys = plain_text_keys(rt.alloc(), pairs)?;
    let beside = beside_writers(rt, map, keys.as_slice());
    drop(keys);
    show(rt, "view_under_writes", WRITERS, beside?, map)
}

/// The median of the nanoseconds that a view takes.
fn median_of_views<S: Slots<ByteText, i64>, R: Clock + AllocGlobal + Wait>(
    rt: &R,
    map: &Map<S>,
) -> Result<u64, Fault>
where
    S::Key: Drop,
    S::Value: Drop,
{
    let mut times = Times::new(rt.alloc());
    match count_views(rt, map, &mut times) {
        Ok(()) => Ok(times.spread()?.median),
        Err(fault) => {
            drop(times);
            Err(fault)
        }
    }
}

/// Counts the times of the views.
fn count_views<S: Slots<ByteText, i64>, R: Clock + Wait>(
    rt: &R,
    map: &Map<S>,
    times: &mut Times,
) -> Result<(), Fault>
where
    S::Key: Drop,
    S::Value: Drop,
{
    for _ in 0..VIEWS {
        times.count(time_of_view(rt, map)?)?;
    }
    Ok(())
}

/// The time that a view takes. It is dropped once its time is counted.
fn time_of_view<S: Slots<ByteText, i64>, R: Clock + Wait>(
    rt: &R,
    map: &Map<S>,
) -> Result<Duration, Fault>
where
    S::Key: Drop,
    S::Value: Drop,
{
    let start = Instant::now(rt)?;
    let view = map.view(rt)?;
    let time = start.elapsed(rt);
    drop(view);
    Ok(time?)
}

/// The same while four threads make calls, nine gets for each put.
fn beside_writers<
    S: Slots<ByteText, i64> + Send + Sync,
    R: Clock + AllocGlobal + Threads + Wait + Sync,
>(rt: &R, map: &Map<S>, keys: &[ByteText]) -> Result<u64, Fault>
where
    S::Key: Drop + Send + Sync,
    S::Value: Drop + Send + Sync,
{
    let ended = AtomicBool::new(false);
    let over = &ended;
    let medians = thread::map_indices(
        rt,
        rt.alloc(),
        WRITERS as usize + 1,
        &|thread: usize| -> Result<u64, Fault> {
            if thread == 0 {
                let median = median_of_views(rt, map);
                over.store(true, Ordering::SeqCst);
                return median;
            }
            write_until(rt, over, map, keys, thread as u64)?;
            Ok(0)
        },
    )?;
    greatest_of(medians)
}

/// The greatest of what the threads came to: the writers come to 0.
fn greatest_of(medians: Vec<Result<u64, Fault>>) -> Result<u64, Fault> {
    let mut greatest = 0u64;
    for median in medians {
        greatest = greatest.max(median?);
    }
    Ok(greatest)
}

/// Makes calls, some at a time, until it is over.
fn write_until<S: Slots<ByteText, i64>, R: AllocGlobal + Wait>(
    rt: &R,
    over: &AtomicBool,
    map: &Map<S>,
    keys: &[ByteText],
    thread: u64,
) -> Result<(), Fault>
where
    S::Key: Drop,
    S::Value: Drop,
{
    let mut seed = thread;
    for _ in rt.forever() {
        if over.load(Ordering::SeqCst) {
            break;
        }
        calls_of(rt, rt.alloc(), map, keys, CALLS_AT_A_TIME, seed, Reads::Got)?;
        seed = seed.wrapping_add(u64::from(WRITERS));
    }
    Ok(())
}

/// Prints the median for `threads` threads, and the number of pairs.
fn show<S: Slots<ByteText, i64>, R: Runtime + Wait>(
    rt: &R,
    name: &str,
    threads: u32,
    median: u64,
    map: &Map<S>,
) -> Result<(), Fault>
where
    S::Key: Drop,
    S::Value: Drop,
{
    let view = map.view(rt)?;
    let pairs = view.len();
    drop(view);
    show_figure(rt, name, threads, u128::from(median))?;
    show_checksum(rt, name, i128::from(pairs))
}
