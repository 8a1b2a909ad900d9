//! The time that a put takes, alone and while a crew counts the map.

use crate::maps::{Map, filled, number_of};
use bench_kit::{Fault, Spread, Times, show_figure, text_key};
use rand_core::utils::NextWord;
use rand_pcg::Pcg32;
use slots::Slots;
use std::rt::Runtime;
use std::sync::Wait;
use std::sync::atomic::{AtomicBool, Ordering};
use std::thread;
use std::thread::Threads;
use std::time::{Clock, Instant};
use trie_map::{ByteText, Crew};

/// How many puts are timed.
const PUTS: u32 = 500_000;

/// How many workers the crew has.
const WORKERS: u32 = 4;

/// How the times of the puts spread, and the sum of the values that they replaced.
#[derive(Clone, Copy)]
struct Written {
    spread: Spread,
    sum: i64,
}

/// Times puts on the map, alone and while a crew counts it.
pub fn put_all<
    S: Slots<ByteText, i64> + Send + Sync,
    R: Runtime + AllocGlobal + Threads + Wait + Sync,
>(rt: &R, pairs: u32) -> Result<(), Fault>
where
    S::Key: Drop + Send + Sync,
    S::Value: Drop + Send + Sync,
{
    let map = filled::<S, R>(rt, pairs)?;
    let done = put_into(rt, &map, pairs);
    drop(map);
    done
}

/// The same on this map.
fn put_into<
    S: Slots<ByteText, i64> + Send + Sync,
    R: Runtime + AllocGlobal + Threads + Wait + Sync,
>(rt: &R, map: &Map<S>, pairs: u32) -> Result<(), Fault>
where
    S::Key: Drop + Send + Sync,
    S::Value: Drop + Send + Sync,
{
    let alone = write(rt, map, pairs)?;
    show(rt, 0, alone)?;
    let beside = write_beside_a_crew(rt, map, pairs)?;
    show(rt, WORKERS, beside)
}

/// Makes the puts, each at a random key, which gets the value that it has. A key is made before its time begins.
fn write<S: Slots<ByteText, i64>, R: Clock + AllocGlobal + Wait>(
    rt: &R,
    map: &Map<S>,
    pairs: u32,
) -> Result<Written, Fault>
where
    S::Key: Drop,
    S::Value: Drop,
{
    let mut times = Times::new(rt.alloc());
    match write_each(rt, map, &mut times, pairs) {
        Ok(sum) => Ok(Written {
            spread: times.spread()?,
            sum,
        }),
        Err(fault) => {
            drop(times);
            Err(fault)
        }
    }
}

/// Makes the puts, counts the time of each, and returns the sum of the values that they replaced.
fn write_each<S: Slots<ByteText, i64>, R: Clock + AllocGlobal + Wait>(
    rt: &R,
    map: &Map<S>,
    times: &mut Times,
    pairs: u32,
) -> Result<i64, Fault>
where
    S::Key: Drop,
    S::Value: Drop,
{
    let mut sum = 0i64;
    let mut draws = Pcg32::new(1, 1);
    for _ in 0..PUTS {
        let number = draws.next_word() % pairs.max(1);
        let own = text_key(rt.alloc(), number)?;
        let before = put(rt, map, times, own, i64::from(number))?;
        sum = sum.wrapping_add(before);
    }
    Ok(sum)
}

/// Makes one put, counts its time, and returns the value that was replaced, 0 where there was none.
fn put<S: Slots<ByteText, i64>, R: Clock + Wait>(
    rt: &R,
    map: &Map<S>,
    times: &mut Times,
    own: ByteText,
    value: i64,
) -> Result<i64, Fault>
where
    S::Key: Drop,
    S::Value: Drop,
{
    let start = match Instant::now(rt) {
        Ok(start) => start,
        Err(error) => {
            drop(own);
            return Err(Fault::from(error));
        }
    };
    let before = map.put(rt, own, value);
    let time = start.elapsed(rt);
    let Ok(before) = before else {
        return Err(Fault::Memory);
    };
    let number = number_of::<S>(before);
    times.count(time?)?;
    Ok(number)
}

/// Makes the puts on one thread while another has a crew count the map again and again.
fn write_beside_a_crew<
    S: Slots<ByteText, i64> + Send + Sync,
    R: Clock + AllocGlobal + Threads + Wait + Sync,
>(rt: &R, map: &Map<S>, pairs: u32) -> Result<Written, Fault>
where
    S::Key: Drop + Send + Sync,
    S::Value: Drop + Send + Sync,
{
    let ended = AtomicBool::new(false);
    let over = &ended;
    let made = thread::map_indices(
        rt,
        rt.alloc(),
        2,
        &|thread: usize| -> Result<Option<Written>, Fault> {
            if thread == 0 {
                let made = write(rt, map, pairs);
                over.store(true, Ordering::SeqCst);
                return Ok(Some(made?));
            }
            count_until(rt, over, map, pairs)?;
            Ok(None)
        },
    )?;
    written_of(made)
}

/// What the thread that wrote came to.
fn written_of(made: Vec<Result<Option<Written>, Fault>>) -> Result<Written, Fault> {
    let mut written = Written {
        spread: Spread {
            median: 0,
            ninety_ninth: 0,
        },
        sum: 0,
    };
    for did in made {
        if let Some(made) = did? {
            written = made;
        }
    }
    Ok(written)
}

/// Has a crew count the map until it is over.
fn count_until<S: Slots<ByteText, i64> + Send + Sync, R: Threads + Wait + Sync>(
    rt: &R,
    over: &AtomicBool,
    map: &Map<S>,
    pairs: u32,
) -> Result<(), Fault>
where
    S::Key: Drop + Send + Sync,
    S::Value: Drop + Send + Sync,
{
    let half = i64::from(pairs / 2);
    for _ in rt.forever() {
        if over.load(Ordering::SeqCst) {
            break;
        }
        map.par_count(
            rt,
            |_: &ByteText, value: &i64| *value < half,
            Crew::of(WORKERS),
        )?;
    }
    Ok(())
}

/// Prints the lines of the times beside a crew of `workers` workers, and the checksum.
fn show<R: Runtime>(rt: &R, workers: u32, written: Written) -> Result<(), Fault> {
    let Written { spread, sum } = written;
    let Spread {
        median,
        ninety_ninth,
    } = spread;
    show_figure(rt, "crew_put", workers, u128::from(median))?;
    show_figure(rt, "crew_put_p99", workers, u128::from(ninety_ninth))?;
    rt.println(format_args!("crew_put {workers} {sum}"))?;
    Ok(())
}
