//! Gets on views of a map that one more thread writes all the while, with their checksums.
ghost use Rattle.std.specs.Prelude.{◌≡◌, ◌≤◌, ◌+◌, IfOk, length, vec_len};

use crate::visitor::{Did, Meeting, Part, Reading, Visitor};
use bench_kit::{Best, Fault};
use handles::{Limits, MOST_ENTRIES};
use keys::ByteText;
use locked_map::with_clients;
use std::alloc::Global;
use std::rt::Runtime;
use std::sync::atomic::{AtomicBool, AtomicU32};
use std::sync::{Arc, Wait};
use std::thread::Threads;
use std::time::{Duration, Instant};
use versions::MOST_PAIRS;

/// How many pairs the map gets at most. The puts that fill it are entries of its journal.
const MOST_FILLED: usize = 1_000_000;

/// How many entries are kept for what is neither such a put nor the writer's: the clients open the map and take views.
const OTHER_ENTRIES: u32 = 76;

/// What a round came to.
#[derive(Clone, Copy)]
struct Round {
    /// From when the first reader began until the last ended; none where the writer had ended by then.
    time: Option<Duration>,
    /// The sum of all that was read.
    sum: i64,
}

/// Times the gets of one, two and four threads, each on a view of its own, while one more thread writes.
pub fn view_reads<R: Runtime + AllocGlobal + Threads + Wait + Sync>(
    rt: &R,
    rounds: u32,
    keys: &[Arc<ByteText>],
) -> Result<(), Fault> {
    let keys = &keys[..keys.len().min(MOST_FILLED)];
    reads_of(rt, rounds, keys, 1)?;
    reads_of(rt, rounds, keys, 2)?;
    reads_of(rt, rounds, keys, 4)
}

/// The same of `readers` threads. Each makes as many gets as the journal has entries for the writer. A put takes
/// several times as long as a get, so the writer has entries left when the last of them ends.
fn reads_of<R: Runtime + AllocGlobal + Threads + Wait + Sync>(
    rt: &R,
    rounds: u32,
    keys: &[Arc<ByteText>],
    readers: u32,
) -> Result<(), Fault>
    requires keys { length keys.now ≤ 1000000 }
    requires readers { readers ≤ 4 }
{
    let left = MOST_ENTRIES - OTHER_ENTRIES - keys.len() as u32;
    let mut best = Best::new();
    let mut sum = 0;
    for _ in 0..rounds {
        let meeting = Meeting {
            clock: rt,
            start: Instant::now(rt)?,
            keys,
            gets: left,
            puts: left,
            filled: AtomicBool::new(false),
            reading: AtomicU32::new(readers),
        };
        let round = one_round(rt, &meeting, readers)?;
        if let Some(time) = round.time {
            best.count(time);
        }
        sum = round.sum;
    }
    best.show_of(rt, "view_reads", readers, left * readers, i128::from(sum))
}

/// One round with `readers` readers.
fn one_round<R: Runtime + AllocGlobal + Threads + Wait + Sync>(
    rt: &R,
    meeting: &Meeting<'_, R>,
    readers: u32,
) -> Result<Round, Fault>
    requires { readers ≤ 4 }
{
    let alloc = rt.alloc();
    let limits = Limits {
        pairs: MOST_PAIRS,
        entries: MOST_ENTRIES,
    };
    let visitors = visitors(alloc, meeting, readers)?;
    let Ok(served) = with_clients(rt, alloc, limits, visitors) else {
        return Err(Fault::NoJournal);
    };
    let (outs, closed) = served;
    drop(closed);
    round_of(outs)
}

/// What the clients of a round came to together.
fn round_of(outs: Vec<Result<Did, Fault>>) -> Result<Round, Fault> {
    let mut wrote = Duration::ZERO;
    let mut whole = Reading {
        began: Duration::MAX,
        ended: Duration::ZERO,
        sum: 0,
    };
    for out in outs {
        match out? {
            Did::Wrote(until) => wrote = until,
            Did::Read(reading) => whole = whole.with(reading),
        }
    }
    let time = whole.ended.saturating_sub(whole.began);
    Ok(Round {
        time: (whole.ended <= wrote).then_some(time),
        sum: whole.sum,
    })
}

/// A client that writes, and `readers` clients that read.
fn visitors<'a, C>(
    alloc: Global,
    meeting: &'a Meeting<'a, C>,
    readers: u32,
) -> Result<Vec<Visitor<'a, C>>, Fault>
    ensures { IfOk result (λ visitors. vec_len visitors ≡ 1 + readers) }
{
    let mut visitors = Vec::new(alloc);
    let part = Part::Writes;
    visitors.push(Visitor { meeting, part })?;
    for reader in 0..readers {
        let part = Part::Reads(u64::from(reader));
        visitors.push(Visitor { meeting, part })?;
    }
    Ok(visitors)
}
