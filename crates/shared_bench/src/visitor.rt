//! Clients of a shared map of which one writes all the while, and the others read views of it.
ghost use Rattle.std.specs.Prelude.{⊤};

use crate::calls::{MAP, put};
use crate::mixed::next;
use bench_kit::{Fault, copied};
use handles::{Call, NoQuery};
use keys::ByteText;
use locked_map::{Client, JournalName, Seat, SharedMap};
use std::alloc::Global;
use std::sync::atomic::{AtomicBool, AtomicU32, Ordering};
use std::sync::{Arc, Wait};
use std::thread;
use std::thread::Threads;
use std::time::{Clock, Duration, Instant};
use versions::{Refusal, View};

/// What the clients of a round share.
#[derive(Drop)]
pub struct Meeting<'a, C> {
    pub clock: &'a C,
    pub start: Instant,
    pub keys: &'a [Arc<ByteText>],
    /// How many gets a reader makes.
    pub gets: u32,
    /// How many puts the journal has entries for, once the map has its pairs.
    pub puts: u32,
    /// Whether the map has its pairs.
    pub filled: AtomicBool,
    /// How many readers have not ended.
    pub reading: AtomicU32,
}

/// What a client does.
#[derive(Clone, Copy)]
pub enum Part {
    /// It writes until all readers have ended.
    Writes,
    /// It reads a view, at keys in an order that comes of this number.
    Reads(u64),
}

/// A client of the map.
#[derive(Drop)]
pub struct Visitor<'a, C> {
    pub meeting: &'a Meeting<'a, C>,
    pub part: Part,
}

/// When reading began and ended, after the start, and the sum of the values that were read.
#[derive(Clone, Copy)]
pub struct Reading {
    pub began: Duration,
    pub ended: Duration,
    pub sum: i64,
}

impl Reading {
    /// Both together: from when the first began until the last ended.
    pub fn with(self, other: Reading) -> Reading {
        Reading {
            began: self.began.min(other.began),
            ended: self.ended.max(other.ended),
            sum: self.sum.wrapping_add(other.sum),
        }
    }
}

/// What a client did.
#[derive(Clone, Copy)]
pub enum Did {
    /// It wrote until this long after the start.
    Wrote(Duration),
    /// It read.
    Read(Reading),
}

/// The map, whichever it is, and the seat of a client.
type Shared<J> = SharedMap<ByteText, i64, NoQuery, J>;

type ClientSeat<J> = Seat<ByteText, i64, NoQuery, J>;

impl<C: Clock> Client<ByteText, i64, NoQuery> for Visitor<'_, C> {
    type Out = Result<Did, Fault>;

    ghost needs = { λ _. ⊤ };

    ghost gives = { λ _ _ _. ⊤ };

    fn run<J: JournalName, R: Threads + Wait + Sync>(
        self,
        rt: &R,
        alloc: Global,
        map: &Shared<J>,
        seat: &mut ClientSeat<J>,
    ) -> Result<Did, Fault> {
        let Visitor { meeting, part } = self;
        match part {
            Part::Writes => {
                write(rt, alloc, map, seat, meeting)?;
                Ok(Did::Wrote(meeting.start.elapsed(meeting.clock)?))
            }
            Part::Reads(order) => {
                let reading = read(rt, alloc, map, seat, meeting, order);
                meeting.reading.fetch_sub(1, Ordering::SeqCst);
                Ok(Did::Read(reading?))
            }
        }
    }
}

/// Opens and fills the map where no other client has begun to, and else waits until it is filled.
fn prepare<J: JournalName, R: Wait, C>(
    rt: &R,
    alloc: Global,
    map: &Shared<J>,
    seat: &mut ClientSeat<J>,
    meeting: &Meeting<'_, C>,
) -> Result<(), Fault> {
    match map.call(rt, seat, Call::Open(MAP)) {
        Ok(opened) => {
            drop(opened);
            let made = fill(rt, alloc, map, seat, meeting.keys);
            meeting.filled.store(true, Ordering::SeqCst);
            made
        }
        Err(Refusal::Taken) => {
            wait_until(rt, &meeting.filled);
            Ok(())
        }
        Err(refusal) => Err(Fault::from(refusal)),
    }
}

/// Maps each key to its number.
fn fill<J: JournalName, R: Wait>(
    rt: &R,
    alloc: Global,
    map: &Shared<J>,
    seat: &mut ClientSeat<J>,
    keys: &[Arc<ByteText>],
) -> Result<(), Fault> {
    for (number, key) in keys.iter().enumerate() {
        drop(map.call(rt, seat, put(alloc, Arc::try_clone(key)?, number as i64)?)?);
    }
    Ok(())
}

/// Waits until it is so.
fn wait_until<R: Wait>(rt: &R, so: &AtomicBool) {
    for _ in rt.forever() {
        if so.load(Ordering::SeqCst) {
            break;
        }
        thread::yield_now();
    }
}

/// Makes puts until all readers have ended, or the journal has no more entries for them. A put gives a random key
/// the value that it has.
fn write<J: JournalName, R: Wait, C>(
    rt: &R,
    alloc: Global,
    map: &Shared<J>,
    seat: &mut ClientSeat<J>,
    meeting: &Meeting<'_, C>,
) -> Result<(), Fault> {
    prepare(rt, alloc, map, seat, meeting)?;
    let mut state = u64::MAX;
    for _ in 0..meeting.puts {
        if meeting.reading.load(Ordering::SeqCst) == 0 {
            break;
        }
        state = next(state);
        let place = (state % (meeting.keys.len() as u64).max(1)) as usize;
        let Some(key) = meeting.keys.get(place) else {
            break;
        };
        let own = Arc::new(alloc, copied(alloc, key)?)?;
        drop(map.call(rt, seat, put(alloc, own, place as i64)?)?);
    }
    Ok(())
}

/// Takes a view and makes the gets on it, at random keys.
fn read<J: JournalName, R: Wait, C: Clock>(
    rt: &R,
    alloc: Global,
    map: &Shared<J>,
    seat: &mut ClientSeat<J>,
    meeting: &Meeting<'_, C>,
    order: u64,
) -> Result<Reading, Fault> {
    prepare(rt, alloc, map, seat, meeting)?;
    let view = map.view(rt, seat, MAP)?;
    let reading = read_from(&view, meeting, order);
    drop(view);
    reading
}

/// Makes the gets on this view.
fn read_from<C: Clock>(
    view: &View<ByteText, i64>,
    meeting: &Meeting<'_, C>,
    order: u64,
) -> Result<Reading, Fault> {
    let began = meeting.start.elapsed(meeting.clock)?;
    let sum = get_all(view, meeting.keys, meeting.gets, order);
    let ended = meeting.start.elapsed(meeting.clock)?;
    Ok(Reading { began, ended, sum })
}

/// The sum of the values that `gets` gets return.
fn get_all(view: &View<ByteText, i64>, keys: &[Arc<ByteText>], gets: u32, order: u64) -> i64 {
    let mut sum = 0i64;
    let mut state = order.wrapping_add(1);
    for _ in 0..gets {
        state = next(state);
        let place = (state % (keys.len() as u64).max(1)) as usize;
        let Some(key) = keys.get(place) else {
            break;
        };
        if let Some(value) = view.get(key) {
            sum = sum.wrapping_add(**value);
        }
    }
    sum
}
