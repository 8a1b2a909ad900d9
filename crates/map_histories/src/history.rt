//! One history: what each of its threads called, and what was returned.
ghost use Rattle.std.specs.Prelude.{◌≡◌, Some};

use crate::call::{ALL_KEYS, ReaderCall};
use crate::caller::Caller;
use crate::fault::Fault;
use crate::load::Load;
use crate::make::{Map, Plain};
use crate::plan::Plan;
use crate::record::Record;
use crate::start::Start;
use crate::told::{Told, ToldMap};
use map_reader::Since;
use std::alloc::Global;
use std::marker::Brand;
use std::sync::Wait;
use std::sync::atomic::{AtomicU64, Ordering};
use std::thread::Threads;
use std::{hint, thread};
use write_history::{Front, Naming, Opened};

/// The calls of each thread, in the order in which it made them.
pub type History = Vec<Vec<Record>>;

/// The calls of a thread, or why it stopped.
type Records = Result<Vec<Record>, Fault>;

/// How often all four keys are read until a reader has a base: it has one after 64 reads.
const READS_OF_A_BASE: u64 = 17;

/// One map of so many has a history, and is called by sessions.
const MAPS_A_TOLD_MAP: u64 = 3;

/// Where the threads of a history meet, and take their tickets.
#[derive(Drop)]
struct Meeting {
    start: Start,
    tickets: AtomicU64,
}

impl Meeting {
    // Where so many threads are to meet.
    fn new(threads: u64) -> Meeting {
        Meeting {
            start: Start::new(threads),
            tickets: AtomicU64::new(0),
        }
    }
}

/// Makes the history of this number.
pub fn history<R: AllocGlobal + Threads + Wait + Sync>(
    rt: &R,
    load: Load,
    number: u64,
) -> Result<History, Fault> {
    if number % MAPS_A_TOLD_MAP == 2 {
        told::<Brand, R>(rt, load, number, Opened::new(0))
    } else {
        plain(rt, load, number)
    }
}

// A history of a map that has none in its contracts.
fn plain<R: AllocGlobal + Threads + Wait + Sync>(
    rt: &R,
    load: Load,
    number: u64,
) -> Result<History, Fault> {
    let map = Map::new(rt)?;
    let map = &map;
    let readers = map.readers();
    let readers = &readers;
    let meeting = Meeting::new(load.threads);
    let meeting = &meeting;
    let made = thread::map_indices(
        rt,
        rt.alloc(),
        load.threads as usize,
        &|thread: usize| {
            let plan = Plan::new(load.seed, number, thread as u64);
            let caller = Plain::new(rt, map, readers)?;
            calls_of(rt, rt.alloc(), meeting, caller, plan, load.calls)
        },
    )?;
    all_of(rt.alloc(), made)
}

// A history of a map that has one in its contracts too.
fn told<J: Naming + Send + Sync, R: AllocGlobal + Threads + Wait + Sync>(
    rt: &R,
    load: Load,
    number: u64,
    opened: Opened<u64, u64>,
) -> Result<History, Fault>
    requires { J.book ≡ Some opened.book }
{
    let (map, front, authors) = ToldMap::<J>::with_history(rt, opened)?;
    drop(authors);
    by_sessions::<J, Brand, R>(rt, load, number, &map, &front)
}

// The same, whose readers go on from what the front has seen.
fn by_sessions<
    J: Naming + Send + Sync,
    S: Since<u64, u64> + Send + Sync,
    R: AllocGlobal + Threads + Wait + Sync,
>(
    rt: &R,
    load: Load,
    number: u64,
    map: &ToldMap<J>,
    front: &Front<u64, u64, J>,
) -> Result<History, Fault>
    requires { S.since ≡ front.now }
{
    let readers = map.readers_since::<S>(front);
    let readers = &readers;
    let meeting = Meeting::new(load.threads);
    let meeting = &meeting;
    let made = thread::map_indices(
        rt,
        rt.alloc(),
        load.threads as usize,
        &|thread: usize| {
            let plan = Plan::new(load.seed, number, thread as u64);
            let caller = Told::new(map, readers, front);
            calls_of(rt, rt.alloc(), meeting, caller, plan, load.calls)
        },
    )?;
    all_of(rt.alloc(), made)
}

// The calls of all threads.
fn all_of(alloc: Global, made: Vec<Records>) -> Result<History, Fault> {
    let mut threads = Vec::new(alloc);
    for records in made {
        threads.push(records?)?;
    }
    Ok(threads)
}

// Makes `calls` calls of one thread, once all threads have come.
fn calls_of<C: Caller + Drop, R: Wait>(
    rt: &R,
    alloc: Global,
    meeting: &Meeting,
    mut caller: C,
    mut plan: Plan,
    calls: u64,
) -> Records {
    let mut records = Vec::with_capacity(alloc, calls as usize)?;
    read_all(rt, &mut caller, READS_OF_A_BASE);
    meeting.start.wait();
    for _ in 0..calls {
        records.push(recorded(rt, meeting, &mut caller, &mut plan)?)?;
        pause(rt, &mut caller, &mut plan)?;
    }
    Ok(records)
}

// Reads all keys `times` times, and records none of it: a read leaves the map as it is. Where keys were written, the
// reader has a new base by then.
fn read_all<C: Caller, R: Wait>(rt: &R, caller: &mut C, times: u64) {
    for _ in 0..times {
        for key in ALL_KEYS {
            caller.read(rt, key, ReaderCall::GetCopied);
        }
    }
}

// Makes one call between two tickets.
fn recorded<C: Caller, R: Wait>(
    rt: &R,
    meeting: &Meeting,
    caller: &mut C,
    plan: &mut Plan,
) -> Result<Record, Fault> {
    let call = plan.next(caller.kept());
    let before = meeting.tickets.fetch_add(1, Ordering::SeqCst);
    let outcome = caller.make(rt, call)?;
    let after = meeting.tickets.fetch_add(1, Ordering::SeqCst);
    let answer = outcome.returned.answer(rt);
    plan.heard(call, answer);
    Ok(Record {
        before,
        after,
        call: outcome.made,
        answer,
    })
}

// Pauses as the plan has it.
fn pause<C: Caller, R: Wait>(rt: &R, caller: &mut C, plan: &mut Plan) -> Result<(), Fault> {
    read_all(rt, caller, plan.reads_of_a_pause());
    if plan.keeps() {
        caller.keep(rt)?;
    }
    let (steps, yields) = plan.pause();
    for _ in 0..steps {
        hint::spin_loop();
    }
    if yields {
        thread::yield_now();
    }
    Ok(())
}
