//! One thread that has all seats, plays a list of steps and closes the map.
//!
//! Most tests are such a list, each step beside its outcome: a list is no work to prove.
ghost use Rattle.std.specs.Prelude.{⊤};

use crate::memory::{dry, scarce, short};
use crate::steps::{Memory, Step, turn_of};
use crate::unlike::Unlike;
use handles::{Limits, MOST_ENTRIES};
use locked_map::{JournalName, MOST_SEATS, Seat, SharedMap, Use, with};
use std::alloc::{AllocError, Global};
use std::sync::Wait;
use std::thread::Threads;
use test_clients::{
    AnyMap, Deed, Lent, Outcome, Prepared, Query, TestClosed, act, prepare, seen_in, take, taken,
};
use test_keys::ChosenKey;
use test_machine::Request;
use versions::{MOST_PAIRS, View};

/// The seats by which the map is closed.
#[derive(Clone, Copy)]
pub enum Ending {
    /// All, in the order of their numbers.
    All,
    /// All, in the other order.
    Turned,
    /// All, seats 0 and 1 each in the other's place.
    Exchanged,
    /// All but the first.
    WithoutFirst,
    /// All but the last.
    WithoutLast,
}

/// The outcomes of the steps, and the views that are kept.
pub type OutcomesAndViews = (Vec<Outcome>, Vec<View<ChosenKey, u64>>);

/// A list of steps, with room for their outcomes.
#[derive(Drop)]
pub struct Script {
    steps: Vec<Step>,
    ending: Ending,
    returned: Vec<Outcome>,
    views: Vec<View<ChosenKey, u64>>,
}

// How many tickets there is room for: those of all jobs that may be open.
const TICKETS: usize = 64;

impl Use<ChosenKey, u64, Query> for Script {
    type Out = OutcomesAndViews;

    ghost needs = { λ _ _. ⊤ };

    ghost gives = { λ _ _ _. ⊤ };

    fn run<J: JournalName + Send + Sync, R: Threads + Wait + Sync>(
        self,
        rt: &R,
        alloc: Global,
        map: &SharedMap<ChosenKey, u64, Query, J>,
        seats: &mut Vec<Seat<ChosenKey, u64, Query, J>>,
    ) -> OutcomesAndViews {
        play(rt, alloc, &Lent(map), seats, self)
    }
}

fn play<M: AnyMap, R: Threads + Wait + Sync>(
    rt: &R,
    alloc: Global,
    map: &M,
    seats: &mut Vec<M::Seat>,
    script: Script,
) -> OutcomesAndViews {
    let Script {
        steps,
        ending,
        mut returned,
        mut views,
    } = script;
    let mut tickets = Vec::new(alloc);
    let _ = tickets.reserve(TICKETS);
    for step in steps {
        let outcome = take_step(rt, alloc, map, seats, &mut tickets, &mut views, step);
        // what is not noted is missed by the test
        let _ = returned.push(outcome);
    }
    arrange(seats, ending);
    (returned, views)
}

fn take_step<M: AnyMap, R: Threads + Wait + Sync>(
    rt: &R,
    alloc: Global,
    map: &M,
    seats: &mut Vec<M::Seat>,
    tickets: &mut Vec<M::Ticket>,
    views: &mut Vec<View<ChosenKey, u64>>,
    step: Step,
) -> Outcome {
    match turn_of(step) {
        Some((number, memory, deed, _)) => match seats.get_mut(number as usize) {
            Some(seat) => take_turn(rt, alloc, map, seat, tickets, memory, deed),
            None => Outcome::Lost,
        },
        None => take_other(rt, alloc, map, seats, tickets, views, step),
    }
}

fn take_turn<M: AnyMap, R: Threads + Wait + Sync>(
    rt: &R,
    alloc: Global,
    map: &M,
    seat: &mut M::Seat,
    tickets: &mut Vec<M::Ticket>,
    memory: Memory,
    deed: Deed,
) -> Outcome {
    let Ok(prepared) = prepare(alloc, deed) else {
        return Outcome::Lost;
    };
    let returned = take_with(rt, alloc, map, seat, tickets, memory, &prepared);
    drop(prepared);
    returned
}

fn take_with<M: AnyMap, R: Threads + Wait + Sync>(
    rt: &R,
    alloc: Global,
    map: &M,
    seat: &mut M::Seat,
    tickets: &mut Vec<M::Ticket>,
    memory: Memory,
    prepared: &Prepared,
) -> Outcome {
    match memory {
        Memory::Ample => take(rt, alloc, map, seat, tickets, prepared),
        Memory::Wanting => short(rt, alloc, map, seat, tickets, prepared),
        Memory::None => dry(rt, alloc, map, seat, tickets, prepared),
        Memory::Bytes(bytes) => scarce(rt, alloc, map, seat, tickets, prepared, bytes),
    }
}

// A step that is no request. It returns `Unit` where it asks for nothing.
fn take_other<M: AnyMap, R: Threads + Wait + Sync>(
    rt: &R,
    alloc: Global,
    map: &M,
    seats: &mut Vec<M::Seat>,
    tickets: &mut Vec<M::Ticket>,
    views: &mut Vec<View<ChosenKey, u64>>,
    step: Step,
) -> Outcome {
    match step {
        Step::Keep(number, handle, _) => match seats.get_mut(number as usize) {
            Some(seat) => keep(rt, map, seat, views, handle),
            None => Outcome::Lost,
        },
        Step::FinishAll(number, returned) => match seats.get_mut(number as usize) {
            Some(seat) => finish_all(rt, alloc, map, seat, tickets, returned),
            None => Outcome::Lost,
        },
        Step::Meet => {
            meet::<M>(seats);
            Outcome::Unit
        }
        Step::Lose(job) => {
            drop(taken::<M>(tickets, job));
            Outcome::Unit
        }
        _ => Outcome::Unit,
    }
}

fn keep<M: AnyMap, R: Wait>(
    rt: &R,
    map: &M,
    seat: &mut M::Seat,
    views: &mut Vec<View<ChosenKey, u64>>,
    handle: u32,
) -> Outcome {
    match map.view(rt, seat, handle) {
        Ok(view) => {
            let seen = seen_in(&view);
            let _ = views.push(view);
            Outcome::View(seen)
        }
        Err(refusal) => Outcome::Refused(refusal),
    }
}

// Finishes each job. Returns the outcome `returned` if each has it, or else the first other outcome.
fn finish_all<M: AnyMap, R: Threads + Wait + Sync>(
    rt: &R,
    alloc: Global,
    map: &M,
    seat: &mut M::Seat,
    tickets: &mut Vec<M::Ticket>,
    returned: Outcome,
) -> Outcome {
    for _ in 0..TICKETS {
        let Some(job) = first_job::<M>(tickets) else {
            return returned;
        };
        let outcome = act(
            rt,
            alloc,
            map,
            seat,
            tickets,
            Deed::Ask(Request::Finish(job)),
        );
        if outcome != returned {
            return outcome;
        }
    }
    returned
}

// The job of the first ticket.
fn first_job<M: AnyMap>(tickets: &[M::Ticket]) -> Option<u64> {
    match tickets.first() {
        Some(ticket) => Some(M::job(ticket)),
        None => None,
    }
}

fn meet<M: AnyMap>(seats: &mut Vec<M::Seat>) {
    if seats.len() >= 2 {
        let (one, two) = seats.split_at_mut(1);
        M::meet(&mut one[0], &mut two[0]);
    }
}

// The seats by which the map is closed.
fn arrange<S: Drop>(seats: &mut Vec<S>, ending: Ending) {
    match ending {
        Ending::All => (),
        Ending::Turned => seats.reverse(),
        Ending::Exchanged => {
            if seats.len() >= 2 {
                seats.swap(0, 1);
            }
        }
        Ending::WithoutFirst => {
            if !seats.is_empty() {
                let _ = seats.remove(0);
            }
        }
        Ending::WithoutLast => {
            let _ = seats.pop();
        }
    }
}

/// What a map leaves that is lent to a script: what the script returns, and what is left of the map where it was closed.
pub type Left = (OutcomesAndViews, Option<TestClosed>);

/// Plays the script on a new map with this number of seats.
pub fn lent<R: Threads + Wait + Sync>(
    rt: &R,
    alloc: Global,
    seats: u32,
    limits: Limits,
    script: Script,
) -> Result<Left, Unlike> {
    let Limits { pairs, entries } = limits;
    if pairs < 1 || pairs > MOST_PAIRS || entries < 2 || entries > MOST_ENTRIES {
        drop(script);
        return Err(Unlike::NotAllowed);
    }
    if seats < 1 || seats > MOST_SEATS {
        drop(script);
        return Err(Unlike::NotAllowed);
    }
    match with(rt, alloc, seats, limits, script) {
        Ok((returned, closed)) => Ok((returned, closed.ok())),
        Err((_, script)) => {
            drop(script);
            Err(Unlike::NoMemory)
        }
    }
}

/// The script of the steps.
pub fn script_of(alloc: Global, steps: &[Step], ending: Ending) -> Result<Script, AllocError> {
    let steps = Vec::from_slice(alloc, steps)?;
    Ok(Script {
        returned: Vec::with_capacity(alloc, steps.len())?,
        views: Vec::new(alloc),
        steps,
        ending,
    })
}

/// Plays the steps and closes the map by these seats: how many entries its journal has. None where it is torn.
///
/// # Errors
///
/// No map may have these limits, or so many seats; or the test found no memory.
pub fn closed_len<R: Threads + Wait + Sync>(
    rt: &R,
    alloc: Global,
    seats: u32,
    steps: &[Step],
    limits: Limits,
    ending: Ending,
) -> Result<Option<usize>, Unlike> {
    let script = script_of(alloc, steps, ending)?;
    let (both, closed) = lent(rt, alloc, seats, limits, script)?;
    drop(both);
    let len = match &closed {
        Some(closed) => Some(closed.journal.len()),
        None => None,
    };
    drop(closed);
    Ok(len)
}

/// Plays the steps and closes the map by these seats: the outcome of the last step, and whether the map was closed.
///
/// # Errors
///
/// No map may have these limits, or so many seats; or the test found no memory.
pub fn last_and_closed<R: Threads + Wait + Sync>(
    rt: &R,
    alloc: Global,
    seats: u32,
    steps: &[Step],
    limits: Limits,
    ending: Ending,
) -> Result<(Outcome, bool), Unlike> {
    let script = script_of(alloc, steps, ending)?;
    let (both, closed) = lent(rt, alloc, seats, limits, script)?;
    let is_closed = closed.is_some();
    drop(closed);
    let last = match both.0.last() {
        Some(last) => *last,
        None => Outcome::Lost,
    };
    drop(both);
    Ok((last, is_closed))
}
