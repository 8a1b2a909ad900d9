//! How a seat does what is a plain value.
//!
//! What the test itself lacks is an outcome too, which no test wants. A value of a deep type is dropped by name, which is
//! less to prove.
use crate::any_map::AnyMap;
use crate::outcomes::{Outcome, call_outcome_of, got_outcome, view_outcome};
use crate::questions::Query;
use crate::requests::{Deed, Prepared, prepare};
use crate::signs::TestGate;
use handles::Call;
use locked_map::Crew;
use std::alloc::Global;
use std::sync::{Arc, Wait};
use std::thread::Threads;
use test_keys::ChosenKey;

/// How many workers answer a bulk call. They cut the map down to single pairs, and are in no hurry to end.
pub(crate) const WORKERS: u32 = 2;

const CREW: Crew = Crew {
    workers: WORKERS,
    grain: 1,
    patience: 1_000_000,
};

/// The seat does this. What opens a job adds its ticket to these, and the end of a job takes the ticket of its number.
pub fn act<M: AnyMap, R: Threads + Wait + Sync>(
    rt: &R,
    alloc: Global,
    map: &M,
    seat: &mut M::Seat,
    tickets: &mut Vec<M::Ticket>,
    deed: Deed,
) -> Outcome {
    match prepare(alloc, deed) {
        Ok(prepared) => {
            let returned = take(rt, alloc, map, seat, tickets, &prepared);
            drop(prepared);
            returned
        }
        Err(_) => Outcome::Lost,
    }
}

/// The seat does what was prepared, any number of times. But for a finish, which works the job, it asks for no memory
/// but what the map asks for, where the tickets have room, and gives none back.
pub fn take<M: AnyMap, R: Threads + Wait + Sync>(
    rt: &R,
    alloc: Global,
    map: &M,
    seat: &mut M::Seat,
    tickets: &mut Vec<M::Ticket>,
    prepared: &Prepared,
) -> Outcome {
    match prepared {
        Prepared::Call(call) => make_call(rt, map, seat, call),
        Prepared::View(handle) => view(rt, map, seat, *handle),
        Prepared::Freeze(handle, query) => freeze(rt, map, seat, tickets, *handle, query),
        Prepared::Finish(job) => finish(rt, alloc, map, seat, tickets, *job),
        Prepared::Abandon(job) => abandon(rt, map, seat, tickets, *job),
        Prepared::GetOrStore(handle, key, value) => {
            get_or_store(rt, map, seat, *handle, key, *value)
        }
        Prepared::Bulk(handle, query) => take_bulk(rt, map, seat, tickets, *handle, query),
    }
}

// Makes the call, which shares its key and values.
fn make_call<M: AnyMap, R: Wait>(
    rt: &R,
    map: &M,
    seat: &mut M::Seat,
    call: &Call<ChosenKey, u64>,
) -> Outcome {
    match call.try_clone::<Query>() {
        Ok(call) => call_outcome_of(&map.call(rt, seat, call)),
        Err(_) => Outcome::Lost,
    }
}

fn view<M: AnyMap, R: Wait>(rt: &R, map: &M, seat: &mut M::Seat, handle: u32) -> Outcome {
    let answer = map.view(rt, seat, handle);
    let returned = view_outcome(&answer);
    drop(answer);
    returned
}

fn freeze<M: AnyMap, R: Wait>(
    rt: &R,
    map: &M,
    seat: &mut M::Seat,
    tickets: &mut Vec<M::Ticket>,
    handle: u32,
    query: &Arc<Query>,
) -> Outcome {
    let Ok(query) = Arc::try_clone(query) else {
        return Outcome::Lost;
    };
    match map.freeze(rt, seat, handle, query) {
        Ok((ticket, seen)) => {
            let returned = Outcome::Frozen(M::job(&ticket), seen);
            kept(tickets, ticket, returned)
        }
        Err(refusal) => Outcome::Refused(refusal),
    }
}

// Adds the ticket. Returns the outcome, unless the ticket is lost.
fn kept<T: Drop>(tickets: &mut Vec<T>, ticket: T, returned: Outcome) -> Outcome {
    match tickets.push(ticket) {
        Ok(()) => returned,
        Err(_) => Outcome::Lost,
    }
}

// Finishes the job by the part of the whole map that was frozen.
fn finish<M: AnyMap, R: Wait>(
    rt: &R,
    alloc: Global,
    map: &M,
    seat: &mut M::Seat,
    tickets: &mut Vec<M::Ticket>,
    job: u64,
) -> Outcome {
    let Some(ticket) = taken::<M>(tickets, job) else {
        return Outcome::Lost;
    };
    let Ok(part) = M::work(alloc, &ticket) else {
        drop(ticket);
        return Outcome::Lost;
    };
    match map.finish(rt, seat, ticket, part) {
        Ok(returned) => returned,
        Err((refusal, ticket, _)) => kept(tickets, ticket, Outcome::Refused(refusal)),
    }
}

fn abandon<M: AnyMap, R: Wait>(
    rt: &R,
    map: &M,
    seat: &mut M::Seat,
    tickets: &mut Vec<M::Ticket>,
    job: u64,
) -> Outcome {
    let Some(ticket) = taken::<M>(tickets, job) else {
        return Outcome::Lost;
    };
    match map.abandon(rt, seat, ticket) {
        Ok(()) => Outcome::Abandoned,
        Err((refusal, ticket)) => kept(tickets, ticket, Outcome::Refused(refusal)),
    }
}

/// Takes the ticket of the job out of these.
pub fn taken<M: AnyMap>(tickets: &mut Vec<M::Ticket>, job: u64) -> Option<M::Ticket> {
    let place = tickets.iter().position(|ticket| M::job(ticket) == job)?;
    Some(tickets.swap_remove(place))
}

// Gets the key's value on the handle or stores this one.
fn get_or_store<M: AnyMap, R: Wait>(
    rt: &R,
    map: &M,
    seat: &mut M::Seat,
    handle: u32,
    key: &Arc<ChosenKey>,
    value: u64,
) -> Outcome {
    let Ok(key) = Arc::try_clone(key) else {
        return Outcome::Lost;
    };
    let mut is_made = false;
    let answer = map.get_or_else_update(rt, seat, handle, key, || {
        is_made = true;
        value
    });
    got_outcome(is_made, &answer)
}

fn take_bulk<M: AnyMap, R: Threads + Wait + Sync>(
    rt: &R,
    map: &M,
    seat: &mut M::Seat,
    tickets: &mut Vec<M::Ticket>,
    handle: u32,
    query: &Arc<Query>,
) -> Outcome {
    match Arc::try_clone(query) {
        Ok(query) => bulk(rt, map, seat, tickets, handle, query, &TestGate::Free),
        Err(_) => Outcome::Lost,
    }
}

/// Has a crew answer the query, which asks the gate before each piece. A ticket that comes back is added to these.
pub fn bulk<M: AnyMap, R: Threads + Wait + Sync>(
    rt: &R,
    map: &M,
    seat: &mut M::Seat,
    tickets: &mut Vec<M::Ticket>,
    handle: u32,
    query: Arc<Query>,
    gate: &TestGate<'_>,
) -> Outcome {
    match map.bulk(rt, seat, handle, query, CREW, gate) {
        Ok(returned) => returned,
        Err((refusal, ticket)) => match ticket {
            Some(ticket) => kept(tickets, ticket, Outcome::Returned(refusal)),
            None => Outcome::Refused(refusal),
        },
    }
}
