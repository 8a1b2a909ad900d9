//! How a seat does something with requests for memory refused: all of them, those that so many bytes do not serve, or
//! the first, the second and so on.
use std::alloc::Global;
use std::sync::Wait;
use std::thread::Threads;
use test_clients::{AnyMap, Outcome, Prepared, take, taken};
use test_keys::Shortage;
use versions::Refusal;

// How many bytes are given after each refusal.
const STEP: usize = 16;

// How many are given after a bulk call whose ticket came back, since its job stays open and a table has 64 at most.
const LARGE_STEP: usize = 4_096;

// How often something is tried at most.
const TRIES: u32 = 4_096;

/// The seat does it with every request for memory refused.
pub fn dry<M: AnyMap, R: Threads + Wait + Sync>(
    rt: &R,
    alloc: Global,
    map: &M,
    seat: &mut M::Seat,
    tickets: &mut Vec<M::Ticket>,
    prepared: &Prepared,
) -> Outcome {
    let Ok(shortage) = Shortage::new(alloc) else {
        return Outcome::Lost;
    };
    let returned = take(rt, alloc, map, seat, tickets, prepared);
    drop(shortage);
    returned
}

/// The seat does it with this many bytes of memory next to one another.
pub fn scarce<M: AnyMap, R: Threads + Wait + Sync>(
    rt: &R,
    alloc: Global,
    map: &M,
    seat: &mut M::Seat,
    tickets: &mut Vec<M::Ticket>,
    prepared: &Prepared,
    bytes: usize,
) -> Outcome {
    let Ok(shortage) = Shortage::with_bytes(alloc, bytes) else {
        return Outcome::Lost;
    };
    let returned = take(rt, alloc, map, seat, tickets, prepared);
    drop(shortage);
    returned
}

/// The seat does it with no memory, with a little, and so on, until there is enough. Memory runs out at least once.
pub fn short<M: AnyMap, R: Threads + Wait + Sync>(
    rt: &R,
    alloc: Global,
    map: &M,
    seat: &mut M::Seat,
    tickets: &mut Vec<M::Ticket>,
    prepared: &Prepared,
) -> Outcome {
    match prepared {
        Prepared::Finish(job) => short_finish(rt, alloc, map, seat, tickets, *job),
        _ => short_of_all(rt, alloc, map, seat, tickets, prepared),
    }
}

// The same of what is no finish.
fn short_of_all<M: AnyMap, R: Threads + Wait + Sync>(
    rt: &R,
    alloc: Global,
    map: &M,
    seat: &mut M::Seat,
    tickets: &mut Vec<M::Ticket>,
    prepared: &Prepared,
) -> Outcome {
    let Ok(mut shortage) = Shortage::new(alloc) else {
        return Outcome::Lost;
    };
    let mut gets = 0usize;
    for tried in 0..TRIES {
        let returned = take(rt, alloc, map, seat, tickets, prepared);
        // the entry of a get that was made keeps some of what was given
        if returned == Outcome::NotGot(true, Refusal::NoMemory) {
            gets = gets.saturating_add(1);
        }
        let bytes = bytes_after(returned, gets);
        if bytes == 0 {
            return if tried > 0 { returned } else { Outcome::Lost };
        }
        if shortage.give(alloc, bytes).is_err() {
            return Outcome::Lost;
        }
    }
    Outcome::Lost
}

// How many bytes are given after this outcome, with `gets` gets made; none where memory did not run out.
fn bytes_after(returned: Outcome, gets: usize) -> usize {
    match returned {
        Outcome::Refused(Refusal::NoMemory) => STEP,
        Outcome::NotGot(_, Refusal::NoMemory) => STEP.saturating_mul(gets.saturating_add(1)),
        Outcome::Returned(Refusal::NoMemory) => LARGE_STEP,
        _ => 0,
    }
}

// The same of a finish. The job is worked before memory runs out.
fn short_finish<M: AnyMap, R: Wait>(
    rt: &R,
    alloc: Global,
    map: &M,
    seat: &mut M::Seat,
    tickets: &mut Vec<M::Ticket>,
    job: u64,
) -> Outcome {
    let Some(ticket) = taken::<M>(tickets, job) else {
        return Outcome::Lost;
    };
    let Ok(part) = M::work(alloc, &ticket) else {
        drop(ticket);
        return Outcome::Lost;
    };
    match finish(rt, alloc, map, seat, ticket, part) {
        Some(returned) => returned,
        None => Outcome::Lost,
    }
}

// The ticket and the part are handed back where memory ran out, and used again. None where it never did.
fn finish<M: AnyMap, R: Wait>(
    rt: &R,
    alloc: Global,
    map: &M,
    seat: &mut M::Seat,
    ticket: M::Ticket,
    part: M::Part,
) -> Option<Outcome>
    requires { M.answers ticket part }
{
    let mut ticket = ticket;
    let mut part = part;
    let mut shortage = Shortage::new(alloc).ok()?;
    for refused in 0..TRIES {
        match map.finish(rt, seat, ticket, part) {
            Ok(returned) => return if refused > 0 { Some(returned) } else { None },
            Err((Refusal::NoMemory, same_ticket, same_part)) => {
                ticket = same_ticket;
                part = same_part;
                shortage.give(alloc, STEP).ok()?;
            }
            Err(_) => return None,
        }
    }
    None
}
