//! A client that makes random requests, and notes down what they return.
use std::alloc::Global;
use std::sync::atomic::{AtomicU64, Ordering};
use std::sync::{Arc, Wait};
use std::thread::Threads;
use test_clients::{A, AnyMap, Deed, Exchange, KEYS, Outcome, Plays, act};
use test_keys::{ChosenKey, Random};
use test_machine::{ALL, Do, EVEN, Passing, Question, Request};

// How many calls a client makes.
const CALLS: u32 = 500;

// Values that are put are below this; those that a client makes for an absent key are from here on, each its own.
const VALUES: u32 = 6;

const FIRST_MADE: u32 = 1_000;

/// Random requests.
#[derive(Drop)]
pub struct Draws(pub Random);

impl Draws {
    /// A number below a bound.
    fn next(&mut self, below: u32) -> u32 {
        self.0.next(below)
    }

    fn key(&mut self) -> ChosenKey {
        KEYS.get(self.next(4) as usize).copied().unwrap_or(A)
    }

    fn value(&mut self) -> u64 {
        u64::from(self.next(VALUES))
    }

    // The first handle half of the time, else any, or now and then a number that is none's.
    fn handle(&mut self) -> u32 {
        match self.next(2) {
            0 => 1,
            _ => self.other_handle(),
        }
    }

    // A handle that is not the first, so that no job keeps that one from being opened.
    fn other_handle(&mut self) -> u32 {
        match self.next(10) {
            0 => 1_024,
            _ => self.next(4).saturating_add(2),
        }
    }

    fn command(&mut self) -> Do {
        let (key, value, other) = (self.key(), self.value(), self.value());
        match self.next(32) {
            0..=3 => Do::Get(key),
            4..=11 => Do::Put(key, value),
            12..=15 => Do::PutIfAbsent(key, value),
            16..=18 => Do::Replace(key, value),
            19..=22 => Do::ReplaceIf(key, other, value),
            23..=25 => Do::Remove(key),
            26..=29 => Do::RemoveIf(key, value),
            30 => Do::Size,
            _ => Do::Clear,
        }
    }

    fn test(&mut self) -> Passing {
        match self.next(2) {
            0 => ALL,
            _ => EVEN,
        }
    }

    fn question(&mut self) -> Question {
        let (test, to) = (self.test(), self.other_handle());
        match self.next(7) {
            0 => Question::Count(test),
            1 => Question::Exists(test),
            2 => Question::ForAll(test),
            3 => Question::Find(test),
            4 => Question::Filter(test, to),
            5 => Question::Zeros(to),
            _ => Question::Total,
        }
    }

    // A request that closes no job.
    fn request(&mut self) -> Request {
        let handle = self.handle();
        match self.next(80) {
            0..=6 => Request::Open(handle),
            7..=12 => Request::Snapshot(handle, self.other_handle()),
            13..=16 => Request::Drop(handle),
            17..=22 => Request::View(handle),
            23..=34 => Request::Freeze(handle, self.question()),
            _ => Request::On(handle, self.command()),
        }
    }

    // The end of a job.
    fn end(&mut self, job: u64) -> Request {
        match self.next(4) {
            0 => Request::Abandon(job),
            _ => Request::Finish(job),
        }
    }
}

/// A client's call and what it returned, and the time by the clients' clock before the call and after it.
#[derive(Clone, Copy, Debug)]
pub struct Note {
    pub begun: u64,
    pub ended: u64,
    pub exchange: Exchange,
}

/// How many notes a client makes at most.
pub const MOST_NOTES: usize = 1_000;

/// A client that makes random calls.
#[derive(Drop)]
pub struct Player {
    pub number: u32,
    pub draws: Draws,
    /// Of this many calls it closes its first job by one, its second by one, and so on.
    pub jobs: u32,
    /// Goes on with each look at it.
    pub clock: Arc<AtomicU64>,
    /// Has room for all notes.
    pub notes: Vec<Note>,
}

impl Plays for Player {
    type Out = Vec<Note>;

    fn play<M: AnyMap, R: Threads + Wait + Sync>(
        self,
        rt: &R,
        alloc: Global,
        map: &M,
        seat: &mut M::Seat,
    ) -> Vec<Note> {
        let Player {
            number,
            mut draws,
            jobs,
            clock,
            mut notes,
        } = self;
        let mut tickets = Vec::new(alloc);
        for call in 0..CALLS {
            let deed = next_deed::<M>(&mut draws, &tickets, jobs, made_by(number, call));
            let begun = clock.fetch_add(1, Ordering::SeqCst);
            let returned = act(rt, alloc, map, seat, &mut tickets, deed);
            let ended = clock.fetch_add(1, Ordering::SeqCst);
            note_down(&mut notes, (begun, ended), deed, returned);
        }
        notes
    }
}

// The value that the client makes by this call.
fn made_by(number: u32, call: u32) -> u64 {
    let first = FIRST_MADE.wrapping_mul(number.wrapping_add(1));
    u64::from(first.wrapping_add(call))
}

// Gets or stores a value, closes one of the jobs whose tickets these are, or does something else.
fn next_deed<M: AnyMap>(draws: &mut Draws, tickets: &[M::Ticket], jobs: u32, made: u64) -> Deed {
    if draws.next(12) == 0 {
        return Deed::GetOrStore(draws.handle(), draws.key(), made);
    }
    let place = draws.next(jobs) as usize;
    match tickets.get(place) {
        Some(ticket) => Deed::Ask(draws.end(M::job(ticket))),
        None => Deed::Ask(draws.request()),
    }
}

// The time before a call and after it.
type Times = (u64, u64);

// A note for which there is no room is missed by the test.
fn add(notes: &mut Vec<Note>, times: Times, request: Request, returned: Outcome) {
    let (begun, ended) = times;
    let exchange = (request, returned);
    let _ = notes.push(Note {
        begun,
        ended,
        exchange,
    });
}

// Notes down the requests and outcomes of one call: of a value that was got or stored, a get, and a put_if_absent where
// the value was made.
fn note_down(notes: &mut Vec<Note>, times: Times, deed: Deed, returned: Outcome) {
    match deed {
        Deed::Ask(request) => add(notes, times, request, returned),
        Deed::GetOrStore(handle, key, made) => {
            let (is_made, answer) = got_of(returned, made);
            let get = Request::On(handle, Do::Get(key));
            if is_made {
                add(notes, times, get, Outcome::Old(None));
                let put = Request::On(handle, Do::PutIfAbsent(key, made));
                add(notes, times, put, answer);
            } else {
                add(notes, times, get, answer);
            }
        }
        Deed::Bulk(_, _) => (),
    }
}

// Whether the value was made, and what the last of the requests must have returned.
fn got_of(returned: Outcome, made: u64) -> (bool, Outcome) {
    match returned {
        Outcome::Got(true, value) if value == made => (true, Outcome::Old(None)),
        Outcome::Got(is_made, value) => (is_made, Outcome::Old(Some(value))),
        Outcome::NotGot(is_made, refusal) => (is_made, Outcome::Refused(refusal)),
        _ => (false, returned),
    }
}
