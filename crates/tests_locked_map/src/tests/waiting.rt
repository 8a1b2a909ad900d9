//! Work with no lock held that waits for another client: a value that is made, and a map that a crew counts.
use super::assert_is;
use super::running::run_clients;
use std::alloc::Global;
use std::process::Abort;
use std::sync::atomic::Ordering;
use std::sync::{Arc, Wait};
use std::thread::Threads;
use test_clients::{
    A, AnyMap, Deed, Entered, LARGEST, MOST_TURNS, Outcome, Playing, Plays, Seen, Signs, TestGate,
    act, bulk,
};
use test_journals::replayed;
use test_keys::{ChosenKey, wait_for};
use test_machine::Do::{Get, Put, PutIfAbsent};
use test_machine::Request::{Finish, Freeze, On, Open};
use test_machine::{ALL, Question, Request, query_of, shared_key};

// A value that is made is held until the put has been answered.
fn make(signs: &Signs) -> u64 {
    signs.begun.store(1, Ordering::SeqCst);
    if !wait_for(&signs.answered, MOST_TURNS) {
        signs.ran_out.store(1, Ordering::SeqCst);
    }
    7
}

// The clients, of which two meet.
#[derive(Drop)]
enum Meeter {
    // Opens the handle and gets A, or stores 7, which is made only once the other one's put is answered.
    Getter(Arc<Signs, Global>),
    // Opens the handle, puts 64 keys of different positions, and has a crew count them.
    Counter(Arc<Signs, Global>),
    // Puts 2 at A once the other one has begun.
    Putter(Arc<Signs, Global>),
}

impl Plays for Meeter {
    type Out = Outcome;

    fn play<M: AnyMap, R: Threads + Wait + Sync>(
        self,
        rt: &R,
        alloc: Global,
        map: &M,
        seat: &mut M::Seat,
    ) -> Outcome {
        match self {
            Meeter::Getter(signs) => play_getter(rt, alloc, map, seat, &signs),
            Meeter::Counter(signs) => play_counter(rt, alloc, map, seat, &signs),
            Meeter::Putter(signs) => play_putter(rt, alloc, map, seat, &signs),
        }
    }
}

fn play_getter<M: AnyMap, R: Threads + Wait + Sync>(
    rt: &R,
    alloc: Global,
    map: &M,
    seat: &mut M::Seat,
    signs: &Signs,
) -> Outcome {
    let mut tickets = Vec::new(alloc);
    act(rt, alloc, map, seat, &mut tickets, Deed::Ask(Open(1)));
    let Ok(key) = shared_key(alloc, A) else {
        return Outcome::Lost;
    };
    match map.get_or_else_update(rt, seat, 1, key, || make(signs)) {
        Ok(value) => Outcome::Old(Some(*value)),
        Err(refusal) => Outcome::Refused(refusal),
    }
}

// How many keys are counted. Their path words count up from 0, and A is not among them.
const PAIRS: u64 = 64;

fn play_counter<M: AnyMap, R: Threads + Wait + Sync>(
    rt: &R,
    alloc: Global,
    map: &M,
    seat: &mut M::Seat,
    signs: &Signs,
) -> Outcome {
    let mut tickets = Vec::new(alloc);
    act(rt, alloc, map, seat, &mut tickets, Deed::Ask(Open(1)));
    for path in 0..PAIRS {
        let key = ChosenKey { path, id: 0 };
        act(
            rt,
            alloc,
            map,
            seat,
            &mut tickets,
            Deed::Ask(On(1, Put(key, path))),
        );
    }
    match Arc::new(alloc, query_of(Question::Count(ALL))) {
        Ok(query) => bulk(
            rt,
            map,
            seat,
            &mut tickets,
            1,
            query,
            &TestGate::Signed(signs),
        ),
        Err(_) => Outcome::Lost,
    }
}

fn play_putter<M: AnyMap, R: Threads + Wait + Sync>(
    rt: &R,
    alloc: Global,
    map: &M,
    seat: &mut M::Seat,
    signs: &Signs,
) -> Outcome {
    let mut tickets = Vec::new(alloc);
    if !wait_for(&signs.begun, MOST_TURNS) {
        return Outcome::Lost;
    }
    let returned = act(
        rt,
        alloc,
        map,
        seat,
        &mut tickets,
        Deed::Ask(On(1, Put(A, 2))),
    );
    signs.answered.store(1, Ordering::SeqCst);
    returned
}

// A client that gets a value or counts, and one that puts.
fn two_clients(
    rt: &impl Abort,
    alloc: Global,
    signs: &Arc<Signs, Global>,
    counts: bool,
) -> Vec<Playing<Meeter>> {
    let mine = Arc::try_clone(signs).expect(rt, "no signs");
    let first = if counts {
        Meeter::Counter(mine)
    } else {
        Meeter::Getter(mine)
    };
    let theirs = Arc::try_clone(signs).expect(rt, "no signs");
    let mut clients = Vec::new(alloc);
    clients.push(Playing(first)).expect(rt, "no room");
    clients
        .push(Playing(Meeter::Putter(theirs)))
        .expect(rt, "no room");
    clients
}

// The outcomes of both clients, how many waits ran out, how many pieces the caller of the crew began, and the entries.
type Met = (Vec<Outcome>, u32, u32, Vec<Entered>);

fn run_pair<R: AllocGlobal + Abort + Threads + Wait + Sync>(rt: &R, counts: bool) -> Met {
    let alloc = rt.alloc();
    let signs = Arc::new(alloc, Signs::new()).expect(rt, "no signs");
    let clients = two_clients(rt, alloc, &signs, counts);
    let (returned, closed) = run_clients(rt, LARGEST, clients);
    let entries = replayed(alloc, LARGEST, &closed).expect(rt, "another table");
    let ran_out = signs.ran_out.load(Ordering::SeqCst);
    let callers = signs.callers.load(Ordering::SeqCst);
    (returned, ran_out, callers, entries)
}

// The first client has this outcome and the put finds nothing, no wait runs out, the caller begins no piece, and behind
// `before` entries there are these.
fn assert_met<R: AllocGlobal + Abort + Threads + Wait + Sync>(
    rt: &R,
    counts: bool,
    first: Outcome,
    before: usize,
    wanted: &[Entered],
) {
    let (returned, ran_out, callers, entries) = run_pair(rt, counts);
    assert_is(rt, returned.first().copied(), Some(first));
    assert_is(rt, returned.get(1).copied(), Some(Outcome::Old(None)));
    assert_is(rt, (ran_out, callers), (0, 0));
    assert_is(rt, entries.len(), before.saturating_add(wanted.len()));
    for (entry, wanted) in entries.iter().skip(before).zip(wanted) {
        assert_is(rt, *entry, *wanted);
    }
}

fn by(seat: u32, request: Request, outcome: Outcome) -> Entered {
    Entered {
        seat,
        request,
        outcome,
    }
}

// Were the value made under the lock, the put would wait for its end, and the turns would run out.
#[test]
fn a_value_is_made_with_no_lock_held(rt: HostRuntime) {
    let found = Outcome::Old(Some(2));
    let wanted = [
        by(0, Open(1), Outcome::Unit),
        by(0, On(1, Get(A)), Outcome::Old(None)),
        by(1, On(1, Put(A, 2)), Outcome::Old(None)),
        by(0, On(1, PutIfAbsent(A, 7)), found),
    ];
    assert_met(&rt, false, found, 0, &wanted);
}

// The keys that are counted, none of which is one of the others.
const FROZEN: Seen = Seen {
    len: PAIRS,
    values: [None; 4],
};

// The crew counts the map of the freeze. Did it work under the lock, the put would wait for its end, and the turns would
// run out; and so they would if one thread worked all pieces.
#[test]
fn a_crew_counts_with_no_lock_held(rt: HostRuntime) {
    let freeze = Freeze(1, Question::Count(ALL));
    let wanted = [
        by(0, freeze, Outcome::Frozen(0, FROZEN)),
        by(1, On(1, Put(A, 2)), Outcome::Old(None)),
        by(0, Finish(0), Outcome::Count(64)),
    ];
    assert_met(&rt, true, Outcome::Count(64), 65, &wanted);
}
