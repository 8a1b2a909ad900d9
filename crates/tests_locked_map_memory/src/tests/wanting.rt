//! Calls with requests for memory refused: the first, the second and so on, until a call meets no refusal.
use super::{assert_is, assert_steps, filled};
use std::process::Abort;
use std::sync::Wait;
use std::thread::Threads;
use test_clients::{A, B, C, Entered, FOUR_AND_FIVE, LARGEST, Outcome, Seen};
use test_journals::Step::{Ask, DryBulk, Files, FinishAll, Short, ShortBulk, ShortGet};
use test_journals::{Step, played};
use test_machine::Do::{Clear, Get, Put, PutIfAbsent, Remove};
use test_machine::Request::{Abandon, Finish, Freeze, On, Open, Snapshot, View};
use test_machine::{ALL, EVEN, Question, Request};
use versions::Refusal;

// How many entries there are before something is tried: as many as the first bucket of the vector of entries has, and
// as a seat's list and the journal have room for. So each of them has to grow.
const ENTRIES: usize = 32;

const COUNT: Question = Question::Count(ALL);

const FILTER: Question = Question::Filter(EVEN, 5);

// The value 4 of A.
const FOUR: Seen = Seen {
    len: 1,
    values: [Some(4), None, None, None],
};

const ONE: [Step; 2] = [
    Ask(0, Open(1), Outcome::Unit),
    Ask(0, On(1, Put(A, 4)), Outcome::Old(None)),
];

// The first steps are followed by sizes, up to `ENTRIES` steps. Then the request is refused some times, after which the
// map and the seat are as before. At last it is made.
fn assert_short<R: AllocGlobal + Abort + Threads + Wait + Sync>(
    rt: &R,
    first: &[Step],
    request: Request,
    returned: Outcome,
) {
    let mut steps = filled(rt, rt.alloc(), first, ENTRIES, 1);
    steps
        .push(Short(0, request, returned))
        .expect(rt, "no room");
    assert_steps(rt, 1, LARGEST, &steps);
}

const CALLS: [(Request, Outcome); 9] = [
    (Open(2), Outcome::Unit),
    (Snapshot(1, 2), Outcome::Unit),
    (Request::Drop(1), Outcome::Unit),
    (On(1, Get(A)), Outcome::Old(Some(4))),
    (On(1, Put(B, 5)), Outcome::Old(None)),
    (On(1, Remove(A)), Outcome::Old(Some(4))),
    (On(1, Clear), Outcome::Cleared),
    (View(1), Outcome::View(FOUR)),
    (Freeze(1, FILTER), Outcome::Frozen(0, FOUR)),
];

#[test]
fn calls_are_refused_at_each_request(rt: HostRuntime) {
    for (request, returned) in CALLS {
        assert_short(&rt, &ONE, request, returned);
    }
}

const A_COUNT: [Step; 3] = [
    Ask(0, Open(1), Outcome::Unit),
    Ask(0, On(1, Put(A, 4)), Outcome::Old(None)),
    Ask(0, Freeze(1, COUNT), Outcome::Frozen(0, FOUR)),
];

const A_FILTER: [Step; 3] = [
    Ask(0, Open(1), Outcome::Unit),
    Ask(0, On(1, Put(A, 4)), Outcome::Old(None)),
    Ask(0, Freeze(1, FILTER), Outcome::Frozen(0, FOUR)),
];

#[test]
fn the_ends_of_jobs_are_refused_at_each_request(rt: HostRuntime) {
    assert_short(&rt, &A_COUNT, Finish(0), Outcome::Count(1));
    assert_short(&rt, &A_FILTER, Finish(0), Outcome::Made(1));
    assert_short(&rt, &A_FILTER, Abandon(0), Outcome::Abandoned);
}

// The entries of a map with this number of seats, which the steps are played on.
fn entries_of<R: AllocGlobal + Abort + Threads + Wait + Sync>(
    rt: &R,
    seats: u32,
    steps: &[Step],
) -> Vec<Entered> {
    let entries = played(rt, rt.alloc(), seats, LARGEST, steps, &[]);
    entries.expect(rt, "something else was played")
}

// Each time that the value could not be stored, a get stands in the journal. There is room for one entry more: the first
// get needs no memory, and what stores the value does.
#[test]
fn a_value_is_got_or_stored_after_each_refusal(rt: HostRuntime) {
    let mut steps = filled(&rt, rt.alloc(), &ONE, ENTRIES - 1, 1);
    steps
        .push(ShortGet(0, 1, B, 5, Outcome::Got(true, 5)))
        .expect(&rt, "no room");
    let entries = entries_of(&rt, 1, &steps);
    assert_gets(&rt, &entries);
}

// Behind those that were made before, there are at least two gets that found nothing, and what stored the value.
fn assert_gets(rt: &impl Abort, entries: &[Entered]) {
    let mut gets = 0u32;
    let mut last = None;
    for entry in entries.iter().skip(ENTRIES - 1) {
        if entry.request == On(1, Get(B)) {
            gets = gets.saturating_add(1);
        }
        last = Some(entry.request);
    }
    assert_is(rt, last, Some(On(1, PutIfAbsent(B, 5))));
    assert!(rt; gets >= 2, "{gets} gets");
    let made = ENTRIES.saturating_add(gets as usize);
    assert_is(rt, entries.len(), made);
}

const TWO: [Step; 3] = [
    Ask(0, Open(1), Outcome::Unit),
    Ask(0, On(1, Put(A, 4)), Outcome::Old(None)),
    Ask(0, On(1, Put(B, 5)), Outcome::Old(None)),
];

// The same, and room for a job, which was opened and abandoned.
const WITH_ROOM: [Step; 5] = [
    Ask(0, Open(1), Outcome::Unit),
    Ask(0, On(1, Put(A, 4)), Outcome::Old(None)),
    Ask(0, On(1, Put(B, 5)), Outcome::Old(None)),
    Ask(0, Freeze(1, COUNT), Outcome::Frozen(0, FOUR_AND_FIVE)),
    Ask(0, Abandon(0), Outcome::Abandoned),
];

// There is room for one entry more, which is that of the freeze. The ticket comes back, and finishes the job by the
// pairs that there were. The key that was put since is not counted.
const FINISHED: [Step; 4] = [
    DryBulk(0, 1, COUNT, Outcome::Returned(Refusal::NoMemory)),
    Files(0, Freeze(1, COUNT), Outcome::Frozen(1, FOUR_AND_FIVE)),
    Ask(1, On(1, Put(C, 6)), Outcome::Old(None)),
    Ask(1, Finish(1), Outcome::Count(2)),
];

#[test]
fn the_ticket_of_a_bulk_call_comes_back(rt: HostRuntime) {
    let mut steps = filled(&rt, rt.alloc(), &WITH_ROOM, ENTRIES - 1, 2);
    for step in FINISHED {
        steps.push(step).expect(&rt, "no room");
    }
    assert_steps(&rt, 2, LARGEST, &steps);
}

// There is no room for the freeze, so no ticket comes back at first. As memory is given, some do, and then the call is
// answered.
const IN_TURN: [Step; 4] = [
    DryBulk(0, 1, COUNT, Outcome::Refused(Refusal::NoMemory)),
    ShortBulk(0, 1, COUNT, Outcome::Count(2)),
    Ask(1, On(1, Put(C, 6)), Outcome::Old(None)),
    FinishAll(1, Outcome::Count(2)),
];

#[test]
fn a_bulk_call_is_refused_at_each_request(rt: HostRuntime) {
    let mut steps = filled(&rt, rt.alloc(), &TWO, ENTRIES, 2);
    for step in IN_TURN {
        steps.push(step).expect(&rt, "no room");
    }
    let entries = entries_of(&rt, 2, &steps);
    assert_bulks(&rt, &entries);
}

// Behind those that were made before, there are the freezes of at least two bulk calls, each with its finish, and one
// put.
fn assert_bulks(rt: &impl Abort, entries: &[Entered]) {
    let (mut freezes, mut finishes, mut others) = (0u32, 0u32, 0u32);
    for entry in entries.iter().skip(ENTRIES) {
        match entry.outcome {
            Outcome::Frozen(_, seen) if seen == FOUR_AND_FIVE => {
                freezes = freezes.saturating_add(1);
            }
            Outcome::Count(2) => finishes = finishes.saturating_add(1),
            _ => others = others.saturating_add(1),
        }
    }
    assert_is(rt, (finishes, others), (freezes, 1));
    assert!(rt; freezes >= 2, "{freezes} freezes");
}
