//! What the twins of calls foresee, beside what the calls then answer, and calls that are made as they were foreseen.

use super::{assert_entries, assert_is, step, table_of};
use handles::Limits;
use std::alloc::Global;
use std::process::Abort;
use test_keys::Random;
use test_tables::{Act, Ask, Asking, Do, PlainOutcome, Prepared, foresee, take, take_foreseen};
use versions::Refusal;

// Limits that a random run meets.
const SMALL: Limits = Limits {
    pairs: 2,
    entries: 1_000,
};

// How many calls a random run makes.
const CALLS: u32 = 1_400;

// One of four handles, or, seldom, a number that is none.
fn drawn_handle(random: &mut Random) -> u32 {
    if random.next(16) == 0 {
        return 1024;
    }
    random.next(4)
}

// What is done at one of three keys, with one of two values.
fn drawn_act(random: &mut Random) -> Act {
    let key = u64::from(random.next(3)).saturating_add(97);
    let value = i64::from(random.next(2));
    let other = i64::from(random.next(2));
    match random.next(12) {
        0 => Act::Get(key),
        1 => Act::PutIfAbsent(key, value),
        2 => Act::Replace(key, value),
        3 => Act::ReplaceIf(key, value, other),
        4 => Act::Remove(key),
        5 => Act::RemoveIf(key, value),
        6 => Act::Size,
        7 => Act::Clear,
        _ => Act::Put(key, value),
    }
}

// A call that opens or closes a handle, or makes a command on one.
fn drawn_call(random: &mut Random) -> Do {
    let handle = drawn_handle(random);
    match random.next(9) {
        0 => Do::Open(handle),
        1 => Do::Snapshot(handle, drawn_handle(random)),
        2 => Do::Drop(handle),
        _ => Do::On(handle, drawn_act(random)),
    }
}

// A count of the pairs with the value 1, or the map of them for the handle of a number.
fn drawn_ask(random: &mut Random) -> Ask {
    if random.next(8) == 0 {
        return Ask::Filter(1, 1, drawn_handle(random));
    }
    Ask::Count(1, 1)
}

// A step that has a twin.
fn drawn_step(random: &mut Random) -> Do {
    match random.next(16) {
        0 => Do::View(drawn_handle(random)),
        1 => Do::Abandon(u64::from(random.next(128))),
        2..=6 => Do::Freeze(drawn_handle(random), drawn_ask(random)),
        _ => drawn_call(random),
    }
}

// The entries, and of the live handles' versions how many there are, their pairs and the sum of their stamps.
fn state_of(table: &Asking) -> (u32, u64, u64, u64) {
    let (mut live, mut pairs, mut stamps) = (0u64, 0u64, 0u64);
    for version in table.places().iter().flatten() {
        live = live.wrapping_add(1);
        pairs = pairs.wrapping_add(version.len());
        stamps = stamps.wrapping_add(version.stamp().0);
    }
    (table.entries(), live, pairs, stamps)
}

// The twin leaves the table as it is, and foresees the outcome that the step then has.
fn assert_foreseen(
    rt: &impl Abort,
    alloc: Global,
    table: &mut Asking,
    step: &Prepared,
) -> PlainOutcome {
    let before = state_of(table);
    let wanted = foresee(table, step);
    assert_is(rt, state_of(table), before);
    let outcome = take(alloc, table, step);
    assert_is(rt, wanted, outcome);
    outcome
}

// Each kind of answer as a bit of its own.
fn bit_of(outcome: PlainOutcome) -> u32 {
    match outcome {
        PlainOutcome::Refused(refusal) => bit_of_refusal(refusal),
        _ => 1,
    }
}

fn bit_of_refusal(refusal: Refusal) -> u32 {
    match refusal {
        Refusal::JournalFull => 2,
        Refusal::BadNumber => 4,
        Refusal::NoHandle => 8,
        Refusal::NoJob => 16,
        Refusal::Taken => 32,
        Refusal::TooManyJobs => 64,
        Refusal::Full => 128,
        Refusal::Unfinished | Refusal::NoWorker | Refusal::NoMemory => 256,
    }
}

#[test]
fn each_call_is_foreseen(rt: HostRuntime) {
    let mut table = table_of(&rt, rt.alloc(), SMALL);
    let mut random = Random(2026);
    let mut kinds = 0;
    for _ in 0..CALLS {
        let drawn = step(&rt, rt.alloc(), drawn_step(&mut random));
        kinds |= bit_of(assert_foreseen(&rt, rt.alloc(), &mut table, &drawn));
    }
    assert_is(&rt, kinds, 255);
}

#[test]
fn a_call_is_made_as_it_was_foreseen(rt: HostRuntime) {
    let mut table = table_of(&rt, rt.alloc(), SMALL);
    let mut plain = table_of(&rt, rt.alloc(), SMALL);
    let mut random = Random(2027);
    for _ in 0..CALLS {
        let drawn = step(&rt, rt.alloc(), drawn_call(&mut random));
        let outcome = take_foreseen(rt.alloc(), &mut table, &drawn);
        assert_is(&rt, outcome, take(rt.alloc(), &mut plain, &drawn));
        assert_is(&rt, state_of(&table), state_of(&plain));
    }
    assert_entries(&rt, &table, SMALL.entries - 1);
}
