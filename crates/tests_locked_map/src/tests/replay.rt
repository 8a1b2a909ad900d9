//! Eight clients of random calls, each journal beside a plain program.
use super::assert_is;
use super::random::{Draws, MOST_NOTES, Note, Player};
use super::running::run_clients;
use handles::Limits;
use std::alloc::Global;
use std::process::Abort;
use std::sync::atomic::AtomicU64;
use std::sync::{Arc, Wait};
use std::thread::Threads;
use test_clients::{Entered, LARGEST, Outcome, Playing};
use test_journals::replayed;
use test_keys::Random;
use versions::Refusal;

// How many clients there are, and how often they run under each limits.
const CLIENTS: u32 = 8;

const ROUNDS: u32 = 25;

// Maps of few pairs, and journals of fewer entries than the clients make.
const FEW_PAIRS: Limits = Limits {
    pairs: 3,
    entries: 1_048_576,
};

const FEW_ENTRIES: Limits = Limits {
    pairs: 16,
    entries: 3_000,
};

const FEW_OF_BOTH: Limits = Limits {
    pairs: 3,
    entries: 3_000,
};

// By these a client keeps about one job open, or more than it may have with the others.
const FEW_JOBS: u32 = 8;

const MANY_JOBS: u32 = 400;

// The clients of a round.
fn clients_of(rt: &impl Abort, alloc: Global, round: u32, jobs: u32) -> Vec<Playing<Player>> {
    let clock = Arc::new(alloc, AtomicU64::new(0)).expect(rt, "no clock");
    let mut clients = Vec::new(alloc);
    for number in 0..CLIENTS {
        let seed = u64::from(round.wrapping_mul(CLIENTS).wrapping_add(number));
        let player = Player {
            number,
            draws: Draws(Random(seed.wrapping_mul(0x9e37_79b9_7f4a_7c15))),
            jobs,
            clock: Arc::try_clone(&clock).expect(rt, "no clock"),
            notes: Vec::with_capacity(alloc, MOST_NOTES).expect(rt, "no room for notes"),
        };
        clients.push(Playing(player)).expect(rt, "no room");
    }
    clients
}

// The next of the notes from a place on that is an entry, and its place.
fn next_entry(notes: &[Note], from: usize) -> Option<(usize, Note)> {
    for place in from..notes.len() {
        let note = notes[place];
        if note.exchange.1.is_entry() {
            return Some((place, note));
        }
    }
    None
}

// The note of the client's next entry, behind those that were seen.
fn next_note(notes: &[Vec<Note>], seen: &mut [usize], seat: u32) -> Option<Note> {
    let from = seen.get_mut(seat as usize)?;
    let (place, note) = next_entry(notes.get(seat as usize)?, *from)?;
    *from = place.saturating_add(1);
    Some(note)
}

// Each client has noted down its entries, in order, and no more. No entry stands behind that of a call which had not
// begun when the entry's own call had ended.
fn assert_noted(rt: &impl Abort, entries: &[Entered], notes: &[Vec<Note>]) {
    let mut seen = [0usize; 8];
    let mut latest = 0;
    for entry in entries {
        let note = next_note(notes, &mut seen, entry.seat).expect(rt, "no note of an entry");
        assert_is(rt, note.exchange, (entry.request, entry.outcome));
        assert!(rt; latest < note.ended, "{entry:?} comes too late");
        latest = latest.max(note.begun);
    }
    for (notes, from) in notes.iter().zip(&seen) {
        assert!(rt; next_entry(notes, *from).is_none());
    }
}

// Runs the clients once: what each noted down.
fn one_round<R: AllocGlobal + Abort + Threads + Wait + Sync>(
    rt: &R,
    limits: Limits,
    clients: Vec<Playing<Player>>,
) -> Vec<Vec<Note>> {
    let (notes, closed) = run_clients(rt, limits, clients);
    let entries = replayed(rt.alloc(), limits, &closed).expect(rt, "another table");
    assert_noted(rt, &entries, &notes);
    notes
}

// Whether some call was refused for this.
fn is_met(notes: &[Vec<Note>], refusal: Refusal) -> bool {
    notes.iter().any(|notes| {
        notes
            .iter()
            .any(|note| note.exchange.1 == Outcome::Refused(refusal))
    })
}

// Runs the clients many times, from the round of the number on. Each of the refusals is met.
fn assert_rounds<R: AllocGlobal + Abort + Threads + Wait + Sync>(
    rt: &R,
    first: u32,
    limits: Limits,
    jobs: u32,
    refusals: &[Refusal],
) {
    let mut left = Vec::from_slice(rt.alloc(), refusals).expect(rt, "no room");
    for round in 0..ROUNDS {
        let clients = clients_of(rt, rt.alloc(), first.wrapping_add(round), jobs);
        let notes = one_round(rt, limits, clients);
        left.retain(|refusal| !is_met(&notes, *refusal));
    }
    assert!(rt; left.is_empty(), "never refused: {left:?}");
}

#[test]
fn eight_clients_with_the_largest_limits(rt: HostRuntime) {
    let refusals = [Refusal::NoHandle, Refusal::Taken, Refusal::BadNumber];
    assert_rounds(&rt, 0, LARGEST, FEW_JOBS, &refusals);
}

#[test]
fn eight_clients_with_few_pairs(rt: HostRuntime) {
    assert_rounds(&rt, ROUNDS, FEW_PAIRS, FEW_JOBS, &[Refusal::Full]);
}

#[test]
fn eight_clients_with_few_entries(rt: HostRuntime) {
    let refusals = [Refusal::JournalFull];
    assert_rounds(&rt, 2 * ROUNDS, FEW_ENTRIES, FEW_JOBS, &refusals);
}

#[test]
fn eight_clients_with_few_of_both(rt: HostRuntime) {
    let refusals = [Refusal::Full, Refusal::JournalFull];
    assert_rounds(&rt, 3 * ROUNDS, FEW_OF_BOTH, FEW_JOBS, &refusals);
}

#[test]
fn eight_clients_with_the_largest_limits_and_many_jobs(rt: HostRuntime) {
    let refusals = [Refusal::TooManyJobs];
    assert_rounds(&rt, 4 * ROUNDS, LARGEST, MANY_JOBS, &refusals);
}

#[test]
fn eight_clients_with_few_pairs_and_many_jobs(rt: HostRuntime) {
    let refusals = [Refusal::Full, Refusal::TooManyJobs];
    assert_rounds(&rt, 5 * ROUNDS, FEW_PAIRS, MANY_JOBS, &refusals);
}

#[test]
fn eight_clients_with_few_entries_and_many_jobs(rt: HostRuntime) {
    let refusals = [Refusal::JournalFull, Refusal::TooManyJobs];
    assert_rounds(&rt, 6 * ROUNDS, FEW_ENTRIES, MANY_JOBS, &refusals);
}

#[test]
fn eight_clients_with_few_of_both_and_many_jobs(rt: HostRuntime) {
    let refusals = [Refusal::Full, Refusal::JournalFull, Refusal::TooManyJobs];
    assert_rounds(&rt, 7 * ROUNDS, FEW_OF_BOTH, MANY_JOBS, &refusals);
}
