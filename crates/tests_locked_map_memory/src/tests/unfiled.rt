//! Entries that calls placed and then were refused: no seat has filed them.
use super::assert_is;
use std::process::Abort;
use std::sync::Wait;
use std::thread::Threads;
use test_clients::{A, B, C, LARGEST, Outcome};
use test_journals::Step::{Ask, Scarce};
use test_journals::{Ending, last_and_closed};
use test_machine::Do::Put;
use test_machine::Request::{On, Open};
use versions::Refusal;

const REFUSED: Outcome = Outcome::Refused(Refusal::NoMemory);

// How often the put is tried, and how many bytes more there are each time.
const TIMES: usize = 32;

const STEP: usize = 64;

// The first of two seats puts two pairs, which fill a row of two places. The second one puts a third with this many bytes
// of memory: so it asks for some once its entry is placed. What the put returns, and whether these seats close the map.
fn third_put<R: AllocGlobal + Abort + Threads + Wait + Sync>(
    rt: &R,
    bytes: usize,
    ending: Ending,
) -> (Outcome, bool) {
    let steps = [
        Ask(0, Open(1), Outcome::Unit),
        Ask(0, On(1, Put(A, 1)), Outcome::Old(None)),
        Ask(0, On(1, Put(B, 2)), Outcome::Old(None)),
        Scarce(1, On(1, Put(C, 3)), bytes),
    ];
    let last = last_and_closed(rt, rt.alloc(), 2, &steps, LARGEST, ending);
    last.expect(rt, "no map")
}

// A put that was refused may have placed its entry, which is then no entry of a seat that is handed back. Nothing else
// is missing without the second seat, which has filed nothing.
#[test]
fn an_entry_of_no_seat_tears_a_map(rt: HostRuntime) {
    let (mut whole, mut torn) = (0u32, 0u32);
    for times in 0..TIMES {
        let bytes = times.saturating_mul(STEP);
        let (returned, closed) = third_put(&rt, bytes, Ending::WithoutLast);
        if returned == REFUSED && closed {
            whole = whole.saturating_add(1);
        }
        if returned == REFUSED && !closed {
            torn = torn.saturating_add(1);
        }
    }
    assert_is(&rt, (whole > 0, torn > 0), (true, true));
}

// With the seat that was refused the map is closed, whether an entry was placed or not.
#[test]
fn the_seat_that_was_refused_closes_its_map(rt: HostRuntime) {
    for times in 0..TIMES {
        let bytes = times.saturating_mul(STEP);
        let (_, closed) = third_put(&rt, bytes, Ending::All);
        assert_is(&rt, closed, true);
    }
}
