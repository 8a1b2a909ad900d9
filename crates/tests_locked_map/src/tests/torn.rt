//! The seats by which a map closes.
use super::assert_is;
use std::process::Abort;
use std::sync::Wait;
use std::thread::Threads;
use test_clients::{A, B, LARGEST, Outcome};
use test_journals::Step::Ask;
use test_journals::{Ending, Step, closed_len};
use test_machine::Do::Put;
use test_machine::Request::{On, Open};

// Each of the three seats files something.
const EACH_FILES: [Step; 3] = [
    Ask(0, Open(1), Outcome::Unit),
    Ask(1, On(1, Put(A, 1)), Outcome::Old(None)),
    Ask(2, On(1, Put(B, 2)), Outcome::Old(None)),
];

const NO_STEPS: [Step; 0] = [];

// So many entries the journal has of a map with three seats that the steps were played on, where these close it.
fn assert_len<R: AllocGlobal + Abort + Threads + Wait + Sync>(
    rt: &R,
    steps: &[Step],
    ending: Ending,
    wanted: Option<usize>,
) {
    let closed = closed_len(rt, rt.alloc(), 3, steps, LARGEST, ending);
    assert_is(rt, closed.expect(rt, "no map"), wanted);
}

#[test]
fn a_map_with_no_calls_is_closed(rt: HostRuntime) {
    assert_len(&rt, &NO_STEPS, Ending::All, Some(0));
    assert_len(&rt, &NO_STEPS, Ending::Turned, None);
}

// A map is torn where its seats are in another order, or where one that filed something is left out.
#[test]
fn all_seats_close_a_map_in_their_order(rt: HostRuntime) {
    let rows = [
        (Ending::All, Some(3)),
        (Ending::Turned, None),
        (Ending::Exchanged, None),
        (Ending::WithoutFirst, None),
        (Ending::WithoutLast, None),
    ];
    for (ending, wanted) in rows {
        assert_len(&rt, &EACH_FILES, ending, wanted);
    }
}
