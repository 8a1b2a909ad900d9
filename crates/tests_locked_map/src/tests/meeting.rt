//! Two seats that meet, and a view that is kept.
use super::assert_steps;
use test_clients::{A, B, LARGEST, Outcome, Seen};
use test_journals::Step;
use test_journals::Step::{Ask, Keep, Meet};
use test_machine::Do::{Get, Put};
use test_machine::Request;
use test_machine::Request::{On, Open};

const MET: [Step; 4] = [
    Ask(0, Open(1), Outcome::Unit),
    Ask(0, On(1, Put(A, 1)), Outcome::Old(None)),
    Meet,
    Ask(1, On(1, Get(A)), Outcome::Old(Some(1))),
];

#[test]
fn a_put_is_seen_after_a_meeting(rt: HostRuntime) {
    assert_steps(&rt, 2, LARGEST, &MET);
}

// The value 4 of A.
const FOUR: Seen = Seen {
    len: 1,
    values: [Some(4), None, None, None],
};

const VIEWED: [Step; 6] = [
    Ask(0, Open(1), Outcome::Unit),
    Ask(0, On(1, Put(A, 4)), Outcome::Old(None)),
    Keep(0, 1, FOUR),
    Ask(0, On(1, Put(A, 5)), Outcome::Old(Some(4))),
    Ask(0, On(1, Put(B, 6)), Outcome::Old(None)),
    Ask(0, Request::Drop(1), Outcome::Unit),
];

#[test]
fn a_view_outlives_writes_and_its_map(rt: HostRuntime) {
    assert_steps(&rt, 1, LARGEST, &VIEWED);
}
