//! Jobs: what a ticket's answer is of, and how a job ends.
use super::{assert_ends, assert_steps};
use test_clients::{A, B, FOUR_AND_FIVE, LARGEST, NOTHING, Outcome};
use test_journals::Step;
use test_journals::Step::{Ask, Lose};
use test_machine::Do::{Get, Put, Size};
use test_machine::Request::{Abandon, Finish, Freeze, On, Open};
use test_machine::{ALL, EVEN, Question, Request};
use versions::Refusal;

const COUNT: Request = Freeze(1, Question::Count(ALL));

const NO_JOB: Option<Refusal> = Some(Refusal::NoJob);

const A_PUT_BETWEEN: [Step; 4] = [
    Ask(0, Open(1), Outcome::Unit),
    Ask(0, COUNT, Outcome::Frozen(0, NOTHING)),
    Ask(1, On(1, Put(A, 1)), Outcome::Old(None)),
    Ask(0, Finish(0), Outcome::Count(0)),
];

#[test]
fn a_count_is_of_the_map_that_was_frozen(rt: HostRuntime) {
    assert_steps(&rt, 2, LARGEST, &A_PUT_BETWEEN);
}

const ABANDONED: [Step; 3] = [
    Ask(0, Open(1), Outcome::Unit),
    Ask(0, COUNT, Outcome::Frozen(0, NOTHING)),
    Ask(0, Abandon(0), Outcome::Abandoned),
];

#[test]
fn a_job_is_abandoned(rt: HostRuntime) {
    assert_ends(&rt, 1, LARGEST, &ABANDONED, &[(0, NO_JOB)]);
}

const LOST: [Step; 3] = [
    Ask(0, Open(1), Outcome::Unit),
    Ask(0, COUNT, Outcome::Frozen(0, NOTHING)),
    Lose(0),
];

#[test]
fn a_ticket_that_is_dropped_leaves_its_job_open(rt: HostRuntime) {
    assert_ends(&rt, 1, LARGEST, &LOST, &[(0, None), (0, NO_JOB)]);
}

const BY_ANOTHER: [Step; 5] = [
    Ask(0, Open(1), Outcome::Unit),
    Ask(0, COUNT, Outcome::Frozen(0, NOTHING)),
    Ask(0, COUNT, Outcome::Frozen(1, NOTHING)),
    Ask(1, Finish(0), Outcome::Count(0)),
    Ask(1, Abandon(1), Outcome::Abandoned),
];

// Whoever has the ticket ends the job: here the seat that did not freeze it.
#[test]
fn another_seat_ends_a_job(rt: HostRuntime) {
    assert_ends(&rt, 2, LARGEST, &BY_ANOTHER, &[(0, NO_JOB), (1, NO_JOB)]);
}

const FILTERED: [Step; 12] = [
    Ask(0, Open(1), Outcome::Unit),
    Ask(0, On(1, Put(A, 4)), Outcome::Old(None)),
    Ask(0, On(1, Put(B, 5)), Outcome::Old(None)),
    Ask(
        0,
        Freeze(1, Question::Filter(EVEN, 5)),
        Outcome::Frozen(0, FOUR_AND_FIVE),
    ),
    Ask(1, Open(5), Outcome::Refused(Refusal::Taken)),
    Ask(1, Request::Drop(1), Outcome::Unit),
    Ask(1, Open(1), Outcome::Unit),
    Ask(0, Finish(0), Outcome::Made(1)),
    Ask(1, On(5, Get(A)), Outcome::Old(Some(4))),
    Ask(1, On(5, Get(B)), Outcome::Old(None)),
    Ask(1, On(5, Size), Outcome::Size(1)),
    Ask(1, On(1, Get(A)), Outcome::Old(None)),
];

// The target's number is taken while the job is open. The handle that was frozen is dropped and opened again meanwhile.
#[test]
fn a_filter_makes_a_map_for_its_target(rt: HostRuntime) {
    assert_steps(&rt, 2, LARGEST, &FILTERED);
}
