//! Bulk calls: what they answer, and the two entries that each of them files.
use super::assert_steps;
use handles::Limits;
use test_clients::{A, B, FOUR_AND_FIVE, LARGEST, Outcome};
use test_journals::Step;
use test_journals::Step::{Ask, Bulk, Files};
use test_machine::Do::{Get, Put, Size};
use test_machine::Request::{Finish, Freeze, On, Open};
use test_machine::{ALL, EVEN, Question};
use versions::Refusal;

const EVEN_PAIRS: Question = Question::Count(EVEN);

const EVEN_MAP: Question = Question::Filter(EVEN, 5);

// Two seats put a pair each. One of them has a crew count the pairs that pass, and the other one has a crew make a map
// of them.
const ANSWERED: [Step; 11] = [
    Ask(0, Open(1), Outcome::Unit),
    Ask(0, On(1, Put(A, 4)), Outcome::Old(None)),
    Ask(1, On(1, Put(B, 5)), Outcome::Old(None)),
    Bulk(1, 1, EVEN_PAIRS, Outcome::Count(1)),
    Files(1, Freeze(1, EVEN_PAIRS), Outcome::Frozen(0, FOUR_AND_FIVE)),
    Files(1, Finish(0), Outcome::Count(1)),
    Bulk(0, 1, EVEN_MAP, Outcome::Made(1)),
    Files(0, Freeze(1, EVEN_MAP), Outcome::Frozen(1, FOUR_AND_FIVE)),
    Files(0, Finish(1), Outcome::Made(1)),
    Ask(1, On(5, Get(A)), Outcome::Old(Some(4))),
    Ask(1, On(5, Size), Outcome::Size(1)),
];

#[test]
fn a_bulk_call_is_a_freeze_and_a_finish(rt: HostRuntime) {
    assert_steps(&rt, 2, LARGEST, &ANSWERED);
}

const COUNT: Question = Question::Count(ALL);

// A journal is full when fewer than two entries are left.
const TWO_ENTRIES: Limits = Limits {
    pairs: 16,
    entries: 2,
};

const NO_HANDLE: Outcome = Outcome::Refused(Refusal::NoHandle);

// Where the freeze is refused, its entry is the only one, and where that makes none, there is none.
const REFUSED: [Step; 3] = [
    Bulk(0, 1, COUNT, NO_HANDLE),
    Files(0, Freeze(1, COUNT), NO_HANDLE),
    Bulk(0, 1, COUNT, Outcome::Refused(Refusal::JournalFull)),
];

#[test]
fn a_bulk_call_is_refused_as_its_freeze_is(rt: HostRuntime) {
    assert_steps(&rt, 1, TWO_ENTRIES, &REFUSED);
}
