//! Refusals that are entries, and those that are not.
use super::assert_steps;
use handles::Limits;
use test_clients::{A, B, LARGEST, NOTHING, Outcome};
use test_journals::Step;
use test_journals::Step::Ask;
use test_machine::Do::{Get, Put, PutIfAbsent, Size};
use test_machine::Request::{Abandon, Finish, Freeze, On, Open, Snapshot, View};
use test_machine::{ALL, EVEN, Question, Request};
use versions::Refusal;

const NO_HANDLE: Outcome = Outcome::Refused(Refusal::NoHandle);

const TAKEN: Outcome = Outcome::Refused(Refusal::Taken);

const BAD_NUMBER: Outcome = Outcome::Refused(Refusal::BadNumber);

const FULL: Outcome = Outcome::Refused(Refusal::Full);

const JOURNAL_FULL: Outcome = Outcome::Refused(Refusal::JournalFull);

const TOO_MANY_JOBS: Outcome = Outcome::Refused(Refusal::TooManyJobs);

const COUNT: Request = Freeze(1, Question::Count(ALL));

const FOUR_ENTRIES: Limits = Limits {
    pairs: 16,
    entries: 4,
};

const FULL_JOURNAL: [Step; 7] = [
    Ask(0, Open(1), Outcome::Unit),
    Ask(0, COUNT, Outcome::Frozen(0, NOTHING)),
    Ask(0, On(1, Put(A, 1)), JOURNAL_FULL),
    Ask(0, View(1), JOURNAL_FULL),
    Ask(0, COUNT, JOURNAL_FULL),
    Ask(0, Finish(0), Outcome::Count(0)),
    Ask(0, On(1, Get(A)), JOURNAL_FULL),
];

#[test]
fn a_full_journal_is_no_entry(rt: HostRuntime) {
    assert_steps(&rt, 1, FOUR_ENTRIES, &FULL_JOURNAL);
}

const OF_HANDLES: [Step; 14] = [
    Ask(0, On(1, Get(A)), NO_HANDLE),
    Ask(0, Snapshot(1, 2), NO_HANDLE),
    Ask(0, Request::Drop(1), NO_HANDLE),
    Ask(0, View(1), NO_HANDLE),
    Ask(0, COUNT, NO_HANDLE),
    Ask(0, Open(1), Outcome::Unit),
    Ask(0, Open(1), TAKEN),
    Ask(0, Snapshot(1, 1), TAKEN),
    Ask(0, Freeze(1, Question::Filter(EVEN, 1)), TAKEN),
    Ask(0, Open(1_024), BAD_NUMBER),
    Ask(0, On(1_024, Size), BAD_NUMBER),
    Ask(0, Snapshot(1, 1_024), BAD_NUMBER),
    Ask(0, View(1_024), BAD_NUMBER),
    Ask(0, Freeze(1, Question::Zeros(1_024)), BAD_NUMBER),
];

#[test]
fn refusals_of_handles_are_entries(rt: HostRuntime) {
    assert_steps(&rt, 1, LARGEST, &OF_HANDLES);
}

const ONE_PAIR: Limits = Limits {
    pairs: 1,
    entries: 16,
};

const FULL_MAP: [Step; 5] = [
    Ask(0, Open(1), Outcome::Unit),
    Ask(0, On(1, Put(A, 1)), Outcome::Old(None)),
    Ask(0, On(1, Put(B, 2)), FULL),
    Ask(0, On(1, PutIfAbsent(B, 2)), FULL),
    Ask(0, On(1, Put(A, 3)), Outcome::Old(Some(1))),
];

#[test]
fn a_full_map_is_an_entry(rt: HostRuntime) {
    assert_steps(&rt, 1, ONE_PAIR, &FULL_MAP);
}

const AFTER_64_JOBS: [Step; 4] = [
    Ask(0, COUNT, TOO_MANY_JOBS),
    Ask(0, Abandon(0), Outcome::Abandoned),
    Ask(0, COUNT, Outcome::Frozen(64, NOTHING)),
    Ask(0, COUNT, TOO_MANY_JOBS),
];

#[test]
fn sixty_four_jobs_may_be_open(rt: HostRuntime) {
    let first = [Ask(0, Open(1), Outcome::Unit)];
    let mut steps = Vec::from_slice(rt.alloc(), &first).expect(&rt, "no steps");
    for job in 0..64 {
        steps
            .push(Ask(0, COUNT, Outcome::Frozen(job, NOTHING)))
            .expect(&rt, "no room");
    }
    for step in AFTER_64_JOBS {
        steps.push(step).expect(&rt, "no room");
    }
    assert_steps(&rt, 1, LARGEST, &steps);
}

const BY_THREE_OF_64: [Step; 3] = [
    Ask(63, Open(1), Outcome::Unit),
    Ask(62, On(1, Put(A, 1)), Outcome::Old(None)),
    Ask(0, On(1, Get(A)), Outcome::Old(Some(1))),
];

#[test]
fn a_map_may_have_sixty_four_seats(rt: HostRuntime) {
    assert_steps(&rt, 64, LARGEST, &BY_THREE_OF_64);
}
