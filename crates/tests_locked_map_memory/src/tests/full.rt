//! A full journal, whatever the memory.
use super::{assert_steps, filled};
use handles::Limits;
use test_clients::{A, Outcome};
use test_journals::Step::{Ask, Dry};
use test_machine::Do::Get;
use test_machine::Request::{Freeze, On, Open, View};
use test_machine::{ALL, Question};
use versions::Refusal;

const JOURNAL_FULL: Outcome = Outcome::Refused(Refusal::JournalFull);

// Space for as many entries as are made before, with one to spare: a journal is full when fewer than two are left.
const FEW_ENTRIES: Limits = Limits {
    pairs: 16,
    entries: 33,
};

// Each of the calls would need memory for its entry, but makes none. It catches a call that looks for room first.
#[test]
fn a_full_journal_is_refused_whatever_the_memory(rt: HostRuntime) {
    let count = Freeze(1, Question::Count(ALL));
    let mut steps = filled(&rt, rt.alloc(), &[Ask(0, Open(1), Outcome::Unit)], 32, 0);
    for request in [On(1, Get(A)), View(1), count] {
        steps
            .push(Dry(0, request, JOURNAL_FULL))
            .expect(&rt, "no room");
    }
    assert_steps(&rt, 1, FEW_ENTRIES, &steps);
}
