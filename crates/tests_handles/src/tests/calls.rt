//! Calls and their refusals. Replies and refusals under the largest limits are cases of the built program.

use super::{Case, LARGEST, assert_entries, assert_is, assert_new, assert_rows, table_of};
use handles::{Call, CallReply, Limits};
use std::alloc::Global;
use std::panic::Expect;
use std::process::Abort;
use test_tables::{Act, Ask, Asking, Do, PlainOutcome, call_outcome_of, command_of, value_in};
use versions::{NoMemory, Refusal};

// Each call once, and what a snapshot keeps.
const CALLS: [Case; 17] = [
    (Do::Open(1), PlainOutcome::Unit),
    (Do::On(1, Act::PutIfAbsent(97, 5)), PlainOutcome::Old(None)),
    (
        Do::On(1, Act::PutIfAbsent(97, 6)),
        PlainOutcome::Old(Some(5)),
    ),
    (
        Do::On(1, Act::ReplaceIf(97, 6, 8)),
        PlainOutcome::Done(false),
    ),
    (
        Do::On(1, Act::ReplaceIf(97, 5, 8)),
        PlainOutcome::Done(true),
    ),
    (Do::On(1, Act::RemoveIf(97, 5)), PlainOutcome::Done(false)),
    (Do::On(1, Act::RemoveIf(97, 8)), PlainOutcome::Done(true)),
    (Do::On(1, Act::Replace(97, 1)), PlainOutcome::Old(None)),
    (Do::On(1, Act::Get(97)), PlainOutcome::Old(None)),
    (Do::On(1, Act::Put(97, 1)), PlainOutcome::Old(None)),
    (Do::Snapshot(1, 2), PlainOutcome::Unit),
    (Do::On(1, Act::Remove(97)), PlainOutcome::Old(Some(1))),
    (Do::On(2, Act::Clear), PlainOutcome::Cleared),
    (Do::On(2, Act::Size), PlainOutcome::Size(0)),
    (Do::View(1), PlainOutcome::Viewed(0, None)),
    (Do::Drop(1), PlainOutcome::Unit),
    (
        Do::On(1, Act::Get(97)),
        PlainOutcome::Refused(Refusal::NoHandle),
    ),
];

#[test]
fn each_call_makes_an_entry(rt: HostRuntime) {
    assert_new(&rt, rt.alloc(), LARGEST, &CALLS, 17);
}

// Each kind of call with a handle that is not live, and with a number that is none or is live.
const REFUSED: [Case; 14] = [
    (
        Do::On(7, Act::Get(97)),
        PlainOutcome::Refused(Refusal::NoHandle),
    ),
    (Do::Snapshot(7, 1), PlainOutcome::Refused(Refusal::NoHandle)),
    (Do::Drop(7), PlainOutcome::Refused(Refusal::NoHandle)),
    (Do::View(7), PlainOutcome::Refused(Refusal::NoHandle)),
    (Do::Open(1), PlainOutcome::Unit),
    (Do::Open(1024), PlainOutcome::Refused(Refusal::BadNumber)),
    (
        Do::Snapshot(1, 1024),
        PlainOutcome::Refused(Refusal::BadNumber),
    ),
    (
        Do::Snapshot(1024, 2),
        PlainOutcome::Refused(Refusal::BadNumber),
    ),
    (Do::Drop(1024), PlainOutcome::Refused(Refusal::BadNumber)),
    (Do::View(1024), PlainOutcome::Refused(Refusal::BadNumber)),
    (
        Do::On(1024, Act::Get(97)),
        PlainOutcome::Refused(Refusal::BadNumber),
    ),
    (Do::Open(1), PlainOutcome::Refused(Refusal::Taken)),
    (Do::Snapshot(1, 1), PlainOutcome::Refused(Refusal::Taken)),
    (
        Do::Snapshot(7, 1024),
        PlainOutcome::Refused(Refusal::BadNumber),
    ),
];

#[test]
fn a_refused_call_makes_an_entry(rt: HostRuntime) {
    assert_new(&rt, rt.alloc(), LARGEST, &REFUSED, 14);
}

// Space for two pairs in each map.
const TWO_PAIRS: Limits = Limits {
    pairs: 2,
    entries: 1_048_576,
};

const FULL_MAP: [Case; 9] = [
    (Do::Open(1), PlainOutcome::Unit),
    (Do::On(1, Act::Put(98, 1)), PlainOutcome::Old(None)),
    (Do::On(1, Act::Put(99, 2)), PlainOutcome::Old(None)),
    (
        Do::On(1, Act::PutIfAbsent(97, 3)),
        PlainOutcome::Refused(Refusal::Full),
    ),
    (
        Do::On(1, Act::Put(97, 3)),
        PlainOutcome::Refused(Refusal::Full),
    ),
    (Do::On(1, Act::Put(98, 4)), PlainOutcome::Old(Some(1))),
    (Do::On(1, Act::Remove(99)), PlainOutcome::Old(Some(2))),
    (Do::On(1, Act::Remove(99)), PlainOutcome::Old(None)),
    (Do::On(1, Act::Put(97, 3)), PlainOutcome::Old(None)),
];

#[test]
fn two_pairs_are_full_until_one_is_removed(rt: HostRuntime) {
    assert_new(&rt, rt.alloc(), TWO_PAIRS, &FULL_MAP, 9);
}

// Space for four entries, and for one pair in each map.
const FOUR_ENTRIES: Limits = Limits {
    pairs: 1,
    entries: 4,
};

const FULL_JOURNAL: [Case; 10] = [
    (Do::Open(1), PlainOutcome::Unit),
    (Do::On(1, Act::Put(97, 1)), PlainOutcome::Old(None)),
    (
        Do::On(1, Act::Put(98, 1)),
        PlainOutcome::Refused(Refusal::Full),
    ),
    (
        Do::On(1, Act::Put(98, 1)),
        PlainOutcome::Refused(Refusal::JournalFull),
    ),
    (Do::Open(1024), PlainOutcome::Refused(Refusal::JournalFull)),
    (Do::Open(1), PlainOutcome::Refused(Refusal::JournalFull)),
    (
        Do::Snapshot(7, 1),
        PlainOutcome::Refused(Refusal::JournalFull),
    ),
    (Do::Drop(1), PlainOutcome::Refused(Refusal::JournalFull)),
    (Do::View(1), PlainOutcome::Refused(Refusal::JournalFull)),
    (
        Do::On(1, Act::Get(97)),
        PlainOutcome::Refused(Refusal::JournalFull),
    ),
];

#[test]
fn a_full_journal_comes_before_every_other_refusal(rt: HostRuntime) {
    assert_new(&rt, rt.alloc(), FOUR_ENTRIES, &FULL_JOURNAL, 3);
}

// What is done while a view of the handle 1 is kept.
const BEHIND: [Case; 3] = [
    (Do::On(1, Act::Put(97, 9)), PlainOutcome::Old(Some(1))),
    (Do::On(1, Act::Put(98, 2)), PlainOutcome::Old(None)),
    (Do::Drop(1), PlainOutcome::Unit),
];

// A view of the handle keeps its pairs while the steps are made.
fn assert_kept(rt: &impl Abort, alloc: Global, table: &mut Asking) {
    let view = table.view(1).expect(rt, "no view");
    assert_rows(rt, alloc, table, &BEHIND);
    assert_is(rt, (view.len(), value_in(&view)), (1, Some(1)));
}

#[test]
fn a_view_keeps_its_pairs(rt: HostRuntime) {
    let mut table = table_of(&rt, rt.alloc(), LARGEST);
    let rows = [
        (Do::Open(1), PlainOutcome::Unit),
        (Do::On(1, Act::Put(97, 1)), PlainOutcome::Old(None)),
    ];
    assert_rows(&rt, rt.alloc(), &mut table, &rows);
    assert_kept(&rt, rt.alloc(), &mut table);
    assert_entries(&rt, &table, 6);
}

// The stamps of the live handles' versions are these, in order of the handles.
fn assert_stamps(rt: &impl Abort, table: &Asking, want: [u64; 3]) {
    let mut number = 0usize;
    for version in table.places().iter().flatten() {
        assert_is(rt, want.get(number).copied(), Some(version.stamp().0));
        number = number.saturating_add(1);
    }
    assert_is(rt, number, 3);
}

#[test]
fn each_live_handle_has_a_stamp_of_its_own(rt: HostRuntime) {
    let mut table = table_of(&rt, rt.alloc(), LARGEST);
    let rows = [
        (Do::Open(1), PlainOutcome::Unit),
        (Do::Snapshot(1, 2), PlainOutcome::Unit),
        (Do::Snapshot(1, 3), PlainOutcome::Unit),
    ];
    assert_rows(&rt, rt.alloc(), &mut table, &rows);
    assert_is(&rt, table.places().len(), 1024);
    assert_stamps(&rt, &table, [4, 3, 5]);
}

// A command leaves its map's stamp. The target of a finish gets the one that is issued next.
#[test]
fn a_target_has_the_next_stamp(rt: HostRuntime) {
    let mut table = table_of(&rt, rt.alloc(), LARGEST);
    let rows = [
        (Do::Open(1), PlainOutcome::Unit),
        (Do::Snapshot(1, 2), PlainOutcome::Unit),
        (Do::On(1, Act::Put(97, 4)), PlainOutcome::Old(None)),
        (
            Do::Freeze(1, Ask::Filter(4, 4, 5)),
            PlainOutcome::Frozen(0, 1, Some(4)),
        ),
        (Do::Finish(0), PlainOutcome::Made(1)),
    ];
    assert_rows(&rt, rt.alloc(), &mut table, &rows);
    assert_stamps(&rt, &table, [2, 3, 4]);
}

// What the calls are answered as a list: an open, the size of the handle 1, a snapshot of it, and the same once more.
fn run_four(
    alloc: Global,
    table: &mut Asking,
) -> Result<Vec<Result<CallReply<i64>, Refusal>>, NoMemory> {
    let mut calls = Vec::new(alloc);
    calls.push(Call::Open(1))?;
    calls.push(Call::On(1, command_of(alloc, Act::Size)?))?;
    calls.push(Call::Snapshot(1, 2))?;
    calls.push(Call::Snapshot(1, 2))?;
    table.run(alloc, calls)
}

#[test]
fn calls_as_a_list(rt: HostRuntime) {
    let mut table = table_of(&rt, rt.alloc(), LARGEST);
    let answers = run_four(rt.alloc(), &mut table).expect(&rt, "not made");
    assert_is(&rt, answers.len(), 4);
    let want = [
        PlainOutcome::Unit,
        PlainOutcome::Size(0),
        PlainOutcome::Unit,
        PlainOutcome::Refused(Refusal::Taken),
    ];
    for (answer, want) in answers.iter().zip(&want) {
        assert_is(&rt, call_outcome_of(answer), *want);
    }
}
