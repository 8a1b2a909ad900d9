//! Calls that make no request for memory, with every request refused.

use super::{Case, assert_entries, assert_is, assert_rows, no_memory, step, with_four};
use std::alloc::Global;
use std::panic::Expect;
use std::process::Abort;
use test_tables::{
    Act, Ask, Asking, Do, PlainOutcome, Prepared, close, finish_outcome, part_of, take,
};
use versions::Refusal;

// The steps of rows.
fn steps_of(rt: &impl Abort, alloc: Global, rows: &[Case]) -> Vec<Prepared> {
    let mut steps = Vec::new(alloc);
    for (what, _) in rows {
        steps.push(step(rt, alloc, *what)).expect(rt, "no room");
    }
    steps
}

// The steps, of which none is a finish, have these outcomes with every request for memory refused.
fn assert_without(rt: &impl Abort, alloc: Global, table: &mut Asking, rows: &[Case]) {
    let steps = steps_of(rt, alloc, rows);
    let _taken = no_memory(rt, alloc);
    for (step, (_, want)) in steps.iter().zip(rows) {
        assert_is(rt, take(alloc, table, step), *want);
    }
}

const ON_HANDLES: [Case; 8] = [
    (Do::Open(3), PlainOutcome::Refused(Refusal::NoMemory)),
    (Do::Snapshot(1, 2), PlainOutcome::Unit),
    (Do::On(2, Act::Get(97)), PlainOutcome::Old(Some(4))),
    (Do::On(2, Act::Size), PlainOutcome::Size(1)),
    (Do::View(2), PlainOutcome::Viewed(1, Some(4))),
    (Do::View(3), PlainOutcome::Refused(Refusal::NoHandle)),
    (
        Do::On(1, Act::Put(97, 6)),
        PlainOutcome::Refused(Refusal::NoMemory),
    ),
    (Do::Drop(2), PlainOutcome::Unit),
];

#[test]
fn a_snapshot_a_view_a_get_and_a_drop_make_no_request(rt: HostRuntime) {
    let mut table = with_four(&rt, rt.alloc());
    assert_without(&rt, rt.alloc(), &mut table, &ON_HANDLES);
    assert_entries(&rt, &table, 8);
    assert_rows(
        &rt,
        rt.alloc(),
        &mut table,
        &[(Do::Open(3), PlainOutcome::Unit)],
    );
}

const ON_JOBS: [Case; 4] = [
    (
        Do::Freeze(1, Ask::Count(4, 4)),
        PlainOutcome::Frozen(0, 1, Some(4)),
    ),
    (
        Do::Freeze(7, Ask::Count(4, 4)),
        PlainOutcome::Refused(Refusal::NoHandle),
    ),
    (Do::Abandon(0), PlainOutcome::Unit),
    (Do::Abandon(0), PlainOutcome::Refused(Refusal::NoJob)),
];

#[test]
fn a_freeze_and_an_abandon_make_no_request(rt: HostRuntime) {
    let mut table = with_four(&rt, rt.alloc());
    assert_without(&rt, rt.alloc(), &mut table, &ON_JOBS);
    assert_entries(&rt, &table, 5);
}

const MAKES_5: Ask = Ask::Filter(4, 4, 5);

// The job makes a map with `pairs` pairs, with every request for memory refused.
fn assert_made(rt: &impl Abort, alloc: Global, table: &mut Asking, job: u64, pairs: u64) {
    let part = part_of(alloc, table, job).expect(rt, "no part");
    let taken = no_memory(rt, alloc);
    let outcome = finish_outcome(&close(table, job, part));
    drop(taken);
    assert_is(rt, outcome, PlainOutcome::Made(pairs));
}

const TAKEN: [Case; 2] = [
    (
        Do::Freeze(7, MAKES_5),
        PlainOutcome::Refused(Refusal::NoHandle),
    ),
    (
        Do::Freeze(1, MAKES_5),
        PlainOutcome::Refused(Refusal::Taken),
    ),
];

#[test]
fn a_finish_and_a_refused_freeze_make_no_request(rt: HostRuntime) {
    let mut table = with_four(&rt, rt.alloc());
    let rows = [(Do::Freeze(1, MAKES_5), PlainOutcome::Frozen(0, 1, Some(4)))];
    assert_rows(&rt, rt.alloc(), &mut table, &rows);
    assert_made(&rt, rt.alloc(), &mut table, 0, 1);
    assert_without(&rt, rt.alloc(), &mut table, &TAKEN);
    assert_entries(&rt, &table, 6);
    let rows = [(Do::On(5, Act::Get(97)), PlainOutcome::Old(Some(4)))];
    assert_rows(&rt, rt.alloc(), &mut table, &rows);
}
