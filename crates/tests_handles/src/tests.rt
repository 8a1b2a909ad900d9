//! What calls of a table answer, by hand.
//!
//! Most tests are a list of steps, each beside its outcome. A step that has no memory ends its test where it stands.

mod calls;
mod foresight;
mod jobs;

use handles::{Limits, MOST_ENTRIES};
use std::alloc::Global;
use std::fmt::Debug;
use std::panic::Expect;
use std::process::Abort;
use test_tables::{Asking, Do, PlainOutcome, Prepared, step_of, take};
use versions::MOST_PAIRS;

/// The largest limits.
const LARGEST: Limits = Limits {
    pairs: 16_777_216,
    entries: 1_048_576,
};

/// A step, and its outcome.
type Case = (Do, PlainOutcome);

/// What is seen is what is wanted.
fn assert_is<T: PartialEq + Debug + Drop>(rt: &impl Abort, seen: T, want: T) {
    assert_eq!(rt; seen, want);
}

/// A table with no handles. No check of the crate proves what a call asks for, so it is asserted here.
fn table_of(rt: &impl Abort, alloc: Global, limits: Limits) -> Asking {
    assert!(rt; 1 <= limits.pairs && limits.pairs <= MOST_PAIRS);
    assert!(rt; 2 <= limits.entries && limits.entries <= MOST_ENTRIES);
    Asking::new(alloc, limits).expect(rt, "no table")
}

/// A step that a table can make.
fn step(rt: &impl Abort, alloc: Global, what: Do) -> Prepared {
    step_of(alloc, what).expect(rt, "no step")
}

/// The steps, one after another, have these outcomes.
fn assert_rows(rt: &impl Abort, alloc: Global, table: &mut Asking, rows: &[Case]) {
    for (what, want) in rows {
        let made = step(rt, alloc, *what);
        assert_is(rt, take(alloc, table, &made), *want);
    }
}

/// The table has made `want` entries.
fn assert_entries(rt: &impl Abort, table: &Asking, want: u32) {
    assert_is(rt, table.entries(), want);
}

/// A new table returns these outcomes, and has made `entries` entries.
fn assert_new(rt: &impl Abort, alloc: Global, limits: Limits, rows: &[Case], entries: u32) {
    let mut table = table_of(rt, alloc, limits);
    assert_rows(rt, alloc, &mut table, rows);
    assert_entries(rt, &table, entries);
}
