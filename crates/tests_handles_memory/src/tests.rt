//! What calls of a table answer with requests for memory refused, and what laws show of them.
//!
//! A step that has no memory where it is given some ends its test where it stands, so that no test has values to drop on
//! the way.

mod foresight;
mod laws;
mod memory;
mod served;

use handles::Limits;
use std::alloc::Global;
use std::fmt::Debug;
use std::panic::Expect;
use std::process::Abort;
use test_keys::take_all;
use test_tables::{Act, Asking, Do, PlainOutcome, Prepared, step_of, take};

/// A step, and its outcome.
type Case = (Do, PlainOutcome);

/// What is seen is what is wanted. An assertion is proved wherever it is written out, so it stands here once.
fn assert_is<T: PartialEq + Debug + Drop>(rt: &impl Abort, seen: T, want: T) {
    assert_eq!(rt; seen, want);
}

/// A table with no handles, and the largest limits.
fn table_of(rt: &impl Abort, alloc: Global) -> Asking {
    let limits = Limits {
        pairs: 16_777_216,
        entries: 1_048_576,
    };
    Asking::new(alloc, limits).expect(rt, "no table")
}

/// A step that a table can make.
fn step(rt: &impl Abort, alloc: Global, what: Do) -> Prepared {
    step_of(alloc, what).expect(rt, "no step")
}

/// The steps, one after another, have these outcomes.
fn assert_rows(rt: &impl Abort, alloc: Global, table: &mut Asking, rows: &[Case]) {
    for (what, want) in rows {
        let made = step(rt, alloc, *what);
        assert_is(rt, take(alloc, table, &made), *want);
    }
}

/// The table has made `want` entries.
fn assert_entries(rt: &impl Abort, table: &Asking, want: u32) {
    assert_is(rt, table.entries(), want);
}

// A table with a handle 1, where the key 97 has the value 4.
fn with_four(rt: &impl Abort, alloc: Global) -> Asking {
    let mut table = table_of(rt, alloc);
    let rows = [
        (Do::Open(1), PlainOutcome::Unit),
        (Do::On(1, Act::Put(97, 4)), PlainOutcome::Old(None)),
    ];
    assert_rows(rt, alloc, &mut table, &rows);
    table
}

// Every request for memory is refused until what is given is dropped.
fn no_memory(rt: &impl Abort, alloc: Global) -> Vec<Vec<u8>> {
    take_all(alloc).expect(rt, "no list")
}
