//! The rows of a map between positions, and where rows are cut.

use std::alloc::Global;
use std::panic::Expect;
use std::process::Abort;
use test_keys::cut_point;
use test_machine::PlainPair;

/// The positions from the first on and below the second.
pub type Span = (u128, u128);

/// The rows whose positions lie in some of the spans.
pub fn rows_within(
    rt: &impl Abort,
    alloc: Global,
    rows: &[PlainPair],
    spans: &[Span],
) -> Vec<PlainPair> {
    let mut within = Vec::new(alloc);
    for row in rows {
        if lies_within(row.place.0, spans) {
            within.push(*row).expect(rt, "no room");
        }
    }
    within
}

// Whether some span has the position.
fn lies_within(position: u128, spans: &[Span]) -> bool {
    for span in spans {
        if span.0 <= position && position < span.1 {
            return true;
        }
    }
    false
}

/// Where rows are cut, if they are more than `grain` and do not share one position.
pub fn middle_of_rows(
    rt: &impl Abort,
    alloc: Global,
    rows: &[PlainPair],
    grain: u64,
) -> Option<u128> {
    cut_point(alloc, &positions_of(rt, alloc, rows), grain).expect(rt, "no room")
}

// The positions of rows.
fn positions_of(rt: &impl Abort, alloc: Global, rows: &[PlainPair]) -> Vec<u128> {
    let mut positions = Vec::new(alloc);
    for row in rows {
        positions.push(row.place.0).expect(rt, "no room");
    }
    positions
}
