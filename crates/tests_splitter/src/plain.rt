//! A map as a plain list of rows in the order of a walk, and where such a list is cut.

use std::alloc::{AllocError, Global};
use std::panic::Expect;
use std::process::Abort;
use test_keys::{WIDTHS, cut_point};

/// A pair by the position of its key, the key's number and its value.
#[derive(Clone, Copy, Debug, PartialEq, Eq)]
pub struct PlainPair {
    pub position: u128,
    pub id: u32,
    pub value: i64,
}

/// The rows from one position on and below another.
pub fn rows_between(
    rt: &impl Abort,
    alloc: Global,
    rows: &[PlainPair],
    lo: u128,
    hi: u128,
) -> Vec<PlainPair> {
    between(alloc, rows, lo, hi).expect(rt, "no list")
}

// The same, where there is memory.
fn between(
    alloc: Global,
    rows: &[PlainPair],
    lo: u128,
    hi: u128,
) -> Result<Vec<PlainPair>, AllocError> {
    let mut between = Vec::new(alloc);
    for row in rows {
        if lo <= row.position && row.position < hi {
            between.push(*row)?;
        }
    }
    Ok(between)
}

/// Where rows are cut, if they are more than `grain` and do not share one position.
pub fn middle_of_rows(
    rt: &impl Abort,
    alloc: Global,
    rows: &[PlainPair],
    grain: u64,
) -> Option<u128> {
    cut_point(alloc, &positions_of(rt, alloc, rows), grain).expect(rt, "no list")
}

// The positions of rows.
fn positions_of(rt: &impl Abort, alloc: Global, rows: &[PlainPair]) -> Vec<u128> {
    let mut positions = Vec::new(alloc);
    for row in rows {
        positions.push(row.position).expect(rt, "no list");
    }
    positions
}

/// How many nodes a walk looks into between two neighbouring positions that have rows, from the one `before` on to that
/// of the pairs `here`: those below the digits that both share, down to where no neighbour shares the digits.
pub fn nodes_between(before: Option<u128>, here: u128, after: Option<u128>) -> u64 {
    let above = shared_digits(before, here);
    let deepest = above.max(shared_digits(after, here));
    deepest.saturating_sub(above).saturating_add(1)
}

/// How many digits a position shares with another, from the first on; none where there is no other.
fn shared_digits(other: Option<u128>, position: u128) -> u64 {
    let Some(other) = other else {
        return 0;
    };
    let mut shared = 0u64;
    for width in WIDTHS {
        if other.checked_div(width) != position.checked_div(width) {
            return shared;
        }
        shared = shared.saturating_add(1);
    }
    shared
}
