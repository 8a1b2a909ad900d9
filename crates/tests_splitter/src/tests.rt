//! Walks and pieces beside plain lists.

mod bunches;
mod cuts;
mod roots;
mod small_cuts;
mod small_walks;
mod walks;

use crate::plain::PlainPair;
use iter::Pairs;
use std::process::Abort;
use std::sync::Arc;
use test_keys::{ChosenKey, position_of};

// A walk of the tests.
type Walk<'a> = Pairs<'a, ChosenKey, i64>;

// How many random maps each test takes.
const MAPS: u32 = 1_000;

// A pair of a walk as a row.
fn row_of(pair: Option<(&Arc<ChosenKey>, &Arc<i64>)>) -> Option<PlainPair> {
    let (key, value) = pair?;
    Some(PlainPair {
        position: position_of(key.path),
        id: key.id,
        value: **value,
    })
}

// The walk gives these rows and no more, and reports at each how many are left.
fn assert_gives(rt: &impl Abort, walk: &mut Walk<'_>, rows: &[PlainPair]) {
    let mut left = rows.len();
    for row in rows {
        assert_eq!(rt; walk.left(), left as u64);
        assert_eq!(rt; walk.len(), left);
        assert_eq!(rt; row_of(walk.next()), Some(*row));
        left = left.saturating_sub(1);
    }
    assert_eq!(rt; (walk.left(), walk.len()), (0, 0));
    assert_eq!(rt; row_of(walk.next()), None);
}
