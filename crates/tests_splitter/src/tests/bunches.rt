//! Walks that take their pairs from the trie in bunches.

use super::row_of;
use crate::maps::{Map, map_of, random_map, view_of};
use crate::plain::{PlainPair, rows_between};
use iter::BunchedPairs;
use splitter::{Cut, cut, whole};
use std::alloc::{AllocError, Global};
use std::panic::Expect;
use std::process::Abort;
use test_keys::{ChosenKey, Random};

// A walk of the tests.
type Bunched<'a> = BunchedPairs<'a, ChosenKey, i64>;

// How many random maps are walked.
const MAPS: u32 = 100;

// The walk gives these rows and no more.
fn assert_bunched(rt: &impl Abort, walk: &mut Bunched<'_>, rows: &[PlainPair]) {
    for row in rows {
        assert_eq!(rt; row_of(walk.next()), Some(*row));
    }
    assert_eq!(rt; row_of(walk.next()), None);
    assert_eq!(rt; row_of(walk.next()), None);
}

// The map has these rows, and each half of it has its rows of them.
fn assert_halves(rt: &impl Abort, alloc: Global, map: &Map, rows: &[PlainPair]) {
    let piece = whole(alloc, view_of(rt, map));
    assert_bunched(rt, &mut piece.bunched_pairs(), rows);
    if let Ok(Cut::Two(lower, upper)) = cut(piece, 1) {
        for half in [&lower, &upper] {
            let own = rows_between(rt, alloc, rows, half.lo(), half.hi());
            assert_bunched(rt, &mut half.bunched_pairs(), &own);
        }
    }
}

#[test]
fn bunches_list_random_maps_and_their_halves(rt: HostRuntime) {
    let alloc = rt.alloc();
    let mut random = Random(15);
    for _ in 0..MAPS {
        let (map, rows) = random_map(&rt, alloc, &mut random);
        assert_halves(&rt, alloc, &map, &rows);
    }
}

// This path word, `count` times.
fn same(alloc: Global, word: u64, count: usize) -> Result<Vec<u64>, AllocError> {
    let mut words = Vec::new(alloc);
    for _ in 0..count {
        words.push(word)?;
    }
    Ok(words)
}

// One path word `count` times, beside one that has its first digit and one that has not.
fn beside_bucket(alloc: Global, count: usize) -> Result<Vec<u64>, AllocError> {
    let mut words = same(alloc, 7, count)?;
    words.push(39)?;
    words.push(8)?;
    Ok(words)
}

// `count` path words, all with the same two first digits.
fn near(alloc: Global, count: u64) -> Result<Vec<u64>, AllocError> {
    let mut words = Vec::new(alloc);
    for n in 0..count {
        words.push(n.wrapping_mul(0x9e37_79b9_7f4a_7c15) << 10)?;
    }
    Ok(words)
}

// A bunch has 512 pairs at most: a subtrie of one more is entered, and a bucket of more is given in parts.
#[test]
fn bunches_end_where_they_are_full(rt: HostRuntime) {
    let alloc = rt.alloc();
    for count in [511, 512, 513, 1_100] {
        let words = near(alloc, count).expect(&rt, "no words");
        let (map, rows) = map_of(&rt, alloc, &words);
        assert_eq!(rt; rows.len() as u64, count);
        assert_halves(&rt, alloc, &map, &rows);
    }
    for count in [511, 512, 513, 1_024, 1_025, 1_100] {
        let words = beside_bucket(alloc, count).expect(&rt, "no words");
        let (map, rows) = map_of(&rt, alloc, &words);
        assert_halves(&rt, alloc, &map, &rows);
    }
}
