//! Walks that take their pairs from the trie in bunches, with every request for memory refused.

use super::{map_of, number_of, repeated, view_of};
use splitter::{Piece, whole};
use std::alloc::{AllocError, Global};
use std::panic::Expect;
use test_keys::{ChosenKey, take_all};

// `count` path words with the same two first digits, and `count` that are one.
fn near_and_same(alloc: Global, count: usize) -> Result<Vec<u64>, AllocError> {
    let mut words = repeated(alloc, &[7], count)?;
    for n in 0..count as u64 {
        words.push(n.wrapping_mul(0x9e37_79b9_7f4a_7c15) << 10)?;
    }
    Ok(words)
}

// How many pairs the piece's walk gives, and the number of its last key.
fn end_of(piece: &Piece<ChosenKey, i64>) -> (usize, Option<u32>) {
    let mut count = 0usize;
    let mut last = None;
    for (key, value) in piece.bunched_pairs() {
        last = number_of(Some((key, value)));
        count = count.saturating_add(1);
    }
    (count, last)
}

#[test]
fn bunches_make_no_request(rt: HostRuntime) {
    let alloc = rt.alloc();
    let words = near_and_same(alloc, 700).expect(&rt, "no words");
    let map = map_of(&rt, alloc, &words);
    let piece = whole(alloc, view_of(&rt, &map));
    let taken = take_all(alloc).expect(&rt, "no list");
    let end = end_of(&piece);
    drop(taken);
    // the bucket of those that are one comes last
    assert_eq!(rt; end, (words.len(), Some(699)));
}
