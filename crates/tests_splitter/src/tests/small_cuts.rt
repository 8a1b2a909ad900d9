//! Cuts of small maps, by hand.

use super::small_walks::WORDS;
use crate::maps::{map_of, view_of};
use splitter::{Cut, Piece, cut, whole};
use std::alloc::Global;
use std::panic::Expect;
use std::process::Abort;
use test_keys::ChosenKey;

// The whole of a map with these path words, each with a number of its own.
fn piece_of(rt: &impl Abort, alloc: Global, words: &[u64]) -> Piece<ChosenKey, i64> {
    let (map, _) = map_of(rt, alloc, words);
    whole(alloc, view_of(rt, &map))
}

// The bounds and the size of the lower piece, and the end and the size of the upper one.
type Pieces = (u128, u128, u64, u128, u64);

// The two pieces, or none.
fn cut_of(rt: &impl Abort, piece: Piece<ChosenKey, i64>, grain: u64) -> Option<Pieces> {
    match cut(piece, grain).ok().expect(rt, "no cut") {
        Cut::Two(lower, upper) => Some((
            lower.lo(),
            lower.hi(),
            lower.len(),
            upper.hi(),
            upper.len(),
        )),
        Cut::One(_) => None,
    }
}

// The map with these path words is cut into these two pieces, or not at all.
fn assert_cut(rt: &impl Abort, alloc: Global, words: &[u64], grain: u64, want: Option<Pieces>) {
    let pieces = cut_of(rt, piece_of(rt, alloc, words), grain);
    assert_eq!(rt; pieces, want);
}

#[test]
fn words_are_cut_in_the_middle(rt: HostRuntime) {
    let alloc = rt.alloc();
    assert_cut(&rt, alloc, &[0, 0, 0], 1, None);
    let pieces = (0, 12, 1, 18_446_744_073_709_551_616, 1);
    assert_cut(&rt, alloc, &[0, 0xc000_0000_0000_0000], 1, Some(pieces));
    let pieces = (
        0,
        6_917_529_027_641_081_856,
        1,
        18_446_744_073_709_551_616,
        2,
    );
    assert_cut(&rt, alloc, &WORDS, 1, Some(pieces));
    assert_cut(&rt, alloc, &WORDS, 3, None);
    let pieces = (
        0,
        17_870_283_321_406_128_128,
        1,
        18_446_744_073_709_551_616,
        1,
    );
    assert_cut(&rt, alloc, &[0, 0xffff_ffff_ffff_ffff], 1, Some(pieces));
    assert_cut(&rt, alloc, &[], 1, None);
}

// A walk over the piece meets these path words, and no other.
fn assert_words(rt: &impl Abort, piece: &Piece<ChosenKey, i64>, words: &[u64]) {
    let mut walk = piece.pairs().expect(rt, "no walk");
    for word in words {
        assert_eq!(rt; walk.next().map(|pair| pair.0.path), Some(*word));
    }
    assert!(rt; walk.next().is_none());
}

#[test]
fn each_half_has_its_words(rt: HostRuntime) {
    let alloc = rt.alloc();
    let [a, b, c] = WORDS;
    match cut(piece_of(&rt, alloc, &WORDS), 1) {
        Ok(Cut::Two(lower, upper)) => {
            assert_words(&rt, &lower, &[b]);
            assert_words(&rt, &upper, &[a, c]);
        }
        _ => assert!(rt; false, "no two pieces"),
    }
}
