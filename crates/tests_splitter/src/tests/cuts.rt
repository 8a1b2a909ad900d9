//! Random maps cut into pieces.

use super::{MAPS, assert_gives};
use crate::maps::{Map, random_map, view_of};
use crate::plain::{PlainPair, middle_of_rows, rows_between};
use splitter::{Cut, Piece, cut, whole};
use std::alloc::Global;
use std::panic::Expect;
use std::process::Abort;
use test_keys::{ChosenKey, Random};

type Part = Piece<ChosenKey, i64>;

// Pieces that wait to be cut, each beside its rows.
type Pieces = Vec<(Part, Vec<PlainPair>)>;

// A map of 300 keys has no more pieces than these on the way to pieces of one.
const MOST_PIECES: u32 = 600;

const END: u128 = 1 << 64;

// The piece has these rows.
fn assert_piece(rt: &impl Abort, piece: &Part, rows: &[PlainPair]) {
    let mut walk = piece.pairs().expect(rt, "no walk");
    assert_eq!(rt; piece.len(), rows.len() as u64);
    assert_gives(rt, &mut walk, rows);
}

// The cut of the piece, where there is memory.
fn made(rt: &impl Abort, piece: Part, grain: u64) -> Cut<ChosenKey, i64> {
    cut(piece, grain).ok().expect(rt, "no cut")
}

// Cuts the piece at this point, or nowhere: the two pieces meet there, and reach as far as the piece did.
fn cut_at(rt: &impl Abort, piece: Part, grain: u64, point: Option<u128>) -> Cut<ChosenKey, i64> {
    let (lo, hi) = (piece.lo(), piece.hi());
    match made(rt, piece, grain) {
        Cut::Two(lower, upper) => {
            assert_eq!(rt; Some(lower.hi()), point);
            assert_eq!(rt; Some(upper.lo()), point);
            assert_eq!(rt; (lower.lo(), upper.hi()), (lo, hi));
            Cut::Two(lower, upper)
        }
        Cut::One(piece) => {
            assert_eq!(rt; None, point);
            assert_eq!(rt; (piece.lo(), piece.hi()), (lo, hi));
            Cut::One(piece)
        }
    }
}

// Adds the piece beside its rows, which are some of these.
fn push(rt: &impl Abort, alloc: Global, pieces: &mut Pieces, piece: Part, rows: &[PlainPair]) {
    let rows = rows_between(rt, alloc, rows, piece.lo(), piece.hi());
    pieces.push((piece, rows)).expect(rt, "no room");
}

// Adds the two pieces of the cut, the lower one last. Where there is one it gives the bounds.
fn push_cut(
    rt: &impl Abort,
    alloc: Global,
    pieces: &mut Pieces,
    cut: Cut<ChosenKey, i64>,
    rows: &[PlainPair],
) -> Option<(u128, u128)> {
    match cut {
        Cut::Two(lower, upper) => {
            push(rt, alloc, pieces, upper, rows);
            push(rt, alloc, pieces, lower, rows);
            None
        }
        Cut::One(piece) => Some((piece.lo(), piece.hi())),
    }
}

// Cuts the map until no piece can be cut, each piece beside its rows. The last pieces stand one after another and end
// at the last position.
fn assert_divides(rt: &impl Abort, alloc: Global, map: &Map, rows: &[PlainPair], grain: u64) {
    let mut pieces = Vec::new(alloc);
    push(rt, alloc, &mut pieces, whole(alloc, view_of(rt, map)), rows);
    let mut end = 0;
    for _ in 0..MOST_PIECES {
        let Some((piece, rows)) = pieces.pop() else {
            break;
        };
        assert_piece(rt, &piece, &rows);
        let cut = cut_at(rt, piece, grain, middle_of_rows(rt, alloc, &rows, grain));
        if let Some((lo, hi)) = push_cut(rt, alloc, &mut pieces, cut, &rows) {
            assert_eq!(rt; lo, end);
            end = hi;
        }
    }
    assert!(rt; pieces.is_empty());
    assert_eq!(rt; end, END);
}

#[test]
fn cuts_tile_random_maps(rt: HostRuntime) {
    let alloc = rt.alloc();
    let mut random = Random(13);
    for _ in 0..MAPS {
        let (map, rows) = random_map(&rt, alloc, &mut random);
        let grain = u64::from(random.next(60));
        for grain in [1, 3, grain] {
            assert_divides(&rt, alloc, &map, &rows, grain);
        }
    }
}
