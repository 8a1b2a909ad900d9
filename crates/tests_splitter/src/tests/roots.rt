//! Pieces as roots of their own, node for node.

use crate::maps::{Map, empty, map_of, put, random_map, view_of};
use splitter::{Cut, Piece, cut, whole};
use std::alloc::{AllocError, Global};
use std::panic::Expect;
use std::process::Abort;
use test_keys::{ChosenKey, Random};
use test_maps::{outline_of_map, outline_of_piece};
use test_roots::{Line, Outline};
use trie_node::Stamp;

type Part = Piece<ChosenKey, i64>;

// How many random maps are cut.
const MAPS: u32 = 60;

// A map has no more pieces than these on the way to pieces of one.
const MOST_PIECES: u32 = 1_000;

// A map of the pairs of the piece, put one after another.
fn put_anew(rt: &impl Abort, alloc: Global, piece: &Part) -> Map {
    let mut map = empty(rt, alloc);
    for (key, value) in piece.bunched_pairs() {
        put(rt, alloc, &mut map, **key, **value);
    }
    map
}

// How many nodes are new: they stand before all others, each below the one before, and none but the last has a second
// child. All others are the map's.
fn new_nodes(rt: &impl Abort, seen: &Outline<i64>) -> usize {
    let mut fresh = 0usize;
    let mut alone = true;
    for (line, stamp) in seen.lines.iter().zip(seen.stamps.iter()) {
        if *stamp == Stamp::LOOSE {
            assert_eq!(rt; line.depth as usize, fresh);
            assert!(rt; alone);
            alone = line.bitmap.is_some_and(|bitmap| bitmap.count_ones() == 1);
            fresh = fresh.saturating_add(1);
        } else {
            assert_eq!(rt; *stamp, Stamp(1));
            alone = false;
        }
    }
    fresh
}

// The piece's root is, node for node, that of a map into which its pairs were put. It shares all nodes but the first.
fn assert_root(rt: &impl Abort, alloc: Global, piece: &Part, is_whole: bool) {
    let seen = outline_of_piece(alloc, piece).expect(rt, "no root");
    let wanted = outline_of_map(alloc, &put_anew(rt, alloc, piece)).expect(rt, "no outline");
    assert_eq!(rt; seen.lines.first().map(|line| line.size), Some(piece.len()));
    assert_eq!(rt; seen.pairs.len() as u64, piece.len());
    assert!(rt; seen.lines.as_slice() == wanted.lines.as_slice());
    assert!(rt; seen.pairs.as_slice() == wanted.pairs.as_slice());
    assert_eq!(rt; new_nodes(rt, &seen) == 0, is_whole);
}

// The two pieces of a cut, if there are two.
fn two_of(rt: &impl Abort, piece: Part, grain: u64) -> Option<(Part, Part)> {
    match cut(piece, grain).ok().expect(rt, "no cut") {
        Cut::Two(lower, upper) => Some((lower, upper)),
        Cut::One(_piece) => None,
    }
}

// Adds the piece.
fn push(rt: &impl Abort, pieces: &mut Vec<Part>, piece: Part) {
    pieces.push(piece).expect(rt, "no room");
}

// Each piece on the way to those that are not cut has its root.
fn assert_roots(rt: &impl Abort, alloc: Global, map: &Map, grain: u64) {
    let mut pieces = Vec::new(alloc);
    push(rt, &mut pieces, whole(alloc, view_of(rt, map)));
    let mut is_whole = true;
    for _ in 0..MOST_PIECES {
        let Some(piece) = pieces.pop() else {
            break;
        };
        assert_root(rt, alloc, &piece, is_whole);
        is_whole = false;
        if let Some((lower, upper)) = two_of(rt, piece, grain) {
            push(rt, &mut pieces, upper);
            push(rt, &mut pieces, lower);
        }
    }
    assert!(rt; pieces.is_empty());
}

#[test]
fn pieces_of_random_maps_have_roots(rt: HostRuntime) {
    let alloc = rt.alloc();
    let mut random = Random(16);
    for _ in 0..MAPS {
        let (map, _) = random_map(&rt, alloc, &mut random);
        for grain in [1, u64::from(random.next(60))] {
            assert_roots(&rt, alloc, &map, grain);
        }
    }
}

// Words that have any digits at each level.
fn wide(alloc: Global) -> Result<Vec<u64>, AllocError> {
    let mut words = Vec::new(alloc);
    for n in 0u64..400 {
        words.push(n.wrapping_mul(0x9e37_79b9_7f4a_7c15))?;
    }
    Ok(words)
}

// Words that have one of a few digits at each level; some are the same.
fn deep(alloc: Global) -> Result<Vec<u64>, AllocError> {
    let mut words = Vec::new(alloc);
    for n in 0u64..400 {
        let mixed = n.wrapping_mul(0x9e37_79b9_7f4a_7c15);
        words.push((mixed >> 58 << 58) | (n % 3 << 20) | 5)?;
    }
    Ok(words)
}

// Words of many digits at all levels, of one digit at many, and of some that are shared.
#[test]
fn pieces_of_wide_and_deep_maps_have_roots(rt: HostRuntime) {
    let alloc = rt.alloc();
    for words in [wide(alloc), deep(alloc)] {
        let words = words.expect(&rt, "no words");
        let (map, _) = map_of(&rt, alloc, &words);
        for grain in [1, 20] {
            assert_roots(&rt, alloc, &map, grain);
        }
    }
}

// A map of no pair, and maps of one word, have no piece but the whole.
#[test]
fn maps_of_one_word_have_roots(rt: HostRuntime) {
    let alloc = rt.alloc();
    for words in [[].as_slice(), &[7], &[9, 9, 9]] {
        let (map, _) = map_of(&rt, alloc, words);
        assert_roots(&rt, alloc, &map, 0);
    }
}

// The two pieces of a map of these words.
fn halves_of(rt: &impl Abort, alloc: Global, words: &[u64]) -> (Part, Part) {
    let (map, _) = map_of(rt, alloc, words);
    two_of(rt, whole(alloc, view_of(rt, &map)), 1).expect(rt, "no two pieces")
}

// The piece's root has these nodes, with these stamps.
fn assert_nodes(rt: &impl Abort, alloc: Global, piece: &Part, nodes: &[(Line, Stamp)]) {
    let seen = outline_of_piece(alloc, piece).expect(rt, "no root");
    assert_eq!(rt; seen.lines.len(), nodes.len());
    for (at, node) in nodes.iter().enumerate() {
        assert_eq!(rt; seen.lines.as_slice().get(at), Some(&node.0));
        assert_eq!(rt; seen.stamps.as_slice().get(at), Some(&node.1));
    }
}

const NEW: Stamp = Stamp::LOOSE;

const OLD: Stamp = Stamp(1);

// The digits 1 and 2, and then this one.
fn third(digit: u64) -> u64 {
    1 | 2 << 5 | digit.wrapping_mul(1 << 10)
}

// Of three leaves that stand below two digits, the lower piece has one, which hangs in the root itself. The upper has
// two, below a branch of their own.
#[test]
fn a_lone_leaf_hangs_in_the_root(rt: HostRuntime) {
    let alloc = rt.alloc();
    let (lower, upper) = halves_of(&rt, alloc, &[third(3), third(4), third(31)]);
    let leaf = (Line::pairs(1, 1), OLD);
    assert_nodes(
        &rt,
        alloc,
        &lower,
        &[(Line::branch(0, 1 << 1, 1), NEW), leaf],
    );
    let below = (Line::pairs(3, 1), OLD);
    let chain = [
        (Line::branch(0, 1 << 1, 2), NEW),
        (Line::branch(1, 1 << 2, 2), NEW),
        (Line::branch(2, 1 << 4 | 1 << 31, 2), NEW),
        below,
        below,
    ];
    assert_nodes(&rt, alloc, &upper, &chain);
}

// A bucket hangs there too; a branch stays where it is.
#[test]
fn a_lone_branch_stays_below_its_digits(rt: HostRuntime) {
    let alloc = rt.alloc();
    let deeper = [third(3) | 6 << 15, third(3) | 7 << 15, third(4), third(4)];
    let (lower, upper) = halves_of(&rt, alloc, &deeper);
    let below = (Line::pairs(4, 1), OLD);
    let chain = [
        (Line::branch(0, 1 << 1, 2), NEW),
        (Line::branch(1, 1 << 2, 2), NEW),
        (Line::branch(2, 1 << 3, 2), NEW),
        (Line::branch(3, 1 << 6 | 1 << 7, 2), OLD),
        below,
        below,
    ];
    assert_nodes(&rt, alloc, &lower, &chain);
    let bucket = (Line::pairs(1, 2), OLD);
    assert_nodes(
        &rt,
        alloc,
        &upper,
        &[(Line::branch(0, 1 << 1, 2), NEW), bucket],
    );
}
