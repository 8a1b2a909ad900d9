//! Pieces as roots of their own, with too little memory and then with enough.

use super::{map_of, view_of};
use splitter::{Cut, Piece, cut, whole};
use std::alloc::Global;
use std::panic::Expect;
use std::process::Abort;
use test_keys::{ChosenKey, Shortage};
use test_maps::outline_of_piece;
use test_roots::Outline;
use trie_node::size;

type Part = Piece<ChosenKey, i64>;

// How often the piece is refused its root because memory runs out, where each time there are 32 bytes more; none where
// it never gets one.
fn refusals(rt: &impl Abort, alloc: Global, piece: &Part) -> Option<u32> {
    let mut shortage = Shortage::new(alloc).expect(rt, "no list");
    for refused in 0..400 {
        if let Ok(root) = piece.root() {
            return (size(&root) == piece.len()).then_some(refused);
        }
        shortage.give(alloc, 32).expect(rt, "not given");
    }
    None
}

// The nodes of the piece's root.
fn nodes_of(rt: &impl Abort, alloc: Global, piece: &Part) -> Outline<i64> {
    outline_of_piece(alloc, piece).expect(rt, "no root")
}

// The piece's root is refused for want of a branch, at least so often, and then has the nodes that it has with memory.
fn assert_left(rt: &impl Abort, alloc: Global, piece: &Part, branches: u32) {
    let want = nodes_of(rt, alloc, piece);
    let refused = refusals(rt, alloc, piece);
    assert!(rt; refused.is_some_and(|times| times >= branches));
    let seen = nodes_of(rt, alloc, piece);
    assert!(rt; seen.lines.as_slice() == want.lines.as_slice());
    assert!(rt; seen.pairs.as_slice() == want.pairs.as_slice());
}

// The digits 1 and 2, and then this one.
fn third(digit: u64) -> u64 {
    1 | 2 << 5 | digit.wrapping_mul(1 << 10)
}

// The two pieces of a piece.
fn two_of(rt: &impl Abort, piece: Part) -> (Part, Part) {
    match cut(piece, 1).ok().expect(rt, "no cut") {
        Cut::Two(lower, upper) => (lower, upper),
        Cut::One(_piece) => panic!(rt; "no two pieces"),
    }
}

// Each new branch asks for memory: one for the lower piece, three for the upper.
#[test]
fn out_of_memory_leaves_the_piece(rt: HostRuntime) {
    let alloc = rt.alloc();
    let map = map_of(&rt, alloc, &[third(3), third(4), third(31)]);
    let all = whole(alloc, view_of(&rt, &map));
    assert_eq!(rt; refusals(&rt, alloc, &all), Some(0));
    let (lower, upper) = two_of(&rt, all);
    assert_left(&rt, alloc, &lower, 1);
    assert_left(&rt, alloc, &upper, 3);
}
