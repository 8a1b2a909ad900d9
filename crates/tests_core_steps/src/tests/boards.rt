//! The worked steps of one board, by hand: two keys, at the positions 0 and 12, two workers, a count of all pairs, and
//! pieces of one pair.

use super::{assert_is, assert_true};
use core_steps::{Board, Progress, first_board};
use std::alloc::Global;
use std::panic::Expect;
use std::process::Abort;
use std::sync::Arc;
use test_cores::{COUNT, END, TestPart};
use test_keys::ChosenKey;
use test_machine::query_of;
use trie_node::Stamp;
use versions::{Version, View};

// A board of the tests.
type TestBoard = Board<ChosenKey, u64, TestPart>;

// Puts a value at the key of a path word.
fn put(rt: &impl Abort, alloc: Global, map: &mut Version<ChosenKey, u64>, path: u64, value: u64) {
    let key = Arc::new(alloc, ChosenKey { path, id: 0 }).expect(rt, "no key");
    let value = Arc::new(alloc, value).expect(rt, "no value");
    map.put(alloc, key, value).expect(rt, "not put");
}

// Two pairs, at the positions 0 and 12.
fn two_pairs(rt: &impl Abort, alloc: Global) -> View<ChosenKey, u64> {
    let mut map = Version::empty(alloc, 100, Stamp(1)).expect(rt, "no map");
    put(rt, alloc, &mut map, 0, 1);
    put(rt, alloc, &mut map, 0xc000_0000_0000_0000, 2);
    map.view().expect(rt, "no view")
}

// A worker of the board takes a piece of its own.
fn take(rt: &impl Abort, board: &mut TestBoard, worker: u32) -> Progress {
    assert!(rt; (worker as usize) < board.workers());
    board.take(worker)
}

// A worker of the board steals a piece of another's.
fn steal(rt: &impl Abort, board: &mut TestBoard, worker: u32, from: u32) -> Progress {
    assert!(rt; (worker as usize) < board.workers());
    assert!(rt; (from as usize) < board.workers());
    board.steal(worker, from)
}

// A worker of the board cuts what it holds, where it has more than one pair.
fn split(rt: &impl Abort, board: &mut TestBoard, worker: u32) -> Progress {
    assert!(rt; (worker as usize) < board.workers());
    board.split(worker, 1).expect(rt, "not cut")
}

// The progress is the one that is expected.
fn assert_moved(rt: &impl Abort, progress: Progress, want: Progress) {
    assert_is(rt, progress, want);
}

// The moves of two workers, each with its progress.
fn assert_moves(rt: &impl Abort, board: &mut TestBoard) {
    assert_moved(rt, take(rt, board, 1), Progress::Idle);
    assert_moved(rt, take(rt, board, 0), Progress::Took(0, END));
    assert_moved(rt, split(rt, board, 0), Progress::Cut(0, 12, END));
    assert_moved(rt, split(rt, board, 0), Progress::Whole);
    assert_moved(rt, take(rt, board, 0), Progress::Idle);
    assert_moved(rt, steal(rt, board, 1, 0), Progress::Took(12, END));
    assert_moved(rt, steal(rt, board, 1, 0), Progress::Idle);
}

#[test]
fn pieces_are_taken_cut_and_stolen(rt: HostRuntime) {
    let view = two_pairs(&rt, rt.alloc());
    let made = first_board(rt.alloc(), &query_of(COUNT), 2, view);
    let mut board: TestBoard = made.expect(&rt, "no board");
    assert_moves(&rt, &mut board);
    assert_is(&rt, board.workers(), 2);
    assert_true(&rt, board.part(0).is_some());
    assert_true(&rt, board.part(2).is_none());
}
