//! What is worked on a board and collected, whose calls ask for a job's board, and each law once.

use super::{assert_is, assert_true};
use core_steps::{
    Move, Progress, collected, first_board, law_of_boards, law_of_cores, law_of_coverings,
    law_of_jobs, law_of_runs, law_of_tilings, make_move, work_on,
};
use std::alloc::Global;
use std::panic::Expect;
use std::process::Abort;
use std::sync::Arc;
use test_cores::{COUNT, END, PlainOutcome, plain_part};
use test_keys::ChosenKey;
use test_machine::{Question, TestQuery, query_of};
use trie_node::Stamp;
use versions::{Version, View};

// Puts a value at the key of a path word.
fn put(rt: &impl Abort, alloc: Global, map: &mut Version<ChosenKey, u64>, path: u64, value: u64) {
    let key = Arc::new(alloc, ChosenKey { path, id: 0 }).expect(rt, "no key");
    let value = Arc::new(alloc, value).expect(rt, "no value");
    map.put(alloc, key, value).expect(rt, "not put");
}

// Two pairs, at the positions 0 and 12.
fn two_pairs(rt: &impl Abort, alloc: Global) -> View<ChosenKey, u64> {
    let mut map = Version::empty(alloc, 100, Stamp(1)).expect(rt, "no map");
    put(rt, alloc, &mut map, 0, 1);
    put(rt, alloc, &mut map, 0xc000_0000_0000_0000, 2);
    map.view().expect(rt, "no view")
}

#[test]
fn pieces_are_worked(rt: HostRuntime) {
    let query = query_of(COUNT);
    let view = two_pairs(&rt, rt.alloc());
    let made = first_board(rt.alloc(), &query, 2, view);
    let mut board = made.expect(&rt, "no board");
    law_of_jobs::<ChosenKey, u64, TestQuery>(&query);
    assert!(rt; board.workers() == 2);
    assert_is(&rt, board.take(0), Progress::Took(0, END));
    assert!(rt; board.workers() == 2);
    let worked = work_on(rt.alloc(), &query, &mut board, 0);
    let progress = worked.expect(&rt, "not worked");
    assert_is(&rt, progress, Progress::Worked(0, END, 2, false));
    assert_is(
        &rt,
        board.part(0).map(plain_part),
        Some(PlainOutcome::Count(2)),
    );
}

#[test]
fn what_waits_is_not_collected(rt: HostRuntime) {
    let query = query_of(COUNT);
    let view = two_pairs(&rt, rt.alloc());
    let made = first_board(rt.alloc(), &query, 1, view);
    let board = made.expect(&rt, "no board");
    let part = collected(rt.alloc(), &query, &board).expect(&rt, "no part");
    assert_true(&rt, part.is_none());
}

#[test]
fn all_that_was_worked_is_collected(rt: HostRuntime) {
    let query = query_of(COUNT);
    let view = two_pairs(&rt, rt.alloc());
    let made = first_board(rt.alloc(), &query, 1, view);
    let mut board = made.expect(&rt, "no board");
    law_of_jobs::<ChosenKey, u64, TestQuery>(&query);
    assert!(rt; board.workers() == 1);
    let took = make_move(rt.alloc(), &query, &mut board, 1, Move::Take(0));
    assert_is(&rt, took, Ok(Progress::Took(0, END)));
    assert!(rt; board.workers() == 1);
    let worked = make_move(rt.alloc(), &query, &mut board, 1, Move::Work(0));
    assert_is(&rt, worked, Ok(Progress::Worked(0, END, 2, false)));
    let part = collected(rt.alloc(), &query, &board).expect(&rt, "no part");
    assert_is(
        &rt,
        part.as_ref().map(plain_part),
        Some(PlainOutcome::Count(2)),
    );
}

#[test]
fn laws_are_called() {
    law_of_runs::<ChosenKey, u64, TestQuery>();
    law_of_cores::<ChosenKey, u64, TestQuery>();
    law_of_coverings::<ChosenKey, u64, TestQuery>();
    law_of_tilings::<ChosenKey, u64, TestQuery>();
    law_of_boards::<ChosenKey, u64>();
    law_of_jobs::<ChosenKey, u64, TestQuery>(&query_of(Question::Total));
}
