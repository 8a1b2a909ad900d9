//! Which nodes operations copy.
use super::{Answer, Call, answer_of};
use crate::tests::{
    Texts, assert_is, assert_put, assert_sizes, clear, empty_at, fork, next, sizes,
};
use generation::Source;
use std::alloc::Global;
use std::process::Abort;

// A map that maps a to 1 and b to 2, and a fork of it.
fn forked(rt: &impl Abort, alloc: Global) -> (Texts, Texts) {
    let mut source = Source::new();
    let mut map = empty_at(rt, alloc, 10, next(rt, &mut source));
    assert_put(rt, alloc, &mut map, ("a", 1), Ok(None));
    assert_put(rt, alloc, &mut map, ("b", 2), Ok(None));
    let fork = fork(rt, &mut map, &mut source);
    (map, fork)
}

// The calls are made one after another, and answered so; after each the map has the row's number of pairs, and its
// number of nodes of its own.
fn assert_writes(
    rt: &impl Abort,
    alloc: Global,
    map: &mut Texts,
    rows: &[(Call, &str, Answer, (u64, u64))],
) {
    for (number, (call, at, want, want_sizes)) in rows.iter().enumerate() {
        let seen = answer_of(rt, alloc, map, *call, at);
        assert_is(rt, (number, seen), (number, Ok(*want)));
        assert_is(rt, (number, sizes(map)), (number, *want_sizes));
    }
}

#[test]
fn what_changes_nothing_copies_no_node(rt: HostRuntime) {
    let alloc = rt.alloc();
    let (map, mut fork) = forked(&rt, alloc);
    assert_sizes(&rt, &map, (2, 0));
    assert_sizes(&rt, &fork, (2, 0));
    assert_writes(
        &rt,
        alloc,
        &mut fork,
        &[
            (Call::PutIfAbsent(9), "a", Answer::Was(Some(1)), (2, 0)),
            (Call::GetOrElseUpdate(9), "a", Answer::Is(1, false), (2, 0)),
            (Call::Replace(9), "c", Answer::Was(None), (2, 0)),
            (Call::ReplaceIf(9, 8), "a", Answer::Done(false), (2, 0)),
            (Call::ReplaceIf(9, 8), "c", Answer::Done(false), (2, 0)),
            (Call::Remove, "c", Answer::Was(None), (2, 0)),
            (Call::RemoveIf(9), "a", Answer::Done(false), (2, 0)),
            (Call::RemoveIf(9), "c", Answer::Done(false), (2, 0)),
        ],
    );
    assert_sizes(&rt, &map, (2, 0));
}

#[test]
fn what_changes_a_key_copies_its_path(rt: HostRuntime) {
    let alloc = rt.alloc();
    let (map, mut fork) = forked(&rt, alloc);
    assert_writes(
        &rt,
        alloc,
        &mut fork,
        &[
            (Call::ReplaceIf(1, 8), "a", Answer::Done(true), (2, 2)),
            (Call::Replace(9), "b", Answer::Was(Some(2)), (2, 3)),
            (Call::RemoveIf(8), "a", Answer::Done(true), (1, 2)),
        ],
    );
    assert_sizes(&rt, &map, (2, 0));
}

#[test]
fn a_clear_leaves_one_node_and_the_source_its_pairs(rt: HostRuntime) {
    let alloc = rt.alloc();
    let (map, mut fork) = forked(&rt, alloc);
    assert_is(&rt, clear(alloc, &mut fork), Ok(()));
    assert_sizes(&rt, &fork, (0, 1));
    assert_sizes(&rt, &map, (2, 0));
}
