//! What reports list where there is little to cut.
ghost use Rattle.std.specs.Prelude.{◌≡◌};

use super::{Asked, all, assert_is, counted, listed, number, seen};
use iter::Interval;
use std::panic::Expect;
use std::test::*;
use task_pool::{Crew, Free, run_crew};

// The first interval of the lists, if they have one.
fn first_of(lists: &[Vec<Interval>]) -> Option<Interval> {
    for list in lists {
        if let Some(interval) = list.first() {
            return Some(*interval);
        }
    }
    None
}

// A crew of two on an empty view works one interval, the whole, and its part is the unit.
#[test]
fn an_empty_view_is_worked_whole(rt: HostRuntime) {
    let alloc = rt.alloc();
    let view = seen(&rt, alloc, 0, false);
    let query = Asked::Count(all());
    let report = run_crew(&rt, alloc, &view, &query, Crew::of(2), &Free).expect(&rt, "no report");
    assert_is(&rt, number(&report.part), Some(0));
    assert_is(&rt, listed(&report), (1, 3, false));
    let whole = Interval {
        lo: 0,
        hi: 0x1_0000_0000_0000_0000,
    };
    assert_is(&rt, first_of(&report.lists), Some(whole));
}

// Sixteen workers.
fn sixteen(grain: u64) -> Crew
    ensures { result ≡ record { workers = 16; grain = grain; patience = 1000 } }
{
    Crew {
        workers: 16,
        grain,
        patience: 1000,
    }
}

// Pairs of one word cannot be told apart by their positions, so they are one piece, however small the grain.
#[test]
fn one_word_is_one_piece(rt: HostRuntime) {
    let alloc = rt.alloc();
    let view = seen(&rt, alloc, 1000, true);
    let counted = counted(&rt, alloc, &view, sixteen(1), &Free, 17);
    assert_is(&rt, counted, Ok((Some(1000), (1, 17, false), 0)));
}

// No thread is started for a view of at most the grain's pairs: the caller works it as one piece.
#[test]
fn few_pairs_are_worked_by_the_caller(rt: HostRuntime) {
    let alloc = rt.alloc();
    let view = seen(&rt, alloc, 64, false);
    let counted = counted(&rt, alloc, &view, sixteen(64), &Free, 16);
    assert_is(&rt, counted, Ok((Some(64), (1, 17, false), 1)));
}

// Pairs of two pieces start no more than two workers.
#[test]
fn two_pieces_start_two_workers(rt: HostRuntime) {
    let alloc = rt.alloc();
    let view = seen(&rt, alloc, 64, false);
    let counted = counted(&rt, alloc, &view, sixteen(32), &Free, 2);
    assert_is(&rt, counted, Ok((Some(64), (2, 17, false), 0)));
}

// One worker.
fn one() -> Crew
    ensures { result ≡ record { workers = 1; grain = 1; patience = 1000 } }
{
    Crew {
        workers: 1,
        grain: 1,
        patience: 1000,
    }
}

// A crew of one lists each piece for its worker, and none for the caller on whose thread it runs.
#[test]
fn one_worker_works_all_pieces(rt: HostRuntime) {
    let alloc = rt.alloc();
    let view = seen(&rt, alloc, 64, false);
    let counted = counted(&rt, alloc, &view, one(), &Free, 1);
    assert_is(&rt, counted, Ok((Some(64), (64, 2, false), 0)));
}

// It ends at the first piece whose part is settled.
#[test]
fn one_worker_ends_once_it_is_settled(rt: HostRuntime) {
    let alloc = rt.alloc();
    let view = seen(&rt, alloc, 64, false);
    let query = Asked::Exists(all());
    let report = run_crew(&rt, alloc, &view, &query, one(), &Free).expect(&rt, "no report");
    assert_is(&rt, listed(&report), (1, 2, false));
}

// What a crew of a number of workers may be set up as.
#[test]
fn a_crew_has_at_least_one_worker_and_at_most_sixteen(rt: HostRuntime) {
    assert_is(
        &rt,
        (
            Crew::of(0).workers,
            Crew::of(4).workers,
            Crew::of(17).workers,
        ),
        (1, 4, 16),
    );
}

// A crew beyond all limits, within them.
#[test]
fn a_crew_is_brought_within_its_limits(rt: HostRuntime) {
    let beyond = Crew {
        workers: 0,
        grain: 65_537,
        patience: 7,
    };
    let Crew {
        workers,
        grain,
        patience,
    } = beyond.within_limits();
    assert_is(&rt, (workers, grain, patience), (1, 65_536, 7));
}
