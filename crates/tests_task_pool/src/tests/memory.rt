//! Counts where memory runs out: at each request of a caller that runs all workers, since no thread can be started
//! then, and from some piece on, while threads work.
use super::{Counted, Seen, assert_is, counted, seen};
use hash_path::Bound;
use std::alloc::Global;
use std::panic::Expect;
use std::process::Abort;
use std::sync::atomic::{AtomicU32, Ordering};
use std::sync::{OnceLock, Wait};
use std::thread::Threads;
use task_pool::{Crew, Free, Gate};
use test_keys::{Shortage, take_all};
use trie_node::NoMemory;

// How many pairs are counted. Each is a piece of its own.
const PAIRS: u32 = 64;

const CREW: Crew = Crew {
    workers: 2,
    grain: 1,
    patience: 1000,
};

// How many bytes are given after each refusal.
const STEP: usize = 16;

// How often a count is tried at most.
const TRIES: u32 = 7_680;

// How far the pieces are apart before which memory ends, since taking all of it costs a quarter of a second.
const APART: u32 = 9;

// Counts with no memory, with a little, and so on, until there is enough: how often it ran out, and what was counted.
fn refused_and_counted<R: Threads + Wait + Abort + Sync>(
    rt: &R,
    alloc: Global,
    view: &Seen,
) -> (u32, Counted) {
    let mut shortage = Shortage::new(alloc).expect(rt, "no shortage");
    for refused in 0..TRIES {
        match counted(rt, alloc, view, CREW, &Free, 2) {
            Ok(counted) => return (refused, counted),
            Err(NoMemory) => give(rt, alloc, &mut shortage),
        }
    }
    panic!(rt; "memory is never enough")
}

// Gives a step more.
fn give(rt: &impl Abort, alloc: Global, shortage: &mut Shortage) {
    shortage
        .give(alloc, STEP)
        .expect(rt, "no room for the rest");
}

// With each try a request more is met. No thread gets a stack of what little there is, so the caller runs both workers,
// and each piece stands in the list of a worker. It catches a count of some of the pairs, and pieces that are lost with a
// worker.
#[test]
fn a_count_is_refused_at_each_request(rt: HostRuntime) {
    let alloc = rt.alloc();
    let view = seen(&rt, alloc, PAIRS, false);
    let (refused, counted) = refused_and_counted(&rt, alloc, &view);
    assert!(rt; refused > 0);
    assert_is(&rt, counted, (Some(64), (64, 3, false), 0));
}

// Takes all memory before the piece of a number is worked, by whichever thread, and keeps it. The first piece that is
// begun has the number 0.
#[derive(Drop)]
struct Taker {
    alloc: Global,
    at: u32,
    begun: AtomicU32,
    taken: OnceLock<Vec<Vec<u8>>>,
}

impl Gate for Taker {
    fn before(&self, _worker: u32, _lo: Bound, _hi: Bound) {
        if self.begun.fetch_add(1, Ordering::SeqCst) == self.at {
            if let Ok(taken) = take_all(self.alloc) {
                let _ = self.taken.try_set(taken);
            }
        }
    }
}

// Whether all pairs are counted where memory runs out from the piece on, or nothing where it is another number.
fn is_counted_until<R: Threads + Wait + Sync>(
    rt: &R,
    alloc: Global,
    view: &Seen,
    at: u32,
) -> Option<bool> {
    let gate = Taker {
        alloc,
        at,
        begun: AtomicU32::new(0),
        taken: OnceLock::new(),
    };
    match counted(rt, alloc, view, CREW, &gate, 2) {
        Ok((Some(64), _, _)) => Some(true),
        Ok(_) => None,
        Err(NoMemory) => Some(false),
    }
}

// It catches a worker that takes a piece for worked though memory ran out for it. The thread that begins the first
// piece has no room for its interval yet, so some of the counts are refused.
#[test]
fn memory_is_wanting_from_some_piece_on(rt: HostRuntime) {
    let alloc = rt.alloc();
    let view = seen(&rt, alloc, PAIRS, false);
    let mut refused = 0u32;
    for round in 0..PAIRS / APART + 1 {
        let at = round.wrapping_mul(APART);
        let counted = is_counted_until(&rt, alloc, &view, at);
        assert!(rt; counted.is_some(), "from piece {at} on");
        if counted == Some(false) {
            refused = refused.wrapping_add(1);
        }
    }
    assert!(rt; refused > 0);
    let beyond = is_counted_until(&rt, alloc, &view, PAIRS);
    assert_is(&rt, beyond, Some(true));
}
