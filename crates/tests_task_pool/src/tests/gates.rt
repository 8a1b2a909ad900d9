//! Threads that work at one time, and beside a thread that writes.
use super::{Map, assert_is, counted, filled, put};
use hash_path::Bound;
use std::alloc::Global;
use std::panic::Expect;
use std::process::Abort;
use std::sync::atomic::{AtomicU32, Ordering};
use std::sync::{Mutex, Wait};
use std::test::*;
use std::thread;
use std::thread::Threads;
use task_pool::{Crew, Gate};
use test_keys::{ChosenKey, wait_for};

// How often a thread lets others run before it gives up.
const TURNS: u32 = 10_000_000;

const WORKERS: u32 = 2;

// What the threads of the test tell one another. Each number counts up from 0.
#[derive(Drop)]
struct Signs {
    // Pieces that were begun, by whichever worker.
    begun: AtomicU32,
    // Pieces that were begun while the first was held.
    others: AtomicU32,
    // Puts that were answered.
    answered: AtomicU32,
    // Waits that ran out.
    ran_out: AtomicU32,
    // Pieces that the caller began.
    callers: AtomicU32,
}

// No piece was begun.
fn no_signs() -> Signs {
    Signs {
        begun: AtomicU32::new(0),
        others: AtomicU32::new(0),
        answered: AtomicU32::new(0),
        ran_out: AtomicU32::new(0),
        callers: AtomicU32::new(0),
    }
}

// The first piece that is begun is held until the other worker has begun one and the put has been answered.
impl Gate for Signs {
    fn before(&self, worker: u32, _lo: Bound, _hi: Bound) {
        if worker >= WORKERS {
            self.callers.fetch_add(1, Ordering::SeqCst);
        }
        if self.begun.fetch_add(1, Ordering::SeqCst) > 0 {
            self.others.store(1, Ordering::SeqCst);
        } else if !wait_for(&self.others, TURNS) || !wait_for(&self.answered, TURNS) {
            self.ran_out.store(1, Ordering::SeqCst);
        }
    }
}

// How many pairs a crew of two counts in a view of the map.
fn count<R: AllocGlobal + Threads + Wait + Abort + Sync>(
    rt: &R,
    map: &Mutex<Map>,
    signs: &Signs,
) -> Option<u64> {
    let view = map.lock(rt).view().expect(rt, "no view");
    let crew = Crew {
        workers: WORKERS,
        grain: 1,
        patience: 1_000_000,
    };
    let counted = counted(rt, rt.alloc(), &view, crew, signs, 2);
    counted.expect(rt, "no count").0
}

// Puts a pair into the map once a piece was begun.
fn put_meanwhile<R: Wait + Abort>(rt: &R, alloc: Global, map: &Mutex<Map>, signs: &Signs) {
    if wait_for(&signs.begun, TURNS) {
        put(rt, alloc, &mut map.lock(rt), ChosenKey { path: 64, id: 64 });
        signs.answered.store(1, Ordering::SeqCst);
    }
}

// The count, whether a wait ran out, how many pieces the caller began, and how many pairs the map has in the end.
fn met<R: AllocGlobal + Threads + Wait + Abort + Sync>(rt: &R) -> (Option<u64>, u32, u32, u64) {
    let alloc = rt.alloc();
    let map = Mutex::new(filled(rt, alloc, 64, false));
    let signs = no_signs();
    let (shared, shared_signs) = (&map, &signs);
    let (counted, ()) = thread::join(
        rt,
        || count(rt, shared, shared_signs),
        || put_meanwhile(rt, alloc, shared, shared_signs),
    );
    let pairs = map.lock(rt).len();
    (
        counted,
        signs.ran_out.load(Ordering::SeqCst),
        signs.callers.load(Ordering::SeqCst),
        pairs,
    )
}

#[test]
fn two_workers_meet_and_a_put_is_answered_meanwhile(rt: HostRuntime) {
    assert_is(&rt, met(&rt), (Some(64), 0, 0, 65));
}
