//! That all workers begin, and that each piece is asked for once.
use super::{Asked, all, assert_is, counted, number, seen};
use hash_path::Bound;
use iter::Interval;
use std::alloc::Global;
use std::panic::Expect;
use std::process::Abort;
use std::sync::OnceLock;
use std::sync::atomic::{AtomicU32, Ordering};
use std::test::*;
use std::thread;
use task_pool::{Crew, Gate, run_crew};

// How many pairs there are. Each is a piece of its own.
const PAIRS: u32 = 64;

const WORKERS: u32 = 16;

// How often a thread lets others run before it gives up.
const TURNS: u32 = 10_000_000;

// No worker gives up.
const CREW: Crew = Crew {
    workers: WORKERS,
    grain: 1,
    patience: u32::MAX,
};

// Holds each worker's first piece until all workers have begun one.
#[derive(Drop)]
struct Meeting {
    // 1 for each worker that has begun a piece.
    present: Vec<AtomicU32>,
    // How many workers have begun a piece.
    begun: AtomicU32,
    // Waits that ran out.
    ran_out: AtomicU32,
}

impl Meeting {
    // No worker has begun.
    fn new(rt: &impl Abort, alloc: Global) -> Meeting {
        let mut present = Vec::new(alloc);
        for _ in 0..WORKERS {
            present.push(AtomicU32::new(0)).expect(rt, "no flags");
        }
        Meeting {
            present,
            begun: AtomicU32::new(0),
            ran_out: AtomicU32::new(0),
        }
    }

    // Notes that a worker begins a piece, and returns whether it is its first.
    fn is_first(&self, worker: u32) -> bool {
        match self.present.get(worker as usize) {
            Some(flag) => flag.swap(1, Ordering::SeqCst) == 0,
            None => false,
        }
    }

    // Waits until all workers have begun, and returns whether they have.
    fn wait(&self) -> bool {
        for _ in 0..TURNS {
            if self.begun.load(Ordering::SeqCst) >= WORKERS {
                return true;
            }
            thread::yield_now();
        }
        false
    }
}

impl Gate for Meeting {
    fn before(&self, worker: u32, _lo: Bound, _hi: Bound) {
        if self.is_first(worker) {
            self.begun.fetch_add(1, Ordering::SeqCst);
            if !self.wait() {
                self.ran_out.store(1, Ordering::SeqCst);
            }
        }
    }
}

// As many workers begin as were asked for, and they take their pieces from more than one: no deque has more than seven
// pieces at a time while each worker holds its first.
#[test]
fn all_workers_begin_before_any_has_worked(rt: HostRuntime) {
    let alloc = rt.alloc();
    let view = seen(&rt, alloc, PAIRS, false);
    let meeting = Meeting::new(&rt, alloc);
    let counted = counted(&rt, alloc, &view, CREW, &meeting, 16).expect(&rt, "no count");
    let ran_out = meeting.ran_out.load(Ordering::SeqCst);
    assert_is(&rt, (counted.0, counted.2, ran_out), (Some(64), 0, 0));
}

// What a gate was asked: the worker, and its interval.
type Asking = (u32, Bound, Bound);

// Records what it is asked.
#[derive(Drop)]
struct Recorder {
    next: AtomicU32,
    asked: Vec<OnceLock<Asking>>,
}

impl Recorder {
    // Nothing was asked.
    fn new(rt: &impl Abort, alloc: Global) -> Recorder {
        let mut asked = Vec::new(alloc);
        for _ in 0..PAIRS {
            asked.push(OnceLock::new()).expect(rt, "no records");
        }
        Recorder {
            next: AtomicU32::new(0),
            asked,
        }
    }

    // How often the interval was asked for by the worker.
    fn times(&self, worker: u32, interval: &Interval) -> u32 {
        let mut times = 0u32;
        for record in self.asked.iter() {
            if let Some(asking) = record.get() {
                if asking.0 == worker && asking.1 == interval.lo && asking.2 == interval.hi {
                    times = times.wrapping_add(1);
                }
            }
        }
        times
    }
}

impl Gate for Recorder {
    fn before(&self, worker: u32, lo: Bound, hi: Bound) {
        let place = self.next.fetch_add(1, Ordering::SeqCst);
        if let Some(record) = self.asked.get(place as usize) {
            let _ = record.try_set((worker, lo, hi));
        }
    }
}

// How many intervals the lists have, and whether each was asked for once by the worker of its list.
fn asked_once(recorder: &Recorder, lists: &[Vec<Interval>]) -> (u32, bool) {
    let mut count = 0u32;
    let mut once = true;
    let mut worker = 0u32;
    for list in lists {
        for interval in list.iter() {
            count = count.wrapping_add(1);
            once = once && recorder.times(worker, interval) == 1;
        }
        worker = worker.wrapping_add(1);
    }
    (count, once)
}

// The gate is asked once for each interval that is listed, by the worker in whose list it stands, and for no other.
#[test]
fn each_interval_was_asked_for_once_by_its_worker(rt: HostRuntime) {
    let alloc = rt.alloc();
    let view = seen(&rt, alloc, PAIRS, false);
    let recorder = Recorder::new(&rt, alloc);
    let query = Asked::Count(all());
    let report = run_crew(&rt, alloc, &view, &query, CREW, &recorder).expect(&rt, "no report");
    let asked = recorder.next.load(Ordering::SeqCst);
    let listed = asked_once(&recorder, &report.lists);
    assert_is(
        &rt,
        (number(&report.part), asked, listed),
        (Some(64), PAIRS, (PAIRS, true)),
    );
}
