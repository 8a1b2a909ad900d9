//! Signs by which the threads of a test wait for one another, with no lock held.
use crate::making::WORKERS;
use hash_path::Bound;
use locked_map::Gate;
use std::sync::atomic::{AtomicU32, Ordering};
use test_keys::wait_for;

/// How often a thread lets others run before it gives up.
pub const MOST_TURNS: u32 = 10_000_000;

/// What the threads of a test tell one another. Each number counts up from 0.
#[derive(Drop)]
pub struct Signs {
    /// Values that are being made, or pieces that were begun, by whichever worker.
    pub begun: AtomicU32,
    /// Pieces that were begun while the first was held.
    pub others: AtomicU32,
    /// Puts that were answered since.
    pub answered: AtomicU32,
    /// Waits that ran out.
    pub ran_out: AtomicU32,
    /// Pieces that the caller of the crew began.
    pub callers: AtomicU32,
}

impl Signs {
    /// Nothing was begun.
    pub fn new() -> Signs {
        Signs {
            begun: AtomicU32::new(0),
            others: AtomicU32::new(0),
            answered: AtomicU32::new(0),
            ran_out: AtomicU32::new(0),
            callers: AtomicU32::new(0),
        }
    }
}

// The first piece that is begun is held until the other worker has begun one and the put has been answered.
impl Gate for Signs {
    fn before(&self, worker: u32, _lo: Bound, _hi: Bound) {
        if worker >= WORKERS {
            self.callers.fetch_add(1, Ordering::SeqCst);
        }
        if self.begun.fetch_add(1, Ordering::SeqCst) > 0 {
            self.others.store(1, Ordering::SeqCst);
        } else if !wait_for(&self.others, MOST_TURNS) || !wait_for(&self.answered, MOST_TURNS) {
            self.ran_out.store(1, Ordering::SeqCst);
        }
    }
}

/// What is asked before each piece of a bulk call. It is one type, since it is not known of a type parameter of
/// `AnyMap::bulk` that threads may share it.
#[derive(Clone, Copy)]
pub enum TestGate<'a> {
    /// Nothing: every piece begins at once.
    Free,
    /// The signs of a test.
    Signed(&'a Signs),
}

impl Gate for TestGate<'_> {
    fn before(&self, worker: u32, lo: Bound, hi: Bound) {
        if let TestGate::Signed(signs) = self {
            signs.before(worker, lo, hi);
        }
    }
}
