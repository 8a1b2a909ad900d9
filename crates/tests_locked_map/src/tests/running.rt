//! Clients that run over one map, each on a thread of its own.
use handles::{Limits, MOST_ENTRIES};
use locked_map::{MOST_SEATS, with_clients};
use std::process::Abort;
use std::sync::Wait;
use std::thread::Threads;
use test_clients::{Playing, Plays, TestClosed};
use versions::MOST_PAIRS;

/// Runs the clients: what each came to, and what is left of the map. No check of the crate proves what the call asks for,
/// so it is asserted here.
pub fn run_clients<P, R>(
    rt: &R,
    limits: Limits,
    clients: Vec<Playing<P>>,
) -> (Vec<P::Out>, TestClosed)
where
    P: Plays + Drop + Send + Sync,
    P::Out: Drop + Send,
    R: AllocGlobal + Abort + Threads + Wait + Sync,
{
    assert!(rt; 1 <= limits.pairs && limits.pairs <= MOST_PAIRS);
    assert!(rt; 2 <= limits.entries && limits.entries <= MOST_ENTRIES);
    assert!(rt; clients.len() <= MOST_SEATS as usize);
    let run = with_clients(rt, rt.alloc(), limits, clients);
    run.expect(rt, "no journal")
}
