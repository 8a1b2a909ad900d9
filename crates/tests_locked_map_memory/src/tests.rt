//! Seats of a shared map with requests for memory refused.
//!
//! Most tests are a list of steps, each beside its outcome: a list is no work to prove.

mod freeing;
mod full;
mod unfiled;
mod wanting;

use handles::Limits;
use std::alloc::Global;
use std::fmt::Debug;
use std::process::Abort;
use std::sync::Wait;
use std::thread::Threads;
use test_clients::Outcome;
use test_journals::{Step, played_and_filed};
use test_machine::{Do, Request};

// What is seen is what is wanted. An assertion is proved wherever it is written out, so it stands here once.
fn assert_is<T: PartialEq + Debug + Drop>(rt: &impl Abort, seen: T, want: T) {
    assert_eq!(rt; seen, want);
}

// Each step has the outcome that it says, and the map closes. The entries of its journal are those that the steps say, in
// order. A plain program comes to the same table from them.
fn assert_steps<R: AllocGlobal + Abort + Threads + Wait + Sync>(
    rt: &R,
    seats: u32,
    limits: Limits,
    steps: &[Step],
) {
    let compared = played_and_filed(rt, rt.alloc(), seats, limits, steps, &[]);
    compared.expect(rt, "something else was played");
}

// The first steps, and then sizes of handle 1, which has `pairs` pairs, until there are `count` steps.
fn filled(rt: &impl Abort, alloc: Global, first: &[Step], count: usize, pairs: u64) -> Vec<Step> {
    let mut steps = Vec::from_slice(alloc, first).expect(rt, "no steps");
    for _ in first.len()..count {
        let size = Step::Ask(0, Request::On(1, Do::Size), Outcome::Size(pairs));
        steps.push(size).expect(rt, "no room");
    }
    steps
}
