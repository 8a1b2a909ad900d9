//! What calls of seats of a shared map return, by hand and beside a plain program.

mod bulk;
mod clients;
mod ends;
mod getting;
mod jobs;
mod meeting;
mod random;
mod replay;
mod running;
mod torn;
mod waiting;

use handles::Limits;
use std::fmt::Debug;
use std::process::Abort;
use std::sync::Wait;
use std::thread::Threads;
use test_journals::{End, Step, played_and_filed};

// What is seen is what is wanted.
fn assert_is<T: PartialEq + Debug + Drop>(rt: &impl Abort, seen: T, want: T) {
    assert_eq!(rt; seen, want);
}

// Each step has the outcome that it says, and the map closes. The entries of its journal are those that the steps say, in
// order. A plain program comes to the same table from them, which answers so.
fn assert_ends<R: AllocGlobal + Abort + Threads + Wait + Sync>(
    rt: &R,
    seats: u32,
    limits: Limits,
    steps: &[Step],
    ends: &[End],
) {
    let compared = played_and_filed(rt, rt.alloc(), seats, limits, steps, ends);
    compared.expect(rt, "something else was played");
}

// The same, where nothing is asked of the table.
fn assert_steps<R: AllocGlobal + Abort + Threads + Wait + Sync>(
    rt: &R,
    seats: u32,
    limits: Limits,
    steps: &[Step],
) {
    assert_ends(rt, seats, limits, steps, &[]);
}
