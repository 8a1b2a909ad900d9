//! Calls of a map that threads share and that has two million pairs: no call fails with `NoMemory` while there is
//! memory, however many pairs, nodes or bytes it takes.
//!
//! It prints a line for each number that comes of them. All are known beforehand.
#![tactic(auto)]

mod asking;
mod making;
mod writing;

use std::io;
use std::rt::Runtime;
use std::sync::Wait;
use std::thread::Threads;
use tambyulo::{PutError, TrieMap};

/// The map: each number below `PAIRS` has itself as its value.
type Numbers = TrieMap<u64, u64>;

/// How many pairs there are.
const PAIRS: u64 = 2_000_000;

/// What was done, in the order in which it is printed.
const NAMES: [&str; 23] = [
    "got",
    "present",
    "walked",
    "counted",
    "some pass",
    "all pass",
    "found",
    "sum",
    "least",
    "greatest",
    "counted by a crew",
    "sum by a crew",
    "groups",
    "ranked",
    "filtered",
    "changed",
    "merged",
    "raised",
    "raised in a view",
    "in a snapshot",
    "retained there",
    "removed",
    "left",
];

/// The number that came of each.
type Figures = [u64; 23];

/// Makes the calls, one after another.
fn numbers<R: AllocGlobal + Threads + Wait + Sync>(rt: &R) -> Result<Figures, PutError> {
    let map = writing::filled(rt)?;
    let [got, present] = writing::found(rt, &map)?;
    let [walked, counted, some, all, found, sum] = asking::asked(rt, &map)?;
    let [least, greatest] = asking::ends(rt, &map)?;
    let [crew_count, crew_sum, groups, ranked] = asking::asked_of_crew(rt, &map)?;
    let [filtered, changed, merged] = making::made(rt, &map)?;
    let [raised, kept] = writing::raised(rt, &map)?;
    let [copied, retained] = writing::copied(rt, &map)?;
    let [removed, left] = writing::removed(rt, &map)?;
    Ok([
        got, present, walked, counted, some, all, found, sum, least, greatest, crew_count,
        crew_sum, groups, ranked, filtered, changed, merged, raised, kept, copied, retained,
        removed, left,
    ])
}

/// Prints a line for each number.
fn print_lines<R: Runtime>(rt: &R, numbers: &Figures) -> io::Result<()> {
    for (name, number) in NAMES.iter().zip(numbers.iter()) {
        println!(rt; "{name}: {number}")?;
    }
    Ok(())
}

fn main(rt: HostRuntime) -> io::Result<()> {
    match numbers(&rt) {
        Ok(numbers) => print_lines(&rt, &numbers),
        Err(error) => println!(rt; "refused: {error}"),
    }
}
