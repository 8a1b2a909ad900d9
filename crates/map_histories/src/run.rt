//! The histories that were asked for.

use crate::fault::Fault;
use crate::history::{History, history};
use crate::load::{Load, USUAL, load_of};
use std::rt::Runtime;
use std::sync::Wait;
use std::thread::Threads;

/// Makes the histories that the words after the program's name ask for and prints them, or makes the usual ones and
/// prints how many calls they have.
pub fn run<R: Runtime + AllocGlobal + Threads + Wait + Sync>(rt: &R) -> Result<(), Fault> {
    match load_of(rt)? {
        Some(load) => print_all(rt, load),
        None => count_all(rt, USUAL),
    }
}

// Makes all histories, and prints each once its threads have ended.
fn print_all<R: Runtime + AllocGlobal + Threads + Wait + Sync>(
    rt: &R,
    load: Load,
) -> Result<(), Fault> {
    for number in 0..load.histories {
        let made = history(rt, load, number)?;
        print_history(rt, number, &made)?;
    }
    Ok(())
}

// Prints the history of this number, thread by thread.
fn print_history<R: Runtime>(rt: &R, number: u64, made: &History) -> Result<(), Fault> {
    let mut thread = 0u64;
    for records in made {
        for record in records {
            rt.println(format_args!("{number} {thread} {record}"))?;
        }
        thread = thread.wrapping_add(1);
    }
    Ok(())
}

// Makes all histories, and prints how many calls they have.
fn count_all<R: Runtime + AllocGlobal + Threads + Wait + Sync>(
    rt: &R,
    load: Load,
) -> Result<(), Fault> {
    let mut calls = 0u64;
    for number in 0..load.histories {
        for records in history(rt, load, number)? {
            calls = calls.wrapping_add(records.len() as u64);
        }
    }
    rt.println(format_args!("{} histories, {calls} calls", load.histories))?;
    Ok(())
}
