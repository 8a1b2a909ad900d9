//! A registry of leases: those that have expired are counted, and those that have not are filtered into a new map,
//! while writes to the registry go on. Of a registry that threads share, a crew of four counts how many leases
//! have expired, will soon, and last longer, while three others write it. Of one by names it counts how many names
//! begin with each letter.
//!
//! What it prints is stored beside it. It fails, with status 1, where memory or the output does.
#![tactic(auto)]

mod by_initial;
mod initials;
mod lease;
mod named;
mod outlook;
mod queries;
mod shared;
mod tour;

use anyhow::Result;
use std::process::ExitCode;
use std::rt::Runtime;
use std::sync::Wait;
use std::thread::Threads;

fn main(rt: HostRuntime) -> ExitCode {
    match run(&rt) {
        Ok(()) => ExitCode::SUCCESS,
        Err(error) => {
            let _ = rt.eprintln(format_args!("expiry: {error}"));
            ExitCode::FAILURE
        }
    }
}

// One registry after another.
fn run<R: Runtime + AllocGlobal + Threads + Wait + Sync>(rt: &R) -> Result<()> {
    tour::tour(rt)?;
    shared::tour(rt)?;
    named::tour(rt)
}
