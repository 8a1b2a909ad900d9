//! A registry of sessions with a limit on each user's requests: four maps in one struct, which four workers write while a
//! janitor removes what has ended.
#![tactic(auto)]

mod janitor;
mod report;
mod service;
mod session_key;
mod workers;

use report::{Report, make_report};
use service::Service;
use std::rt::Runtime;
use std::sync::Wait;
use std::sync::atomic::AtomicU64;
use std::thread::Threads;
use std::{io, thread};
use tambyulo::PutError;

/// Runs the workers and the janitor side by side. Returns how many requests were allowed, and how many sessions were
/// removed.
fn serve<R: Runtime + AllocGlobal + Threads + Wait + Sync>(
    rt: &R,
    service: &Service,
) -> Result<(u64, u64), PutError> {
    let counter = AtomicU64::new(0);
    let finished = &counter;
    let (allowed, removed) = thread::join(
        rt,
        || workers::run_workers(rt, service, finished),
        || janitor::clean(rt, service, finished),
    );
    Ok((allowed?, removed?))
}

/// What the workers and the janitor did, and what they left.
#[derive(Drop)]
struct Outcome {
    allowed: u64,
    removed: u64,
    report: Report,
}

/// Serves all users, and reads what that left.
fn run<R: Runtime + AllocGlobal + Threads + Wait + Sync>(rt: &R) -> Result<Outcome, PutError> {
    let service = Service::new(rt)?;
    let (allowed, removed) = serve(rt, &service)?;
    let report = make_report(rt, &service)?;
    Ok(Outcome {
        allowed,
        removed,
        report,
    })
}

/// Prints the outcome.
fn print_outcome<R: Runtime>(rt: &R, outcome: &Outcome) -> io::Result<()> {
    let Outcome {
        allowed,
        removed,
        report,
    } = outcome;
    println!(rt;
        "the workers allowed {allowed} requests; {} are counted, and {} were too many",
        report.allowed, report.refused
    )?;
    println!(rt;
        "the janitor removed {removed} sessions; {} of {} users are left, and {} tokens",
        report.sessions, report.users, report.tokens
    )
}

fn main(rt: HostRuntime) -> io::Result<()> {
    match run(&rt) {
        Ok(outcome) => print_outcome(&rt, &outcome),
        Err(error) => println!(rt; "refused: {error}"),
    }
}
