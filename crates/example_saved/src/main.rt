//! A service whose maps are saved as lines of JSON while other threads write them, and loaded again.
#![tactic(auto)]

mod fault;
mod files;
mod line;
mod loading;
mod saving;
mod service;
mod texts;

use anyhow::Result;
use fault::LoadFault;
use service::{Account, Service, Snapshot};
use std::process::ExitCode;
use std::rt::Runtime;
use std::sync::Wait;
use std::thread::Threads;
use std::{env, thread};
use tambyulo::{ByteText, TrieMap, View};
use texts::{is_loaded, save_all};

/// How many users there are when the views are taken, and how many when all have been served.
const EARLY: u64 = 300;

const ALL: u64 = 900;

/// Saves the views while another thread serves the users that are left.
fn save_beside<R: AllocGlobal + Threads + Wait + Sync>(
    rt: &R,
    service: &Service,
    snapshot: &Snapshot,
) -> Result<Vec<Vec<u8>>> {
    let alloc = rt.alloc();
    let (texts, served) = thread::join(
        rt,
        || save_all(rt, snapshot),
        || service.serve(rt, alloc, EARLY, ALL),
    );
    served?;
    texts
}

/// Loads the lines of each map, and returns whether all are as in the snapshot.
fn are_loaded<R: AllocGlobal + Wait>(
    rt: &R,
    texts: &[Vec<u8>],
    snapshot: &Snapshot,
) -> Result<bool> {
    let [accounts, limits, statuses] = texts else {
        return Ok(false);
    };
    Ok(
        is_loaded(rt, accounts, &snapshot.accounts)?
            && is_loaded(rt, limits, &snapshot.limits)?
            && is_loaded(rt, statuses, &snapshot.statuses)?,
    )
}

/// Saves the accounts to the file that the first word of the command line names, if there is one, and loads them again.
fn print_file<R: Runtime + AllocGlobal + Wait>(
    rt: &R,
    view: &View<ByteText, Account>,
) -> Result<()> {
    let Some(path) = env::args(rt)?.nth(1) else {
        return Ok(());
    };
    files::save_file(rt, path.as_str(), view)?;
    let map: TrieMap<ByteText, Account> = files::load_file(rt, path.as_str())?;
    rt.println(format_args!("{} accounts in {path}", map.len(rt)))?;
    Ok(())
}

/// Loads accounts from this text, and prints how many there are, or why there are none.
fn print_load<R: Runtime + AllocGlobal + Wait>(rt: &R, text: &str) -> Result<()> {
    let mut reader = text.as_bytes();
    let loaded: Result<TrieMap<ByteText, Account>, LoadFault> = loading::load(rt, &mut reader);
    match loaded {
        Ok(map) => rt.println(format_args!("{} accounts", map.len(rt)))?,
        Err(fault) => rt.println(format_args!("{fault}"))?,
    }
    Ok(())
}

/// Loads texts that have a fault, and one that has none.
fn print_loads<R: Runtime + AllocGlobal + Wait>(rt: &R) -> Result<()> {
    let good =
        "[\"ann\",{\"owner\":\"Ann\",\"visits\":1}]\n[\"zoe\",{\"owner\":\"Zoe\",\"visits\":9}]\n";
    print_load(rt, good)?;
    for line in [
        "[\"bob\",{\"owner\":\"Bob\"}]",
        "[\"bob\",{\"owner\":\"Bob\",\"visits\":-1}]",
        "[\"bob\",{\"owner\":\"B",
        "bob",
        "[\"ann\",{\"owner\":\"Ann\",\"visits\":2}]",
    ] {
        let text = format!(in rt.alloc(); "{good}{line}\n")?;
        print_load(rt, text.as_str())?;
    }
    Ok(())
}

/// Fills the maps, saves and loads them, and prints what there is.
fn run<R: Runtime + AllocGlobal + Threads + Wait + Sync>(rt: &R) -> Result<()> {
    let service = Service::new(rt)?;
    service.serve(rt, rt.alloc(), 0, EARLY)?;
    let snapshot = service.snapshot(rt)?;
    let texts = save_beside(rt, &service, &snapshot)?;
    let same = are_loaded(rt, texts.as_slice(), &snapshot)?;
    rt.println(format_args!(
        "saved {} accounts, {} limits and {} statuses; loaded as they were: {same}",
        snapshot.accounts.len(),
        snapshot.limits.len(),
        snapshot.statuses.len()
    ))?;
    rt.println(format_args!("now {} accounts", service.accounts.len(rt)))?;
    print_loads(rt)?;
    print_file(rt, &snapshot.accounts)
}

fn main(rt: HostRuntime) -> ExitCode {
    match run(&rt) {
        Ok(()) => ExitCode::SUCCESS,
        Err(error) => {
            let _ = rt.eprintln(format_args!("saved: {error}"));
            ExitCode::FAILURE
        }
    }
}
