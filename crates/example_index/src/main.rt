//! An index of words that two clients write, each on a thread of its own, while a third counts it as it stands.
//!
//! What it prints is stored beside it. It fails, with status 1, where memory or the output does.
#![tactic(auto)]

mod fault;
mod indexer;
mod tour;

use std::process::ExitCode;

fn main(rt: HostRuntime) -> ExitCode {
    match tour::tour(&rt) {
        Ok(()) => ExitCode::SUCCESS,
        Err(fault) => {
            let _ = rt.eprintln(format_args!("index: {fault}"));
            ExitCode::FAILURE
        }
    }
}
