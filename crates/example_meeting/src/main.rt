//! Two seats that meet, so that what the second gets stands in the journal behind what the first put.
//!
//! What it prints is stored beside it. It fails, with status 1, where memory or the output does.
#![tactic(auto)]

mod fault;
mod meeting;
mod report;

use std::process::ExitCode;

fn main(rt: HostRuntime) -> ExitCode {
    match report::report(&rt) {
        Ok(()) => ExitCode::SUCCESS,
        Err(fault) => {
            let _ = rt.eprintln(format_args!("example_meeting: {fault}"));
            ExitCode::FAILURE
        }
    }
}
