//! A registry of services: how the library is used, from one map to a table of maps.
//!
//! What it prints is stored beside it. It fails, with status 1, where memory or the output does.
#![tactic(auto)]

mod endpoint;
mod maps;
mod tables;

use std::process::ExitCode;

fn main(rt: HostRuntime) -> ExitCode {
    match maps::tour(&rt).and_then(|()| tables::tour(&rt)) {
        Ok(()) => ExitCode::SUCCESS,
        Err(error) => {
            let _ = rt.eprintln(format_args!("registry: {error}"));
            ExitCode::FAILURE
        }
    }
}
