//! A cache that four threads share: each asks for what it needs, which is worked out once and kept; a snapshot is
//! counted while they write; and old entries are filtered out.
//!
//! What it prints is stored beside it. It fails, with status 1, where memory or the output does.
#![tactic(auto)]

mod ages;
mod cached_ending;
mod lookups;
mod tour;

use std::process::ExitCode;

fn main(rt: HostRuntime) -> ExitCode {
    match tour::tour(&rt) {
        Ok(()) => ExitCode::SUCCESS,
        Err(error) => {
            let _ = rt.eprintln(format_args!("cache: {error}"));
            ExitCode::FAILURE
        }
    }
}
