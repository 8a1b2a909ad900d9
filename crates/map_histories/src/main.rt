//! Histories of the map that threads share, to be checked from outside: does each call take effect at one moment
//! between its begin and its end, as if one thread had made all calls one after another?
//!
//! The words are `SEED THREADS CALLS HISTORIES`. For each history a new map is shared by `THREADS` threads, each of
//! which makes `CALLS` calls on four keys that lie in stripes far from one another. Before and after each call the
//! thread takes a ticket from one counter, so that a call whose last ticket is below another's first one has ended
//! before the other began. A line a call goes to standard output once all threads have ended:
//! `HISTORY THREAD BEFORE AFTER CALL ARGUMENTS -> RESULT`.
//!
//! With no words it makes some histories and prints how many calls they have, which does not depend on the schedule.
#![tactic(auto)]

mod answer;
mod call;
mod caller;
mod draws;
mod fault;
mod history;
mod load;
mod make;
mod plan;
mod record;
mod run;
mod session_call;
mod start;
mod told;

use std::process::ExitCode;

fn main(rt: HostRuntime) -> ExitCode {
    match run::run(&rt) {
        Ok(()) => ExitCode::SUCCESS,
        Err(fault) => {
            let _ = rt.eprintln(format_args!("map_histories: {fault}"));
            ExitCode::FAILURE
        }
    }
}
