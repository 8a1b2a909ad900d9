//! Times what threads do with a map that they share: gets and puts of several threads at random keys and at one
//! key, views with nobody writing and while others write, calls on a table of maps and on the map that keeps a journal of
//! them, gets on views of that map while another thread writes it, questions that a crew of threads answers, and what a
//! put takes while a crew counts the map. The keys are byte texts.
//!
//! The words tell what is measured:
//!
//! - `mixed PAIRS ROUNDS`: nine gets for each put, by 1, 2 and 4 threads;
//! - `one_key PAIRS ROUNDS`: gets, copies and reads by readers, of one key of a map of `PAIRS` pairs, by 1, 2 and 4
//!   threads, and then puts of it by 1 and 4;
//! - `views PAIRS`: views with nobody writing, and while four threads write;
//! - `locked PAIRS ROUNDS`: calls on a table, on the map with a journal, and gets on views of it by 1, 2 and 4 threads;
//! - `crew PAIRS WORKERS`: each question, 15 rounds; a crew of no workers stands for the caller alone;
//! - `puts PAIRS`: 500,000 puts, first alone and then while a crew of four counts all pairs again and again.
//!
//! With no words it does them all: over 1,000 pairs in one round, and the last two over 10,000 pairs with a crew of four.
//! Keys and values lie in the rows of the map. With the word `handles` in front they lie behind handles, as those of
//! `locked` always do.
//!
//! A line a measurement goes to standard error, `tambyulo NAME THREADS NANOSECONDS`: the best of the rounds, but the
//! median where `views`, `crew` and `puts` have one, whose threads are then the crew's workers. A checksum of each goes
//! to standard output. It depends on the number of pairs alone.
#![tactic(auto)]

mod arguments;
mod asking;
mod calls;
mod locked;
mod maps;
mod mixed;
mod one_key;
mod puts;
mod questions;
mod reads;
mod run;
mod views;
mod visitor;

use std::process::ExitCode;

fn main(rt: HostRuntime) -> ExitCode {
    match run::run(&rt) {
        Ok(()) => ExitCode::SUCCESS,
        Err(fault) => {
            let _ = rt.eprintln(format_args!("shared_bench: {fault}"));
            ExitCode::from(1)
        }
    }
}
