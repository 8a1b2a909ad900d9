//! Times what one thread does with one map: filling it, reading in order, at random and by lists of keys, replacing,
//! the same on a heap that dropped maps have left, walking and cutting it, questions about all its pairs, merging,
//! snapshots and emptying it; and reports the memory of a pair. The keys are byte texts, or numbers of 64 bits. Keys and
//! values lie in the rows of the map, or behind handles.
//!
//! `trie_bench [rows | handles] [text PAIRS ROUNDS | u64 PAIRS ROUNDS]` (rows, and both over 1,000 pairs in one round, where
//! no words say else)
//! writes a line a measurement to standard error, `tambyulo NAME THREADS NANOSECONDS`, the best of the rounds, and
//! a checksum of each to standard output, which depends on the number of pairs alone.
#![tactic(auto)]

mod arguments;
mod asking;
mod lists;
mod maps;
mod memory;
mod numbers;
mod rounds;
mod run;
mod texts;
mod walks;
mod wholes;

use std::process::ExitCode;

fn main(rt: HostRuntime) -> ExitCode {
    match run::run(&rt) {
        Ok(()) => ExitCode::SUCCESS,
        Err(fault) => {
            let _ = rt.eprintln(format_args!("trie_bench: {fault}"));
            ExitCode::from(1)
        }
    }
}
