//! How many histories are made, and how long they are.

use crate::fault::Fault;
use std::env;
use std::rt::Runtime;

/// What the program is given.
const USAGE: &str =
    "map_histories [SEED THREADS CALLS HISTORIES], THREADS and CALLS from 1 to 16, HISTORIES from 1 to 1000000";

/// The most threads of a history, and the most calls of a thread.
const MOST_THREADS: u64 = 16;

const MOST_CALLS: u64 = 16;

const MOST_HISTORIES: u64 = 1_000_000;

/// How many histories are made, from which seed on, and how many threads make how many calls each.
#[derive(Clone, Copy)]
pub struct Load {
    pub seed: u64,
    pub threads: u64,
    pub calls: u64,
    pub histories: u64,
}

/// What is made where no words are given.
pub const USUAL: Load = Load {
    seed: 1,
    threads: 4,
    calls: 8,
    histories: 20,
};

/// What the words after the program's name ask for, none where there are none.
pub fn load_of<R: Runtime + AllocGlobal>(rt: &R) -> Result<Option<Load>, Fault> {
    let words: Vec<String> = env::args(rt)?.skip(1).collect(rt.alloc())?;
    match words.as_slice() {
        [] => Ok(None),
        [seed, threads, calls, histories] => match load_in(seed, threads, calls, histories) {
            Some(load) => Ok(Some(load)),
            None => Err(Fault::Usage(USAGE)),
        },
        _ => Err(Fault::Usage(USAGE)),
    }
}

/// The load that these words give, if each is a number within its limits.
fn load_in(seed: &str, threads: &str, calls: &str, histories: &str) -> Option<Load> {
    Some(Load {
        seed: number(seed, 0, u64::MAX)?,
        threads: number(threads, 1, MOST_THREADS)?,
        calls: number(calls, 1, MOST_CALLS)?,
        histories: number(histories, 1, MOST_HISTORIES)?,
    })
}

/// The number that the word spells, none where it spells none from `least` to `most`.
fn number(word: &str, least: u64, most: u64) -> Option<u64> {
    match word.parse::<u64>() {
        Ok(number) if least <= number && number <= most => Some(number),
        _ => None,
    }
}
