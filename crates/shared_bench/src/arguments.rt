//! The words after the program's name.

use bench_kit::{Fault, MOST_PAIRS_OF_A_BENCHMARK, number};

/// How the program is called.
const USAGE: &str =
    "shared_bench [rows | handles] [mixed PAIRS ROUNDS | one_key PAIRS ROUNDS | views PAIRS | locked PAIRS ROUNDS | crew PAIRS WORKERS | puts PAIRS], PAIRS from 1 to 10000000, ROUNDS from 1, WORKERS from 0 to 16";

/// The most workers of a crew.
const MOST_WORKERS: u32 = 16;

/// How many pairs a map has, and how often each measurement is made.
#[derive(Clone, Copy)]
pub struct Load {
    pub pairs: u32,
    pub rounds: u32,
}

/// What is measured.
#[derive(Clone, Copy)]
pub enum Part {
    /// Gets and puts at random keys.
    Mixed(Load),
    /// Reads and puts of one key.
    OneKey(Load),
    /// Views of a map of `pairs` pairs.
    Views { pairs: u32 },
    /// Calls on the map with a journal, and gets on views of it.
    Locked(Load),
    /// Questions by a crew of `workers` workers. No workers stand for the caller alone.
    Crew { pairs: u32, workers: u32 },
    /// Puts, alone and beside a crew.
    Puts { pairs: u32 },
}

/// The parts that are measured where no words tell one.
pub const ALL: [Part; 6] = [
    Part::Mixed(USUAL),
    Part::OneKey(USUAL),
    Part::Views { pairs: 1000 },
    Part::Locked(USUAL),
    Part::Crew {
        pairs: 10_000,
        workers: 4,
    },
    Part::Puts { pairs: 10_000 },
];

const USUAL: Load = Load {
    pairs: 1000,
    rounds: 1,
};

/// The part that the words tell, none where there are none.
pub fn part_of(words: &[String]) -> Result<Option<Part>, Fault> {
    let part = match words {
        [] => return Ok(None),
        [name, pairs] => part_of_pairs(name, pairs),
        [name, pairs, count] => part_of_two(name, pairs, count),
        _ => None,
    };
    match part {
        Some(part) => Ok(Some(part)),
        None => Err(Fault::Usage(USAGE)),
    }
}

/// The part of this name that takes a number of pairs.
fn part_of_pairs(name: &str, pairs: &str) -> Option<Part> {
    let pairs = number(pairs, 1, MOST_PAIRS_OF_A_BENCHMARK)?;
    match name {
        "views" => Some(Part::Views { pairs }),
        "puts" => Some(Part::Puts { pairs }),
        _ => None,
    }
}

/// The part of this name that takes a number of pairs, and one of rounds or workers.
fn part_of_two(name: &str, pairs: &str, count: &str) -> Option<Part> {
    let pairs = number(pairs, 1, MOST_PAIRS_OF_A_BENCHMARK)?;
    if name == "crew" {
        let workers = number(count, 0, MOST_WORKERS)?;
        return Some(Part::Crew { pairs, workers });
    }
    let rounds = number(count, 1, u32::MAX)?;
    let load = Load { pairs, rounds };
    match name {
        "mixed" => Some(Part::Mixed(load)),
        "one_key" => Some(Part::OneKey(load)),
        "locked" => Some(Part::Locked(load)),
        _ => None,
    }
}
