//! The words after a program's name.

use crate::fault::Fault;
use std::env;
use std::rt::Runtime;

/// The most pairs that a map of a benchmark gets. A map that threads share would hold some more, as long as none of its
/// stripes is full.
pub const MOST_PAIRS_OF_A_BENCHMARK: u32 = 10_000_000;

/// The words after the program's name.
pub fn words_of<R: Runtime + AllocGlobal>(rt: &R) -> Result<Vec<String>, Fault> {
    Ok(env::args(rt)?.skip(1).collect(rt.alloc())?)
}

/// The number that the word spells, or `None` where it spells none from `least` to `most`.
pub fn number(word: &str, least: u32, most: u32) -> Option<u32> {
    match word.parse::<u32>() {
        Ok(number) if least <= number && number <= most => Some(number),
        _ => None,
    }
}
