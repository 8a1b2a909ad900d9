//! What the benchmarks share: keys, where keys and values lie, times, and why a benchmark stops.
#![tactic(auto)]

mod best;
mod fault;
mod key_lists;
mod storage;
mod times;
mod words;

pub use best::{Best, show_checksum, show_figure};
pub use fault::Fault;
pub use key_lists::{copied, number_keys, plain_text_keys, shuffled, sought, text_key, text_keys};
pub use storage::{Storage, storage_of};
pub use times::{Spread, Times};
pub use words::{MOST_PAIRS_OF_A_BENCHMARK, number, words_of};
