//! Reads ahead of use: what a call will look at in a subtrie comes from memory together.
//!
//! The reads change nothing: the processor fetches what is read, and goes on meanwhile. A write to the count of a
//! handle waits for the one before it, and a walk that stops at each pair waits for one pair after another. Reads of
//! the counts do not wait for one another, so they go first.
#![tactic(auto)]

mod fetches;
mod leaves;
mod levels;

pub use fetches::{Fetches, Keys, KeysAndValues, Values};
pub use leaves::fetch_leaves;
pub use levels::fetch_levels;
