//! Views of a map that threads share: the map as it stood at one moment, and the questions that one asks it.
//!
//! A `View` never changes, and is read with no lock. It answers questions about all its pairs on the caller's thread, or
//! by a crew of threads. Each of its pairs keeps the rule of the map that it was taken of (`Keeps`).
#![tactic(auto)]

mod crew_finds;
mod crew_groups;
mod crew_making;
mod crew_questions;
mod finds;
mod keys_and_values;
mod questions;
mod shown;
mod view;

pub use keys_and_values::{Keys, Values};
pub use view::View;
