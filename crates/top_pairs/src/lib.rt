//! The pairs of a map with the highest scores, as an operation that a crew can work.
//!
//! A closure scores each pair. The operation keeps as many pairs as are asked for, from the highest score down, and
//! needs no memory for the others.
#![tactic(auto)]

mod ranked;
mod scored;
mod top_pairs;

pub use ranked::Ranked;
pub use scored::Scored;
pub use top_pairs::TopPairs;
