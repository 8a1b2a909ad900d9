//! Walks over the pairs of a view, and parts of a map by intervals of positions.
#![tactic(auto)]

mod ahead;
mod bunch;
mod bunched;
mod children;
mod interval;
mod laws;
mod start;
mod unread_pairs;
mod walk;

pub use bunched::BunchedPairs;
pub use interval::Interval;
pub use laws::{intervals_tile, parts_follow_intervals};
pub use start::{bunches_of_root, pairs, pairs_of, walk_of_root};
pub use walk::Pairs;
