//! A map that threads share, with a limit of pairs: `BoundedMap`, a `TrieMap` and the number of its free places.
#![tactic(auto)]

mod bounded_map;
mod places;

pub use bounded_map::BoundedMap;
