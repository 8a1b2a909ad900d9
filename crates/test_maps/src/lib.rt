//! What the tests of maps of one owner share: maps as plain lists, whose contracts are the definitions, the nodes of a map,
//! or of a piece of a view, as plain values, and what calls on a map's root return.
#![tactic(auto)]

mod derived;
mod lists;
mod outlines;

pub use derived::{changed, found_in, passing};
pub use lists::{Pair, find_pair, put_pair, shared_pair, without_pair};
pub use outlines::{outline_of_map, outline_of_piece};
