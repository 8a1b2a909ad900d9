//! The maps that are live under numbers, each a version in the place of its number, and commands on one of them.
//!
//! Contracts see the map of each number, and not the places. A command has the meaning that Scala's `concurrent.Map`
//! gives it, is foreseen or made, and reports whether it left its map as it was.
#![tactic(auto)]

mod command;
mod limits;
mod places;
mod reply;

pub use command::Command;
pub use limits::{HANDLES, LAST_HANDLE};
pub use places::Places;
pub use reply::Reply;
