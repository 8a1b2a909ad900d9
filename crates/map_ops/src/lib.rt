//! The operations of Scala's `concurrent.Map` on one map.
//!
//! Each operation is one command of the table in `versions`' `specs/Commands.antt`: its reply describes the map before
//! it, and the map afterwards is the command's. An operation that changes nothing copies no node.
#![tactic(auto)]

mod along;
mod get_or_else;
mod puts;
mod removals;

pub use along::{
    put_along, put_if_absent_along, remove_along, remove_if_along, replace_along, replace_if_along,
};
pub use get_or_else::get_or_else_update;
pub use puts::{put, put_if_absent, replace, replace_if};
pub use removals::{remove, remove_if};
