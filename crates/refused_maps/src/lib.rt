//! Callers of writes of one map, of the cut of a piece, and of the root of several maps. Each hands on a clause of the call
//! that it makes.
//!
//! No program calls them. The edits in `must-fail/` make of each the wrong bodies that its clause is to refuse. They stand
//! here since an edit costs the proof of its crate once more, and the crates below are large.
#![tactic(auto)]

mod cuts;
mod roots;
mod writes;

pub use cuts::halves;
pub use roots::with_root;
pub use writes::{put, removed, replaced_if};
