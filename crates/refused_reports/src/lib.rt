//! Callers of a crew, and of what its workers leave. Each hands on a clause of the call that it makes.
//!
//! No program calls them. The edits in `must-fail/` make of each the wrong bodies that its clause is to refuse. They stand
//! here since an edit costs the proof of its crate once more, and the crates below are large.
#![tactic(auto)]

mod leftovers;
mod reports;

pub use leftovers::left_over;
pub use reports::reported;
