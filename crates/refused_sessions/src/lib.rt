//! Callers of a session, of the stripes of its map, and of what tells its history. Each hands on a clause of the call that
//! it makes.
//!
//! No program calls them. The edits in `must-fail/` make of each a wrong body that its clause is to refuse. They stand here
//! since an edit costs the proof of its crate once more, and the crates below are large.
#![tactic(auto)]

mod locks;
mod moments;
mod removals;
mod tellings;

pub use locks::stripe_at;
pub use moments::moment;
pub use removals::removed;
pub use tellings::removal_told;
