//! Two views of maps together: what both have, what one has alone, and what changed from one to the other.
#![tactic(auto)]

mod changes;
mod sets;

pub use changes::{Changes, changes_between};
pub use sets::{difference, intersection, union};
