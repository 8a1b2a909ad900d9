//! Partial results of the workers of one call, and how they are gathered.
#![tactic(auto)]

mod gathered;
mod partial;
mod runs;
mod task;

pub use gathered::{Gathered, merge_all};
pub use partial::{OfBulk, Partial};
pub use task::{OfView, Task};
