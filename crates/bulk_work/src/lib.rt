//! How an operation on whole maps is worked over the pieces of a view, and what of it a table may be asked.
//!
//! `work` makes the part of a piece for any operation (`combiner::Bulk`), and `work_into` grows a part by a piece. `Asks`
//! is such an operation whose part has an `Answer`.
#![tactic(auto)]

mod answering;
mod asks;
mod pairs;
mod walking;

pub use answering::ask;
pub use asks::{Answer, Asks};
pub use pairs::Pair;
pub use walking::{grow_in, work, work_in, work_into};
