//! Work-stealing deques under a rule: each item that was pushed is taken once or is returned at the end.
#![tactic(auto)]

mod closing;
mod ends;
mod opening;
mod rule;
mod sharing;
mod worker_ends;

pub use closing::close;
pub use ends::Deques;
pub use opening::{MOST_DEQUES, open_all};
pub use rule::{DequeRule, DequeView, Owner};
pub use sharing::share_out;
pub use worker_ends::WorkerEnds;
