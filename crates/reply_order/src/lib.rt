//! The replies of all lines of a script, from those of each client.
#![tactic(auto)]

mod order;

pub use order::{all_of, replies_in_order};
