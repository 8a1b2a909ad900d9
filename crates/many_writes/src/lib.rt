//! Writes of many keys of a map that threads share, the keys of one stripe under one lock.
//!
//! Each key is hashed once, before any stripe is locked. Then the stripes are locked one at a time, each as its first key
//! comes up in the list, and what is to be written to it is written in the order of the list. No value is dropped under
//! a lock.
#![tactic(auto)]

mod ahead;
mod order;
mod puts;
mod refused;
mod removals;
mod room;
mod turn;

pub use puts::put_each;
pub use refused::Unput;
pub use removals::remove_each;
