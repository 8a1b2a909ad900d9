//! Reads that go ahead of writes of several keys.
//!
//! A write goes down by one node a level, and waits for memory at each. Here the ways of several path words go down side
//! by side, all of them by a level before any goes down by the next, and read what their writes will look at. The reads
//! change nothing, and do not wait for one another.
#![tactic(auto)]

mod ways;

pub use ways::{AT_ONCE, Way, Ways, read_ahead};
