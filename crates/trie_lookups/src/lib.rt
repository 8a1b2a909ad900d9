//! Look-ups of several keys in one trie, side by side.
//!
//! A look-up reads one node a level, and where that node lies is known only when the one above it has been read. So
//! at each level it waits for memory. The look-ups of other keys do not wait for it: here several go down at a time,
//! all of them by a level before any goes down by the next, so that their reads are under way together.
#![tactic(auto)]

mod many;
mod step;
mod way;

pub use many::find_many;
