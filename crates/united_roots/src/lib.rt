//! One root for maps whose keys' path words have one first digit each, and the root of one of them out of it.
//!
//! The root of such a map is a branch with at most one child. The root of all of them together has these children: it
//! is made at once, and nothing below it is looked at. So it is taken apart again.
#![tactic(auto)]

mod parts;
mod root_row;

pub use parts::part_of_root;
pub use root_row::RootRow;
