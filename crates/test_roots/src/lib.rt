//! What tests of tries share: roots that are known to be ones, maps of one first digit each, and the nodes of a root as
//! plain values.
#![tactic(auto)]

mod outlines;
mod parts;
mod test_root;

pub use outlines::{Line, Outline, lines_of, outline_of};
pub use parts::{Gathered, Part, Whole};
pub use test_root::TestRoot;
