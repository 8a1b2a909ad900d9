//! Maps of the pairs that pass a test, made by the shape of another.
//!
//! Which nodes a root has follows from its keys alone. A key that stays stands where it stood, or above that where
//! others are gone. So the root of a map with fewer pairs is made branch by branch, with no hash, no comparison of
//! keys and no way down from the root.
#![tactic(auto)]

mod bitmaps;
mod few;
mod new_branch;
mod passing;

pub use passing::with_passing;
