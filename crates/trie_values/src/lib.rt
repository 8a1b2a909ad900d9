//! Maps with new values, made by the shape of another.
//!
//! Which nodes a root has follows from its keys alone. So the root of a map with the same keys and new values is made
//! branch by branch, with no hash, no comparison of keys and no way down from the root.
#![tactic(auto)]

mod mapping;

pub use mapping::with_new_values;
