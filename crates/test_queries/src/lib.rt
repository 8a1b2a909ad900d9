//! What the tests of several crates ask of whole maps from chosen keys to numbers: closures with what they mean.
#![tactic(auto)]

mod closures;

pub use closures::{Values, Zero, stored_values, stored_zero};
