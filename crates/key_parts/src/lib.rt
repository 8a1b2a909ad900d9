//! Look-ups by the parts of a compound key, with no key made of them.
#![tactic(auto)]

mod parts;

pub use parts::{Parts, ThreeParts};
