//! One stripe of a map that threads share: the pairs whose keys' path words have one first digit.
//!
//! A `Stripe` is a map of one owner, whose contracts are exact. Each of its pairs keeps a rule of the user's (`Keeps`), or
//! `Anything`.
#![tactic(auto)]

mod empty_map;
mod keeps;
mod marks;
mod stripe;

pub use empty_map::EmptyMap;
pub use keeps::{Anything, Keeps};
pub use marks::Marks;
pub use stripe::{MOST_PAIRS_OF_STRIPE, STRIPES, Stripe};
