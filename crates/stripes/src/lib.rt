//! The stripes of a map that threads share: the pairs whose keys' path words have one first digit, each stripe under a
//! lock of its own.
//!
//! A `Stripes` has a `Stripe` under a lock for each first digit, and takes one of them or all.
#![tactic(auto)]

mod clearing;
mod counting;
mod following;
mod joining;
mod locks;
mod moment;
mod parting;
mod stripes;

pub use clearing::clear_all;
pub use following::Marking;
pub use joining::joined;
pub use parting::{exchange_all, joined_while_held, parted};
pub use stripes::{Guards, Stripes, empties, empty_maps, forks, told_empties};

// What lies under a lock.
pub use stripe::{Anything, EmptyMap, Keeps, MOST_PAIRS_OF_STRIPE, Marks, STRIPES, Stripe};
