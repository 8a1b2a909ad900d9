//! What combines: items in any order, and the parts of an operation on a whole map.
//!
//! A `Monoid` combines items in any order. A `Bulk` is an operation on a whole map that is worked in parts: each part
//! answers a map of some of the pairs, and two parts of maps that share no key are joined to a part of both.
#![tactic(auto)]

mod both;
mod bulk;
mod bulk_in;
mod extremes;
mod laws;
mod merging;
mod monoid;
mod on_handles;
mod sum;

pub use both::Both;
pub use bulk::Bulk;
pub use bulk_in::BulkIn;
pub use extremes::{Greatest, Least};
pub use laws::{law_of_sums, law_of_sums_within};
pub use merging::merge;
pub use monoid::Monoid;
pub use on_handles::OnHandles;
pub use sum::Sum;
