//! Puts into a hash trie by copies, and leaves and buckets without one of their pairs.
//!
//! `with_put` returns the root of the changed map and leaves the old one as it was. It copies the nodes of one path and
//! shares all others. Which nodes a root has is a function of its pairs; a write puts its stamp on the nodes of its key's
//! path and on no other. `trie_puts` writes nodes where they stand, and copies by this crate where somebody else holds
//! them.
#![tactic(auto)]

mod condition;
mod pair_removal;
mod put;
mod removal_outcome;

pub use condition::{holds_of, holds_of_absent};
pub use pair_removal::{place_of, take_pair};
pub use put::{NewPair, Written, put_at, put_where, with_put};
pub use removal_outcome::Removal;
