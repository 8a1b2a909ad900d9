//! Removals from a hash trie by copies, and branches that lose a pair.
//!
//! `with_removed` returns the root of the map without a key and leaves the old one as it was. It copies the nodes of one
//! path and shares all others. Below the root, a branch whose only child is a leaf or bucket gives way to it: that is a
//! contraction, of the copies here and of the rows that `trie_removals` writes where they stand.
#![tactic(auto)]

mod contraction;
mod losses;
mod removal;

pub use losses::{count_out, lose_child};
pub use removal::{remove_at, removed_where, with_removed};
