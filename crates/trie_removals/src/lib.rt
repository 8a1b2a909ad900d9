//! Removals from a hash trie where its nodes stand.
//!
//! `remove_in_at` removes a key below a node of any level: a node that nobody else holds is written where it stands, and
//! the rest of the key's path is copied by `trie_copy`. `trie_node` has the removals from a root.
#![tactic(auto)]

mod bucket_removals;
mod copied_removal;
mod removal_in_place;

pub use removal_in_place::{RemovedIn, remove_in_at};
