//! Puts into a hash trie where its nodes stand.
//!
//! `put_in_at` puts a pair below a node of any level: a node that nobody else holds is written where it stands, and the
//! rest of the key's path is copied by `trie_copy`. `exchange_at` exchanges the value of a key that is there, and
//! requests no memory. `trie_node` has the puts into a root.
#![tactic(auto)]

mod bucket_puts;
mod change;
mod copied_put;
mod exchange;
mod leaf_puts;
mod put_in_place;

pub use change::Change;
pub use exchange::{Exchange, exchange_at};
pub use put_in_place::put_in_at;
