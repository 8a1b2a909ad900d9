//! What a hash trie is: its nodes, the tree and the map that they stand for, and reading them.
//!
//! A root is a finite map: `find` reads it. `look`, `child`, `size` and `stamp` show a node from
//! outside. Which nodes a root has is a function of its pairs, and the laws say what follows from
//! that. The calls that make and change nodes are for the crates that write whole roots.
#![tactic(auto)]

mod bitmap;
mod branch_in_place;
mod condition;
mod contents;
mod copies;
mod growing;
mod laws;
mod looks;
mod no_memory;
mod node;
mod pairs;
mod reading;
mod rows;
mod search;
mod stamps;
mod union_laws;
mod vacant;
mod walk_laws;

pub use condition::{Always, Condition, IfAbsent, IfEqual, IfPresent};
pub use laws::{
    bitmap_counts_children, map_determines_root, map_names_nodes, root_has_few_nodes, root_is_map,
    root_walks_in_order, writes_keep_stamps_below,
};
pub use looks::Look;
pub use no_memory::NoMemory;
pub use node::Node;
pub use reading::{child, look, size, stamp};
pub use rows::empty_root;
pub use search::{find, find_along};
pub use stamps::Stamp;
pub use union_laws::{union_of_maps, unions_of_maps};
pub use walk_laws::{
    branch_is_its_children, leaf_is_its_pairs, trie_follows_digits, walk_lists_map,
};

// For the crates that write whole roots. None of them hands these on.
pub use bitmap::{has_digit, place};
pub use branch_in_place::gain_child;
pub use contents::{Branch, Contents, nth, open_node};
pub use copies::{with_child, with_more};
pub use growing::outgrow;
pub use node::{make_bucket, make_leaf};
pub use pairs::{find_pair, put_pair};
pub use rows::{branch_of_parts, make_branch};
