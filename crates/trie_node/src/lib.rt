//! Shared nodes of a hash trie.
//!
//! A root is a finite map: `find` reads it, `with_put` and `with_removed` give the root of the
//! changed map and leave the old one as it was. They copy the nodes of one path and share all
//! others. `put_in` and `remove_in` change a root itself, and no other: they write the nodes that
//! nobody else holds where they stand, and copy the rest of the path. Which nodes a root has is a
//! function of its pairs; a write puts its stamp on the nodes of its key's path and on no other.
#![tactic(auto)]

mod exchange;
mod root_in_place;

pub use exchange::exchange_in_where_along;
pub use root_in_place::{
    put_in, put_in_where, put_in_where_along, remove_in, remove_in_where, remove_in_where_along,
};

// What a write or an exchange did, and what it found.
pub use trie_puts::{Change, Exchange};

// Writes by copies.
pub use trie_contraction::{removed_where, with_removed};
pub use trie_copy::{Written, put_where, with_put};

// The union of two maps.
pub use trie_merging::merged;

// Where keys and values lie.
pub use slots::{InPlace, Inline, KeySlots, KeysInPlace, Pair, Shared, Slots, ValueSlots};

// What a root is, for the crates above, which write and read by this crate alone.
pub use trie_shape::{
    Always, Condition, IfAbsent, IfEqual, IfPresent, Look, NoMemory, Node, Stamp,
    bitmap_counts_children, branch_is_its_children, child, empty_root, find, find_along,
    leaf_is_its_pairs, look, map_determines_root, map_names_nodes, root_has_few_nodes, root_is_map,
    root_walks_in_order, size, stamp, trie_follows_digits, union_of_maps, unions_of_maps,
    walk_lists_map, writes_keep_stamps_below,
};
