//! The nodes that carry a stamp.

ghost use Rattle.std.specs.Prelude.{◌≡◌, ◌<◌, ◌^◌};
ghost use Rattle.trie_shape.specs.Counts.{node_count};
ghost use Rattle.trie_shape.specs.Shape.{Fits, nodes, own_count};
ghost use Rattle.trie_shape.specs.Roots.{IsRoot, word_of};
ghost use Rattle.trie_shape.specs.View.{tree};
ghost use Rattle.generation.specs.Owned.{own_below};

use hash_path::PathKey;
use trie_node::{
    Look, Node, Slots, Stamp, bitmap_counts_children, child, look, root_has_few_nodes, stamp,
};

/// How many nodes carry the stamp, from this node down. It walks over all of them and takes no memory.
///
/// Of a root these are all nodes of its map.
pub fn own_nodes<K: PathKey, V, S: Slots<K, V>>(node: &Node<K, V, S>, own: Stamp) -> u64
    requires fits { Fits (tree node.now) }
    requires few { node_count (tree node.now) < 2 ^ 64 }
    ensures below { result ≡ own_below own.0 (tree node.now) }
    ensures root { IsRoot K.cmp K.path_of (tree node.now) → result ≡ own_count own.0 (nodes (word_of K.path_of) (tree node.now)) }
{
    root_has_few_nodes::<K, V>();
    count_own(node, own)
}

/// The nodes of a subtrie that carry the stamp.
fn count_own<K, V, S: Slots<K, V>>(node: &Node<K, V, S>, own: Stamp) -> u64
    requires fits { Fits (tree node.now) }
    requires few { node_count (tree node.now) < 2 ^ 64 }
    ensures { result ≡ own_below own.0 (tree node.now) }
{
    let here = u64::from(stamp(node).0 == own.0);
    match look(node) {
        Look::Pairs(_) => here,
        Look::Branch(bitmap) => {
            bitmap_counts_children::<K, V>();
            let mut count = here;
            for n in 0..bitmap.count_ones() {
                count += count_own(child(node, n), own);
            }
            count
        }
    }
}
