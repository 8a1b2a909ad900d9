//! Walks from their beginning.

ghost use Rattle.std.specs.Prelude.{◌≡◌, IfOk};
ghost use Rattle.trie_shape.specs.Counts.{node_count};
ghost use Rattle.trie_shape.specs.Order.{walked};
ghost use Rattle.trie_shape.specs.Roots.{IsRoot, map_of};
ghost use Rattle.trie_shape.specs.Tree.{Tree};
ghost use Rattle.trie_shape.specs.View.{tree};

use crate::bunched::BunchedPairs;
use crate::walk::Pairs;
use hash_path::PathKey;
use std::alloc::Global;
use trie_node::{
    Look, NoMemory, Node, Slots, bitmap_counts_children, branch_is_its_children, look,
    map_determines_root, root_walks_in_order, size, trie_follows_digits,
};
use versions::{Version, View};

/// A walk over all pairs of the view, in order of position and, within one position, of key.
///
/// Cost: O(1), no lock, and O(n) for the walk. Refused: `NoMemory`, by its contract; the code never is.
pub fn pairs<K: PathKey, V, S: Slots<K, V>>(
    alloc: Global,
    view: &View<K, V, S>,
) -> Result<Pairs<'_, K, V, S>, NoMemory>
    ensures rest { IfOk result (λ walk. walk.rest ≡ walked K.cmp K.path_of view.now) }
    ensures nodes { IfOk result (λ walk. (t : Tree K V) → IsRoot K.cmp K.path_of t → map_of K.cmp t ≡ view.now → walk.nodes ≡ node_count t) }
{
    Ok(walk_of_root(alloc, view.root()))
}

/// A walk over all pairs of a version that nobody writes meanwhile, in the same order.
///
/// Cost: O(1), no lock, and O(n) for the walk. Refused: `NoMemory`, by its contract; the code never is.
pub fn pairs_of<K: PathKey, V, S: Slots<K, V>>(
    alloc: Global,
    version: &Version<K, V, S>,
) -> Result<Pairs<'_, K, V, S>, NoMemory>
where
    S::Key: Drop,
    S::Value: Drop,
    ensures rest { IfOk result (λ walk. walk.rest ≡ walked K.cmp K.path_of version.now.entries) }
    ensures nodes { IfOk result (λ walk. (t : Tree K V) → IsRoot K.cmp K.path_of t → map_of K.cmp t ≡ version.now.entries → walk.nodes ≡ node_count t) }
{
    Ok(walk_of_root(alloc, version.root()))
}

/// A walk over all pairs of a root, which enters all its nodes. It is never refused.
pub fn walk_of_root<K: PathKey, V, S: Slots<K, V>>(
    alloc: Global,
    root: &Node<K, V, S>,
) -> Pairs<'_, K, V, S>
    requires root { IsRoot K.cmp K.path_of (tree root.now) }
    ensures rest { result.rest ≡ walked K.cmp K.path_of (map_of K.cmp (tree root.now)) }
    ensures nodes { (t : Tree K V) → IsRoot K.cmp K.path_of t → map_of K.cmp t ≡ map_of K.cmp (tree root.now) → result.nodes ≡ node_count t }
{
    bitmap_counts_children::<K, V>();
    branch_is_its_children::<K, V>();
    map_determines_root::<K, V>();
    root_walks_in_order::<K, V>();
    trie_follows_digits::<K, V>();
    match look(root) {
        Look::Branch(bitmap) => { Pairs::below(alloc, root, 0, 0, bitmap.count_ones(), size(root)) }
        Look::Pairs(_) => unreachable!(),
    }
}

/// The same walk, which takes its pairs from the trie in bunches: for calls that mostly look at all of them.
pub fn bunches_of_root<K: PathKey, V, S: Slots<K, V>>(
    alloc: Global,
    root: &Node<K, V, S>,
) -> BunchedPairs<'_, K, V, S>
    requires { IsRoot K.cmp K.path_of (tree root.now) }
    ensures { result ≡ walked K.cmp K.path_of (map_of K.cmp (tree root.now)) }
{
    bitmap_counts_children::<K, V>();
    branch_is_its_children::<K, V>();
    root_walks_in_order::<K, V>();
    trie_follows_digits::<K, V>();
    match look(root) {
        Look::Branch(bitmap) => BunchedPairs::below(alloc, root, 0, 0, bitmap.count_ones()),
        Look::Pairs(_) => unreachable!(),
    }
}
