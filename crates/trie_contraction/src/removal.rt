//! Roots with a pair removed.

ghost use Rattle.std.specs.Prelude.{ℕ, ◌≡◌, ◌&&◌, option_map, is_some, IfOk, OnErr, IfSome, None, true};
ghost use Rattle.trie_shape.specs.Map.{value_at, without};
ghost use Rattle.trie_shape.specs.Tree.{IsTrie, entries};
ghost use Rattle.trie_shape.specs.View.{tree, branch_of};
ghost use Rattle.trie_shape.specs.Inside.{lent};
ghost use Rattle.trie_shape.specs.Roots.{IsRoot, map_of, word_of};
ghost use Rattle.trie_shape.specs.Shape.{nodes, Restamps};
ghost use Rattle.trie_copy.specs.Changes.{IsRemoval};
ghost use Rattle.trie_copy.specs.Removals.{Removes, is_removable};

use crate::contraction::{with_rest, without_rest};
use hash_path::{Path, PathKey, Sought};
use slots::Slots;
use std::alloc::Global;
use trie_copy::{Removal, Written, take_pair};
use trie_shape::{
    Always, Branch, Condition, Contents, NoMemory, Node, Stamp, has_digit, nth, open_node, place,
};

/// The removal of the key from a branch that stands at the level.
#[cycle(removal)]
fn remove_below<'a, K: PathKey, V, S: Slots<K, V>, Q: Sought<K>, C: Condition<V>>(
    alloc: Global,
    below: Branch<'a, K, V, S>,
    key: Q,
    path: Path,
    stamp: Stamp,
    level: u32,
    condition: &C,
) -> Result<Removal<'a, K, V, S>, NoMemory>
where
    S::Key: Drop,
    S::Value: Drop,
    requires path { path.0 ≡ K.path_of (Q.key_of key) }
    requires trie { IsTrie K.cmp K.path_of level (branch_of 0 (lent below)) }
    ensures due { OnErr result (is_removable K.cmp (Q.key_of key) (C.holds condition.now) (entries (branch_of 0 (lent below.entry))) ≡ true) }
    ensures ok { IfOk result (λ r. (before : ℕ) → Removes K.cmp K.path_of level stamp.0 (Q.key_of key) (C.holds condition.now) (branch_of before (lent below.entry)) r) }
{
    let digit = path.digit(level);
    if !has_digit(below.bitmap, digit) {
        return Ok(Removal::Nothing(None));
    }
    let at = place(below.bitmap, digit);
    let child = nth(below.children, at);
    match remove_at(alloc, child, key, path, stamp, level + 1, condition)? {
        Removal::Nothing(found) => Ok(Removal::Nothing(found)),
        Removal::Gone(pair) => {
            let rest = without_rest(alloc, stamp, below, digit, at, level)?;
            Ok(Removal::Left(rest, pair))
        }
        Removal::Left(child, pair) => {
            let rest = with_rest(alloc, stamp, below, at, child, level)?;
            Ok(Removal::Left(rest, pair))
        }
    }
}

/// The removal of the key from a node that stands at the level. Nodes are copied only where a pair
/// is removed.
#[cycle(removal)]
pub fn remove_at<'a, K: PathKey, V, S: Slots<K, V>, Q: Sought<K>, C: Condition<V>>(
    alloc: Global,
    node: &'a Node<K, V, S>,
    key: Q,
    path: Path,
    stamp: Stamp,
    level: u32,
    condition: &C,
) -> Result<Removal<'a, K, V, S>, NoMemory>
where
    S::Key: Drop,
    S::Value: Drop,
    requires path { path.0 ≡ K.path_of (Q.key_of key) }
    requires trie { IsTrie K.cmp K.path_of level (tree node.now) }
    ensures due { OnErr result (is_removable K.cmp (Q.key_of key) (C.holds condition.now) (entries (tree node.now)) ≡ true) }
    ensures ok { IfOk result (λ r. Removes K.cmp K.path_of level stamp.0 (Q.key_of key) (C.holds condition.now) (tree node.now) r) }
{
    match open_node(node) {
        Contents::Branch(below) => remove_below(alloc, below, key, path, stamp, level, condition),
        Contents::Pairs(pairs) => take_pair(alloc, pairs, key, stamp, condition),
    }
}

/// A root without the key, where the key is there and the condition holds of its value.
/// The old root is unchanged. Where nothing is to be removed, no node is copied.
pub fn removed_where<'a, K: PathKey, V, S: Slots<K, V>, Q: Sought<K>, C: Condition<V>>(
    alloc: Global,
    node: &'a Node<K, V, S>,
    key: Q,
    stamp: Stamp,
    condition: &C,
) -> Result<Written<'a, K, V, S>, NoMemory>
where
    S::Key: Drop,
    S::Value: Drop,
    requires root { IsRoot K.cmp K.path_of (tree node.now) }
    ensures previous { IfOk result (λ w. option_map (λ p. p.now.1) w.previous ≡ value_at K.cmp (map_of K.cmp (tree node.now)) (Q.key_of key)) }
    ensures written { IfOk result (λ w. is_some w.root ≡ (is_some (value_at K.cmp (map_of K.cmp (tree node.now)) (Q.key_of key)) && C.holds condition.now (value_at K.cmp (map_of K.cmp (tree node.now)) (Q.key_of key)))) }
    // Memory is requested only where a pair is to be removed.
    ensures due { OnErr result ((is_some (value_at K.cmp (map_of K.cmp (tree node.now)) (Q.key_of key)) && C.holds condition.now (value_at K.cmp (map_of K.cmp (tree node.now)) (Q.key_of key))) ≡ true) }
    ensures removed { IfOk result (λ w. IfSome w.root (λ n. IsRemoval K.cmp K.path_of stamp.0 (Q.key_of key) (tree node.now) (tree n))) }
{
    match remove_at(alloc, node, key, key.path_sought(), stamp, 0, condition)? {
        Removal::Nothing(previous) => Ok(Written {
            root: None,
            previous,
        }),
        Removal::Gone(_) => unreachable!(),
        Removal::Left(root, pair) => Ok(Written {
            root: Some(root),
            previous: Some(pair),
        }),
    }
}

/// A root without the key: another handle on the old root where the key is absent.
/// The old root is unchanged.
pub fn with_removed<K: PathKey, V, S: Slots<K, V>, Q: Sought<K>>(
    alloc: Global,
    node: &Node<K, V, S>,
    key: Q,
    stamp: Stamp,
) -> Result<Node<K, V, S>, NoMemory>
where
    S::Key: Drop,
    S::Value: Drop,
    requires root { IsRoot K.cmp K.path_of (tree node.now) }
    ensures root { IfOk result (λ n. IsRoot K.cmp K.path_of (tree n)) }
    ensures map { IfOk result (λ n. map_of K.cmp (tree n) ≡ without K.cmp (map_of K.cmp (tree node.now)) (Q.key_of key)) }

    // The nodes of the key's path get the stamp, where the key is there. Else no node changes.
    ensures stamps { IfOk result (λ n. is_some (value_at K.cmp (map_of K.cmp (tree node.now)) (Q.key_of key)) ≡ true → Restamps stamp.0 (word_of K.path_of (Q.key_of key)) (nodes (word_of K.path_of) (tree node.now)) (nodes (word_of K.path_of) (tree n))) }
    ensures absent { IfOk result (λ n. value_at K.cmp (map_of K.cmp (tree node.now)) (Q.key_of key) ≡ None → tree n ≡ tree node.now) }
{
    match removed_where(alloc, node, key, stamp, &Always)?.root {
        Some(root) => Ok(root),
        None => node.try_clone(),
    }
}
