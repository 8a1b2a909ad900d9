//! The root of the pairs of one first digit.
ghost use Rattle.std.specs.Prelude.{◌≡◌, ◌≤◌, ◌==◌, None, IfOk, if◌then◌else◌, length};
ghost use Rattle.hash_path.specs.Digits.{digit as digit_at};
ghost use Rattle.trie_shape.specs.Map.{value_at};
ghost use Rattle.trie_shape.specs.Roots.{IsRoot, map_of, word_of};
ghost use Rattle.trie_shape.specs.Shape.{NoneAbove, nodes};
ghost use Rattle.trie_shape.specs.View.{tree};

use crate::root_row::child_of;
use hash_path::{FAN_OUT, PathKey};
use slots::Slots;
use std::alloc::Global;
use trie_shape::{NoMemory, Node, Stamp, empty_root, make_branch, size};

/// The root of the pairs whose keys' path words have this first digit. It shares the child of the digit with the root that
/// it is a part of, where there is one, and no pair is looked at: one node is made.
///
/// No node of the root has a greater stamp than `newest`, which the new node has. The only error is `NoMemory`, if memory
/// runs out.
pub fn part_of_root<K: PathKey, V, S: Slots<K, V>>(
    alloc: Global,
    root: &Node<K, V, S>,
    digit: u32,
    newest: Stamp,
) -> Result<Node<K, V, S>, NoMemory>
where
    S::Key: Drop,
    S::Value: Drop,
    requires root { IsRoot K.cmp K.path_of (tree root.now) }
    requires newest { NoneAbove newest.0 (nodes (word_of K.path_of) (tree root.now)) }
    ensures root { IfOk result (λ part. IsRoot K.cmp K.path_of (tree part)) }
    ensures at_key { IfOk result (λ part. (key : K) → value_at K.cmp (map_of K.cmp (tree part)) key ≡ (if digit_at (K.path_of key) 0 == digit then value_at K.cmp (map_of K.cmp (tree root.now)) key else None)) }
    ensures few { IfOk result (λ part. length (map_of K.cmp (tree part)) ≤ length (map_of K.cmp (tree root.now))) }
    ensures newest { IfOk result (λ part. NoneAbove newest.0 (nodes (word_of K.path_of) (tree part))) }
{
    let Some(found) = child_of(root, digit) else {
        return empty_root(alloc, newest);
    };
    let child = found.try_clone()?;
    let pairs = size(&child);
    let mut children = [child];
    make_branch(alloc, newest, pairs, 1 << digit, &mut children)
}
