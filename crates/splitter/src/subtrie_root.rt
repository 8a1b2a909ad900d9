//! Subtries below a root of their own.

ghost use Rattle.std.specs.Prelude.{◌≡◌, ◌*◌, ◌%◌, ◌^◌, ◌<◌, ◌≤◌, All, IfOk, length};
ghost use Rattle.hash_path.specs.Digits.{digits_after, fan_out, last_level, lowest};
ghost use Rattle.trie_shape.specs.Shape.{Fits};
ghost use Rattle.trie_shape.specs.Tree.{HasTwoWords, IsTrie, branch, entries, more_trees, no_trees};
ghost use Rattle.trie_shape.specs.View.{tree};

use crate::digits::shared_digit;
use hash_path::{PathKey, Word};
use std::alloc::Global;
use trie_node::{NoMemory, Node, Slots, Stamp, size, trie_follows_digits};
use trie_shape::make_branch;

/// A branch of one child, which has the digit.
pub(crate) fn branch_above<K, V, S: Slots<K, V>>(
    alloc: Global,
    node: Node<K, V, S>,
    digit: u32,
) -> Result<Node<K, V, S>, NoMemory>
where
    S::Key: Drop,
    S::Value: Drop,
    requires fits { Fits (tree node) }
    requires digit { digit < fan_out }
    ensures { IfOk result (λ n. tree n ≡ branch Stamp.LOOSE.0 (length (entries (tree node))) (1 * 2 ^ digit % 2 ^ 32) (more_trees (tree node) no_trees)) }
{
    let count = size(&node);
    let mut row = Vec::with_capacity(alloc, 1)?;
    row.push(node)?;
    make_branch(alloc, Stamp::LOOSE, count, 1 << digit, row.as_mut_slice())
}

/// The root of the pairs of a subtrie of two words or more: a branch of one child for each level above, by the digits
/// that all words share. `base` is the least position with these.
pub(crate) fn root_of_subtrie<K: PathKey, V, S: Slots<K, V>>(
    alloc: Global,
    node: Node<K, V, S>,
    level: u32,
    base: Word,
) -> Result<Node<K, V, S>, NoMemory>
where
    S::Key: Drop,
    S::Value: Drop,
    requires trie { IsTrie K.cmp K.path_of level (tree node) }
    requires level { level ≤ last_level }
    requires two { 0 < level → HasTwoWords K.cmp K.path_of (entries (tree node)) }
    requires shared { All (λ e. lowest (digits_after 0 level (K.path_of e.0)) ≡ base) (entries (tree node)) }
    ensures { IfOk result (λ n. IsTrie K.cmp K.path_of 0 (tree n) × (entries (tree n) ≡ entries (tree node))) }
{
    trie_follows_digits::<K, V>();
    let mut root = node;
    let mut at = level;
    while at > 0 {
        at -= 1;
        root = branch_above(alloc, root, shared_digit(base, at))?;
    }
    Ok(root)
}
