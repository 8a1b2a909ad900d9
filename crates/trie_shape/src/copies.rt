//! Copies of a branch with one child changed.

ghost use Rattle.std.specs.Prelude.{◌≡◌, ◌<◌, ◌≤◌, suc, IfOk, length, map, slice_set as set};
ghost use Rattle.std.specs.Int.RustNames.{count_ones};
ghost use Rattle.std.specs.List.{insert};
ghost use Rattle.trie_shape.specs.Tree.{branch, trees};
ghost use Rattle.trie_shape.specs.View.{tree};

use crate::no_memory::NoMemory;
use crate::node::Node;
use crate::rows::branch_of_parts;
use crate::stamps::Stamp;
use slots::Slots;
use std::alloc::Global;

/// A branch with one child replaced. For the crates that write whole roots.
pub fn with_child<K, V, S: Slots<K, V>>(
    alloc: Global,
    stamp: Stamp,
    size: u64,
    bitmap: u32,
    children: &[Node<K, V, S>],
    at: usize,
    child: Node<K, V, S>,
) -> Result<Node<K, V, S>, NoMemory>
where
    S::Key: Drop,
    S::Value: Drop,
    requires at { at < length children.now }
    requires count { length children.now ≡ count_ones bitmap }
    ensures { IfOk result (λ n. tree n ≡ branch stamp.0 size bitmap (trees (set (map tree children.now) at (tree child)))) }
{
    let (front, back) = (&children[..at], &children[at + 1..]);
    let mut middle = [child];
    branch_of_parts(alloc, stamp, size, bitmap, front, &mut middle, back)
}

/// A branch with one more child. For the crates that write whole roots.
pub fn with_more<K, V, S: Slots<K, V>>(
    alloc: Global,
    stamp: Stamp,
    size: u64,
    bitmap: u32,
    children: &[Node<K, V, S>],
    at: usize,
    child: Node<K, V, S>,
) -> Result<Node<K, V, S>, NoMemory>
where
    S::Key: Drop,
    S::Value: Drop,
    requires at { at ≤ length children.now }
    requires count { suc (length children.now) ≡ count_ones bitmap }
    ensures { IfOk result (λ n. tree n ≡ branch stamp.0 size bitmap (trees (insert (map tree children.now) at (tree child)))) }
{
    let (front, back) = (&children[..at], &children[at..]);
    let mut middle = [child];
    branch_of_parts(alloc, stamp, size, bitmap, front, &mut middle, back)
}
