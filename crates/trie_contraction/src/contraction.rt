//! Copies of branches that have lost a pair, drawn up where one leaf or bucket is left.

ghost use Rattle.std.specs.Prelude.{◌≡◌, ◌==◌, ◌<◌, ◌-◌, ◌*◌, ◌%◌, ◌^◌, true, IfOk, length, map, bit_and, slice_set as set};
ghost use Rattle.std.specs.Int.{bit_at, bit_not, w32};
ghost use Rattle.std.specs.Int.RustNames.{count_ones};
ghost use Rattle.std.specs.List.{remove};
ghost use Rattle.hash_path.specs.Digits.{fan_out};
ghost use Rattle.trie_shape.specs.Tree.{branch, trees};
ghost use Rattle.trie_shape.specs.View.{tree};
ghost use Rattle.trie_shape.specs.Drawn.{is_bucket, drawn_up};

use slots::Slots;
use std::alloc::Global;
use trie_shape::{Branch, NoMemory, Node, Stamp, branch_of_parts, nth, with_child};

/// Whether a node is a leaf or a bucket.
pub(crate) fn is_pairs<K, V, S: Slots<K, V>>(node: &Node<K, V, S>) -> bool
    ensures { result ≡ is_bucket (tree node.now) }
{
    match node {
        Node::Vacant | Node::Leaf { .. } | Node::Bucket { .. } => true,
        _ => false,
    }
}

/// A branch with one child replaced by what is left of it. Below the root, an only child that is a
/// leaf or bucket takes the branch's place.
pub(crate) fn with_rest<K, V, S: Slots<K, V>>(
    alloc: Global,
    stamp: Stamp,
    old: Branch<'_, K, V, S>,
    at: usize,
    child: Node<K, V, S>,
    level: u32,
) -> Result<Node<K, V, S>, NoMemory>
where
    S::Key: Drop,
    S::Value: Drop,
    requires at { at < length old.children.now }
    requires size { 0 < old.size }
    requires count { length old.children.now ≡ count_ones old.bitmap }
    ensures { IfOk result (λ n. tree n ≡ drawn_up level (branch stamp.0 (old.entry.size - 1) old.entry.bitmap (trees (set (map tree old.entry.children.now) at (tree child))))) }
{
    if level > 0 && old.children.len() == 1 && is_pairs(&child) {
        return Ok(child);
    }
    let left = old.size - 1;
    with_child(alloc, stamp, left, old.bitmap, old.children, at, child)
}

/// A branch without its child of a digit, which stands at a place.
fn without_child<K, V, S: Slots<K, V>>(
    alloc: Global,
    stamp: Stamp,
    old: Branch<'_, K, V, S>,
    digit: u32,
    at: usize,
) -> Result<Node<K, V, S>, NoMemory>
where
    S::Key: Drop,
    S::Value: Drop,
    requires digit { digit < fan_out }
    requires has { (bit_at old.bitmap digit == 1) ≡ true }
    requires at { at < length old.children.now }
    requires size { 0 < old.size }
    requires count { length old.children.now ≡ count_ones old.bitmap }
    ensures { IfOk result (λ n. tree n ≡ branch stamp.0 (old.entry.size - 1) (bit_and old.entry.bitmap (bit_not w32 (1 * 2 ^ digit % 2 ^ 32))) (trees (remove (map tree old.entry.children.now) at))) }
{
    let children = old.children;
    let (front, back) = (&children[..at], &children[at + 1..]);
    let size = old.size - 1;
    let bitmap = old.bitmap & !(1 << digit);
    let mut none = [];
    branch_of_parts(alloc, stamp, size, bitmap, front, &mut none, back)
}

/// A branch without its child of a digit, which stands at a place. Below the root, an only child
/// that is left and is a leaf or bucket takes the branch's place: the same node, with the stamp
/// that it has.
pub(crate) fn without_rest<K, V, S: Slots<K, V>>(
    alloc: Global,
    stamp: Stamp,
    old: Branch<'_, K, V, S>,
    digit: u32,
    at: usize,
    level: u32,
) -> Result<Node<K, V, S>, NoMemory>
where
    S::Key: Drop,
    S::Value: Drop,
    requires digit { digit < fan_out }
    requires has { (bit_at old.bitmap digit == 1) ≡ true }
    requires at { at < length old.children.now }
    requires size { 0 < old.size }
    requires count { length old.children.now ≡ count_ones old.bitmap }
    ensures { IfOk result (λ n. tree n ≡ drawn_up level (branch stamp.0 (old.entry.size - 1) (bit_and old.entry.bitmap (bit_not w32 (1 * 2 ^ digit % 2 ^ 32))) (trees (remove (map tree old.entry.children.now) at)))) }
{
    if level > 0 && old.children.len() == 2 {
        let other = nth(old.children, 1 - at);
        if is_pairs(other) {
            return other.try_clone();
        }
    }
    without_child(alloc, stamp, old, digit, at)
}
