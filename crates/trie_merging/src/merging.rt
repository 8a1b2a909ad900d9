//! The root of two maps together, made from their roots.

ghost use Rattle.std.specs.Prelude.{◌≡◌, ℕ, ◌+◌, ◌<◌, ◌≤◌, ◌^◌, Bool, map, length, option_map, true, Some, IfOk};
ghost use Rattle.hash_path.specs.Digits.{fan_out};
ghost use Rattle.trie_shape.specs.Looks.{ShowsBitmap};
ghost use Rattle.trie_shape.specs.Map.{union};
ghost use Rattle.trie_copy.specs.Writes.{KeysAgree, WritesWhere};
ghost use Rattle.trie_merging.specs.Merges.{CanMerge, EachStampPasses, Merges, PutsEach, child_at};
ghost use Rattle.trie_shape.specs.Roots.{IsRoot, map_of, word_of};
ghost use Rattle.trie_shape.specs.Shape.{Fits, NoneAbove, nodes};
ghost use Rattle.trie_shape.specs.Tree.{IsTrie, bucket, entries};
ghost use Rattle.trie_shape.specs.View.{tree, pair_values};

use hash_path::{FAN_OUT, PathKey};
use slots::{Pair, Slots};
use std::alloc::Global;
use std::mem;
use trie_copy::{NewPair, Written, put_at};
use trie_shape::{
    Always, Condition, IfAbsent, Look, NoMemory, Node, Stamp, child, has_digit, look, make_branch,
    place, size,
};

/// The child of a branch that has the digit, or none.
fn child_of<K, V, S: Slots<K, V>>(
    branch: &Node<K, V, S>,
    bitmap: u32,
    digit: u32,
) -> Option<&Node<K, V, S>>
    requires branch { ShowsBitmap bitmap (tree branch.now) }
    requires fits { Fits (tree branch.now) }
    requires digit { digit < fan_out }
    ensures { option_map (λ n. tree n.now) result ≡ child_at (tree branch.now) digit }
{
    if has_digit(bitmap, digit) {
        Some(child(branch, place(bitmap, digit) as u32))
    } else {
        None
    }
}

/// A put of another of a pair, below a node that stands at the level.
fn put_another<'a, K: PathKey, V, S: Slots<K, V>, C: Condition<V>>(
    alloc: Global,
    node: &'a Node<K, V, S>,
    old: &Pair<K, V, S>,
    stamp: Stamp,
    level: u32,
    condition: &C,
) -> Result<Written<'a, K, V, S>, NoMemory>
where
    S::Key: Drop,
    S::Value: Drop,
    requires trie { IsTrie K.cmp K.path_of level (tree node.now) }
    requires agree { KeysAgree K.cmp K.path_of level (K.path_of old.now.0) (entries (tree node.now)) }
    requires room { length (entries (tree node.now)) < 2 ^ 63 }
    ensures { IfOk result (λ w. WritesWhere K.cmp K.path_of level stamp.0 old.now.0 (Some old.now.1) (C.holds condition.now) (tree node.now) (option_map (λ p. p.now.1) w.previous) (option_map tree w.root)) }
{
    let entry = NewPair {
        path: old.key().path(),
        pair: old.another()?,
        stamp,
    };
    put_at(alloc, node, entry, level, condition)
}

/// A subtrie with each of the pairs put where the condition holds of what its key has there.
fn put_each<K: PathKey, V, S: Slots<K, V>, C: Condition<V>>(
    alloc: Global,
    node: &Node<K, V, S>,
    pairs: &[Pair<K, V, S>],
    stamp: Stamp,
    level: u32,
    condition: &C,
) -> Result<Node<K, V, S>, NoMemory>
where
    S::Key: Drop,
    S::Value: Drop,
    requires { CanMerge K.cmp K.path_of level (Some (bucket stamp.0 (map pair_values pairs.now))) (Some (tree node.now)) }
    ensures { IfOk result (λ n. PutsEach K.cmp K.path_of level stamp.0 (C.holds condition.now) (map pair_values pairs.now) (tree node.now) (tree n)) }
{
    let mut all = node.try_clone()?;
    for old in pairs {
        let root = put_another(alloc, &all, old, stamp, level, condition)?.root;
        if let Some(next) = root {
            drop(mem::replace(&mut all, next));
        }
    }
    Ok(all)
}

/// Two subtries of one place together. Where both are branches, only the children of a digit that
/// both have are gone down to; any other child is taken as it is.
#[cycle(merging)]
fn merge_at<K: PathKey, V, S: Slots<K, V>>(
    alloc: Global,
    left: &Node<K, V, S>,
    right: &Node<K, V, S>,
    stamp: Stamp,
    level: u32,
) -> Result<Node<K, V, S>, NoMemory>
where
    S::Key: Drop,
    S::Value: Drop,
    requires { CanMerge K.cmp K.path_of level (Some (tree left.now)) (Some (tree right.now)) }
    ensures { IfOk result (λ n. Merges K.cmp K.path_of level stamp.0 (Some (tree left.now)) (Some (tree right.now)) (Some (tree n))) }
{
    match look(left) {
        Look::Branch(left_bitmap) => match look(right) {
            Look::Branch(right_bitmap) => {
                merge_branches(alloc, left, right, left_bitmap, right_bitmap, stamp, level)
            }
            Look::Pairs(pairs) => put_each(alloc, left, pairs, stamp, level, &IfAbsent),
        },
        Look::Pairs(pairs) => match look(right) {
            Look::Pairs(fewer) if fewer.len() < pairs.len() => {
                put_each(alloc, left, fewer, stamp, level, &IfAbsent)
            }
            _ => put_each(alloc, right, pairs, stamp, level, &Always),
        },
    }
}

/// The children of one digit together, if a side has one.
#[cycle(merging)]
fn merge_children<K: PathKey, V, S: Slots<K, V>>(
    alloc: Global,
    left: Option<&Node<K, V, S>>,
    right: Option<&Node<K, V, S>>,
    stamp: Stamp,
    level: u32,
) -> Result<Option<Node<K, V, S>>, NoMemory>
where
    S::Key: Drop,
    S::Value: Drop,
    requires { CanMerge K.cmp K.path_of level (option_map (λ n. tree n.now) left) (option_map (λ n. tree n.now) right) }
    ensures { IfOk result (λ r. Merges K.cmp K.path_of level stamp.0 (option_map (λ n. tree n.now) left.entry) (option_map (λ n. tree n.now) right.entry) (option_map tree r)) }
{
    match (left, right) {
        (Some(left), Some(right)) => Ok(Some(merge_at(alloc, left, right, stamp, level)?)),
        (Some(only), None) | (None, Some(only)) => Ok(Some(only.try_clone()?)),
        (None, None) => Ok(None),
    }
}

/// Two branches of one place together.
#[cycle(merging)]
fn merge_branches<K: PathKey, V, S: Slots<K, V>>(
    alloc: Global,
    left: &Node<K, V, S>,
    right: &Node<K, V, S>,
    left_bitmap: u32,
    right_bitmap: u32,
    stamp: Stamp,
    level: u32,
) -> Result<Node<K, V, S>, NoMemory>
where
    S::Key: Drop,
    S::Value: Drop,
    requires left { ShowsBitmap left_bitmap (tree left.now) }
    requires right { ShowsBitmap right_bitmap (tree right.now) }
    requires both { CanMerge K.cmp K.path_of level (Some (tree left.now)) (Some (tree right.now)) }
    ensures { IfOk result (λ n. Merges K.cmp K.path_of level stamp.0 (Some (tree left.now)) (Some (tree right.now)) (Some (tree n))) }
{
    let bitmap = left_bitmap | right_bitmap;
    let mut children = Vec::with_capacity(alloc, bitmap.count_ones() as usize)?;
    let mut pairs = 0;
    for digit in 0..FAN_OUT {
        let left_child = child_of(left, left_bitmap, digit);
        let right_child = child_of(right, right_bitmap, digit);
        let merged = merge_children(alloc, left_child, right_child, stamp, level + 1)?;
        if let Some(child) = merged {
            pairs += size(&child);
            children.push(child)?;
        }
    }
    make_branch(alloc, stamp, pairs, bitmap, children.as_mut_slice())
}

/// The root of the union of two maps: the pairs of both, where a key in both has the left value.
/// Both roots are unchanged.
///
/// A part where one side alone has pairs is shared with that side, so that the maps of disjoint
/// intervals are put together at the cost of the nodes where the intervals meet. Each new node has
/// the stamp. Where a map is empty, the other's root is returned as it is.
pub fn merged<K: PathKey, V, S: Slots<K, V>>(
    alloc: Global,
    left: &Node<K, V, S>,
    right: &Node<K, V, S>,
    stamp: Stamp,
) -> Result<Node<K, V, S>, NoMemory>
where
    S::Key: Drop,
    S::Value: Drop,
    requires left { IsRoot K.cmp K.path_of (tree left.now) }
    requires right { IsRoot K.cmp K.path_of (tree right.now) }
    requires room { length (map_of K.cmp (tree left.now)) + length (map_of K.cmp (tree right.now)) < 2 ^ 63 }
    ensures root { IfOk result (λ n. IsRoot K.cmp K.path_of (tree n)) }
    ensures map { IfOk result (λ n. map_of K.cmp (tree n) ≡ union K.cmp (map_of K.cmp (tree left.now)) (map_of K.cmp (tree right.now))) }
    // Each node has the stamp, or one that a node of a side has: it passes each test that these pass.
    ensures stamped { (test : ℕ → Bool) → test stamp.0 ≡ true → EachStampPasses test (nodes (word_of K.path_of) (tree left.now)) → EachStampPasses test (nodes (word_of K.path_of) (tree right.now)) → IfOk result (λ n. EachStampPasses test (nodes (word_of K.path_of) (tree n))) }
    ensures stamps { (newest : ℕ) → stamp.0 ≤ newest → NoneAbove newest (nodes (word_of K.path_of) (tree left.now)) → NoneAbove newest (nodes (word_of K.path_of) (tree right.now)) → IfOk result (λ n. NoneAbove newest (nodes (word_of K.path_of) (tree n))) }
{
    if size(left) == 0 {
        return right.try_clone();
    }
    if size(right) == 0 {
        return left.try_clone();
    }
    merge_at(alloc, left, right, stamp, 0)
}
