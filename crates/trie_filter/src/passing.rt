//! A root of the pairs that pass a test.
ghost use Rattle.std.specs.Prelude.{◌≡◌, ◌<◌, ◌≤◌, All, Bool, IfOk, filter, length, map, option_map};
ghost use Rattle.trie_filter.specs.Few.{IsFew, items_of};
ghost use Rattle.trie_filter.specs.Passing.{AreChosen, IsLeft, IsRow, PairsLeft};
ghost use Rattle.trie_shape.specs.Looks.{ShowsBitmap};
ghost use Rattle.trie_shape.specs.Roots.{IsRoot, map_of, word_of};
ghost use Rattle.trie_shape.specs.Shape.{NoneAbove, nodes};
ghost use Rattle.trie_shape.specs.Tree.{IsTrie, entries};
ghost use Rattle.trie_shape.specs.View.{pair_values, tree};
ghost use Rattle.trie_values.specs.Values.{MayAnswer, Means};

use crate::bitmaps::lowest_digit;
use crate::few::Few;
use crate::new_branch::NewBranch;
use hash_path::PathKey;
use slots::{Pair, Slots};
use std::alloc::Global;
use trie_fetch::{KeysAndValues, fetch_leaves};
use trie_node::{
    Look, NoMemory, Node, Stamp, bitmap_counts_children, branch_is_its_children, child, look, size,
};
use trie_shape::{make_bucket, make_leaf};

/// How many pairs a subtrie has at most whose keys and values are fetched at once.
const MOST_AT_ONCE: u64 = 256;

/// The root of the map of those pairs at which the test returns true. It shares the keys and values behind handles
/// with the old root, which is unchanged. All its nodes are new and have the stamp.
///
/// The test is called once for each pair, in the order of a walk. A test may return differently each time, so which
/// pairs are left is exact for each meaning that it has. No memory is requested for a subtrie none of whose pairs
/// pass, or of which a leaf is left.
///
/// # Errors
///
/// `NoMemory` where a request for memory, or the clone of a handle on a key or value, is refused.
pub fn with_passing<K: PathKey, V, S: Slots<K, V>, F: Fn(&K, &V) -> bool>(
    alloc: Global,
    root: &Node<K, V, S>,
    stamp: Stamp,
    test: &F,
) -> Result<Node<K, V, S>, NoMemory>
where
    S::Key: Drop,
    S::Value: Drop,
    requires root { IsRoot K.cmp K.path_of (tree root.now) }
    requires callable { F.IsAlwaysCallable test.now }
    ensures root { IfOk result (λ n. IsRoot K.cmp K.path_of (tree n)) }
    ensures map { IfOk result (λ n. (p : K → V → Bool) → Means (MayAnswer F.Fn test.now) p → map_of K.cmp (tree n) ≡ filter (λ x. p x.0 x.1) (map_of K.cmp (tree root.now))) }
    // In any case the test may return true at each pair that stays, and false at each that is left out.
    ensures chosen { IfOk result (λ n. AreChosen (MayAnswer F.Fn test.now) (map_of K.cmp (tree root.now)) (map_of K.cmp (tree n))) }
    ensures count { IfOk result (λ n. length (map_of K.cmp (tree n)) ≤ length (map_of K.cmp (tree root.now))) }
    ensures stamps { IfOk result (λ n. All (λ node. node.1 ≡ stamp.0) (nodes (word_of K.path_of) (tree n))) }
    ensures newest { IfOk result (λ n. NoneAbove stamp.0 (nodes (word_of K.path_of) (tree n))) }
{
    match look(root) {
        Look::Branch(bitmap) => {
            let row = pass_children(alloc, root, bitmap, stamp, test, 0, false)?;
            let made = row.into_branch(alloc, stamp)?;
            Ok(made)
        }
        Look::Pairs(_) => unreachable!(),
    }
}

/// What is left of a subtrie below the root, if anything. Its keys and values may have been fetched.
#[cycle(passing)]
fn pass_subtrie<K: PathKey, V, S: Slots<K, V>, F: Fn(&K, &V) -> bool>(
    alloc: Global,
    node: &Node<K, V, S>,
    stamp: Stamp,
    test: &F,
    level: u32,
    fetched: bool,
) -> Result<Option<Node<K, V, S>>, NoMemory>
where
    S::Key: Drop,
    S::Value: Drop,
    requires trie { IsTrie K.cmp K.path_of level (tree node.now) }
    requires below { 0 < level }
    requires callable { F.IsAlwaysCallable test.now }
    ensures { IfOk result (λ o. IsLeft K.cmp K.path_of (MayAnswer F.Fn test.now) level stamp.0 (tree node.now) (option_map tree o)) }
{
    match look(node) {
        Look::Pairs(pairs) => {
            let left = pass_pairs(alloc, pairs, stamp, test)?;
            Ok(left)
        }
        Look::Branch(bitmap) => {
            let row = pass_children(alloc, node, bitmap, stamp, test, level, fetched)?;
            let left = row.drawn_up(alloc, stamp)?;
            Ok(left)
        }
    }
}

/// What is left of the children of a branch.
#[cycle(passing)]
fn pass_children<K: PathKey, V, S: Slots<K, V>, F: Fn(&K, &V) -> bool>(
    alloc: Global,
    node: &Node<K, V, S>,
    bitmap: u32,
    stamp: Stamp,
    test: &F,
    level: u32,
    fetched: bool,
) -> Result<NewBranch<K, V, S>, NoMemory>
where
    S::Key: Drop,
    S::Value: Drop,
    requires branch { ShowsBitmap bitmap (tree node.now) }
    requires trie { IsTrie K.cmp K.path_of level (tree node.now) }
    requires callable { F.IsAlwaysCallable test.now }
    ensures row { IfOk result (λ row. IsRow K.cmp K.path_of (MayAnswer F.Fn test.now) level stamp.0 (entries (tree node.now)) row.bitmap row.size (map tree (items_of row.children))) }
    ensures few { IfOk result (λ row. IsFew row.children) }
{
    bitmap_counts_children::<K, V>();
    branch_is_its_children::<K, V>();
    let few = size(node) <= MOST_AT_ONCE;
    if few && !fetched {
        fetch_leaves::<KeysAndValues, K, V, S>(node);
    }
    let mut row = NewBranch {
        children: Few::Nothing,
        size: 0,
        bitmap: 0,
    };
    let mut rest = bitmap;
    for n in 0..bitmap.count_ones() {
        let digit = lowest_digit(rest);
        rest &= !(1 << digit);
        let Ok(left) = pass_subtrie(alloc, child(node, n), stamp, test, level + 1, few) else {
            drop(row);
            return Err(NoMemory);
        };
        if let Some(left) = left {
            let room = (bitmap.count_ones() - n) as usize + 1;
            row = row.with(alloc, room, digit, left)?;
        }
    }
    Ok(row)
}

/// The leaf or bucket that is left of some pairs, if any.
fn pass_pairs<K, V, S: Slots<K, V>, F: Fn(&K, &V) -> bool>(
    alloc: Global,
    pairs: &[Pair<K, V, S>],
    stamp: Stamp,
    test: &F,
) -> Result<Option<Node<K, V, S>>, NoMemory>
where
    S::Key: Drop,
    S::Value: Drop,
    requires callable { F.IsAlwaysCallable test.now }
    ensures { IfOk result (λ o. PairsLeft (MayAnswer F.Fn test.now) stamp.0 (map pair_values pairs.now) (option_map tree o)) }
{
    let mut left = Few::Nothing;
    for pair in pairs {
        if answer_at(test, pair.key(), pair.value()) {
            let Ok(other) = pair.another() else {
                drop(left);
                return Err(NoMemory);
            };
            left = left.with(alloc, pairs.len(), other)?;
        }
    }
    match left {
        Few::Nothing => Ok(None),
        Few::One(pair) => Ok(Some(make_leaf(stamp, pair))),
        Few::More(pairs) => Ok(Some(make_bucket(alloc, stamp, pairs)?)),
    }
}

/// What the test returns at a pair.
fn answer_at<K, V, F: Fn(&K, &V) -> bool>(test: &F, key: &K, value: &V) -> bool
    requires { F.IsAlwaysCallable test.now }
    ensures { MayAnswer F.Fn test.now key.now value.now result }
{
    test(key, value)
}
