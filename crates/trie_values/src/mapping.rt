//! A root with new values.
ghost use Rattle.std.specs.Prelude.{◌≡◌, All, IfOk, length, map};
ghost use Rattle.trie_shape.specs.Roots.{IsRoot, map_of, word_of};
ghost use Rattle.trie_shape.specs.Shape.{Fits, NoneAbove, nodes};
ghost use Rattle.trie_shape.specs.Tree.{bucket};
ghost use Rattle.trie_shape.specs.View.{pair_values, tree};
ghost use Rattle.trie_values.specs.Values.{AreGiven, IsGiven, IsMade, MayAnswer, Means, with_values};

use hash_path::PathKey;
use slots::{Pair, Slots, ValueSlots};
use std::alloc::Global;
use trie_fetch::{Keys, fetch_leaves};
use trie_node::{
    Look, NoMemory, Node, Stamp, bitmap_counts_children, branch_is_its_children, child, look, size,
};
use trie_shape::{make_branch, make_bucket, make_leaf};

/// How many pairs a subtrie has at most whose keys are fetched at once.
const MOST_AT_ONCE: u64 = 256;

/// The root of the map with the same keys, each with what the closure makes of its pair. It shares the keys with the
/// old root, which is unchanged. All its nodes are new and have the stamp.
///
/// The closure is called once for each pair, in the order of a walk. A closure may return differently each time, so
/// what is promised of the values is exact for each meaning that it has.
///
/// # Errors
///
/// `NoMemory` where a request for memory, or the clone of a handle on a key, is refused.
pub fn with_new_values<K: PathKey, V, W: Drop, S: Slots<K, V> + Slots<K, W>, F: Fn(&K, &V) -> W>(
    alloc: Global,
    root: &Node<K, V, S>,
    stamp: Stamp,
    change: &F,
) -> Result<Node<K, W, S>, NoMemory>
where
    S::Key: Drop,
    <S as ValueSlots<W>>::Value: Drop,
    requires root { IsRoot K.cmp K.path_of (tree root.now) }
    requires callable { F.IsAlwaysCallable change.now }
    ensures root { IfOk result (λ n. IsRoot K.cmp K.path_of (tree n)) }
    ensures map { IfOk result (λ n. (f : K → V → W) → Means (MayAnswer F.Fn change.now) f → map_of K.cmp (tree n) ≡ with_values f (map_of K.cmp (tree root.now))) }
    // In any case the keys are the same, and each has a value that the closure may return for its pair.
    ensures given { IfOk result (λ n. AreGiven (MayAnswer F.Fn change.now) (map_of K.cmp (tree root.now)) (map_of K.cmp (tree n))) }
    ensures count { IfOk result (λ n. length (map_of K.cmp (tree n)) ≡ length (map_of K.cmp (tree root.now))) }
    ensures stamps { IfOk result (λ n. All (λ node. node.1 ≡ stamp.0) (nodes (word_of K.path_of) (tree n))) }
    ensures newest { IfOk result (λ n. NoneAbove stamp.0 (nodes (word_of K.path_of) (tree n))) }
{
    let made = map_subtrie(alloc, root, stamp, change, false)?;
    Ok(made)
}

/// The subtrie of the same shape with new values, whose nodes all have the stamp. Its keys may have been fetched.
fn map_subtrie<K, V, W: Drop, S: Slots<K, V> + Slots<K, W>, F: Fn(&K, &V) -> W>(
    alloc: Global,
    node: &Node<K, V, S>,
    stamp: Stamp,
    change: &F,
    fetched: bool,
) -> Result<Node<K, W, S>, NoMemory>
where
    S::Key: Drop,
    <S as ValueSlots<W>>::Value: Drop,
    requires fits { Fits (tree node.now) }
    requires callable { F.IsAlwaysCallable change.now }
    ensures { IfOk result (λ n. IsMade (MayAnswer F.Fn change.now) stamp.0 (tree node.now) (tree n)) }
{
    match look(node) {
        Look::Pairs(pairs) => map_pairs(alloc, pairs, stamp, change),
        Look::Branch(bitmap) => {
            bitmap_counts_children::<K, V>();
            branch_is_its_children::<K, V>();
            let few = size(node) <= MOST_AT_ONCE;
            if few && !fetched {
                fetch_leaves::<Keys, K, V, S>(node);
            }
            let mut children = Vec::with_capacity(alloc, bitmap.count_ones() as usize)?;
            for n in 0..bitmap.count_ones() {
                children.push(map_subtrie(alloc, child(node, n), stamp, change, few)?)?;
            }
            make_branch(alloc, stamp, size(node), bitmap, children.as_mut_slice())
        }
    }
}

/// A leaf or bucket of the pairs with new values.
fn map_pairs<K, V, W: Drop, S: Slots<K, V> + Slots<K, W>, F: Fn(&K, &V) -> W>(
    alloc: Global,
    pairs: &[Pair<K, V, S>],
    stamp: Stamp,
    change: &F,
) -> Result<Node<K, W, S>, NoMemory>
where
    S::Key: Drop,
    <S as ValueSlots<W>>::Value: Drop,
    requires callable { F.IsAlwaysCallable change.now }
    ensures { IfOk result (λ n. IsMade (MayAnswer F.Fn change.now) stamp.0 (bucket stamp.0 (map pair_values pairs.now)) (tree n)) }
{
    if let [pair] = pairs {
        let pair = map_pair(alloc, pair, change)?;
        return Ok(make_leaf(stamp, pair));
    }
    let mut all = Vec::with_capacity(alloc, pairs.len())?;
    for pair in pairs {
        all.push(map_pair(alloc, pair, change)?)?;
    }
    make_bucket(alloc, stamp, all)
}

/// Another handle on the key, and what the closure makes of the pair.
fn map_pair<K, V, W: Drop, S: Slots<K, V> + Slots<K, W>, F: Fn(&K, &V) -> W>(
    alloc: Global,
    pair: &Pair<K, V, S>,
    change: &F,
) -> Result<Pair<K, W, S>, NoMemory>
where
    S::Key: Drop,
    <S as ValueSlots<W>>::Value: Drop,
    requires callable { F.IsAlwaysCallable change.now }
    ensures { IfOk result (λ made. IsGiven (MayAnswer F.Fn change.now) pair.now made) }
{
    let made = <S as ValueSlots<W>>::new_value(alloc, answer_at(change, pair.key(), pair.value()))?;
    let mapped: Pair<K, W, S> = Pair::new(S::another_key(pair.key_slot())?, made);
    Ok(mapped)
}

/// What the closure returns at a pair.
fn answer_at<K, V, W, F: Fn(&K, &V) -> W>(change: &F, key: &K, value: &V) -> W
    requires { F.IsAlwaysCallable change.now }
    ensures { MayAnswer F.Fn change.now key.now value.now result }
{
    change(key, value)
}
