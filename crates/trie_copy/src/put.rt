//! Roots with a pair put.

ghost use Rattle.std.specs.Prelude.{ℕ, ◌≡◌, ◌==◌, ◌<◌, ◌≤◌, ◌+◌, ◌^◌, ◌%◌, ◌*◌, option_map, length, map, is_some, true, false, ◌≢◌, IfOk, OnErr, IfSome, Some, None, bit_or, [], ◌∷◌};
ghost use Rattle.std.specs.List.{insert};
ghost use Rattle.std.specs.Int.{bit_at};
ghost use Rattle.std.specs.Int.RustNames.{count_ones};
ghost use Rattle.std.specs.FinMap.{find as first_of};
ghost use Rattle.std.specs.FinMap.Entries.{put as put_in_order};
ghost use Rattle.hash_path.specs.Digits.{digit_bits, fan_out};
ghost use Rattle.trie_shape.specs.Map.{value_at};
ghost use Rattle.trie_shape.specs.Tree.{IsTrie, KeysHaveWord, branch, bucket, trees, entries};
ghost use Rattle.trie_shape.specs.Inside.{lent};
ghost use Rattle.trie_shape.specs.View.{tree, branch_of, pair_values};
ghost use Rattle.trie_shape.specs.Outline.{stamp_of};
ghost use Rattle.trie_shape.specs.Roots.{IsRoot, map_of};
ghost use Rattle.trie_copy.specs.Writes.{Writes, WritesWhere, KeysAgree};
ghost use Rattle.trie_copy.specs.Changes.{IsPut};

use hash_path::{Path, PathKey};
use slots::{Pair, Shared, Slots};
use std::alloc::Global;
use std::slice;
use trie_shape::{
    Always, Branch, Condition, Contents, NoMemory, Node, Stamp, find_pair, has_digit, make_bucket,
    make_leaf, nth, open_node, place, put_pair, size as count, with_child, with_more,
};

/// What a write under a condition made, and what it found.
#[derive(Drop)]
pub struct Written<'a, K, V, S: Slots<K, V> = Shared> {
    /// The new root, or none where nothing was to be written.
    pub root: Option<Node<K, V, S>>,
    /// The pair that the key had before.
    pub previous: Option<&'a Pair<K, V, S>>,
}

/// A pair to be put, with the path word of its key and the stamp of the write.
#[derive(Drop)]
pub struct NewPair<K, V, S: Slots<K, V> = Shared> {
    pub pair: Pair<K, V, S>,
    pub path: Path,
    pub stamp: Stamp,
}

/// A branch with a leaf of the entry, where no child has the digit of its key.
fn add_leaf<K, V, S: Slots<K, V>>(
    alloc: Global,
    size: u64,
    bitmap: u32,
    children: &[Node<K, V, S>],
    digit: u32,
    entry: NewPair<K, V, S>,
) -> Result<Node<K, V, S>, NoMemory>
where
    S::Key: Drop,
    S::Value: Drop,
    requires digit { digit < fan_out }
    requires lacks { (bit_at bitmap digit == 1) ≡ false }
    requires room { size < 2 ^ 63 }
    requires count { length children.now ≡ count_ones bitmap }
    requires place { count_ones (bitmap % 2 ^ digit) ≤ length children.now }
    ensures { IfOk result (λ n. tree n ≡ branch entry.stamp.0 (size + 1) (bit_or bitmap (1 * 2 ^ digit % 2 ^ 32)) (trees (insert (map tree children.now) (count_ones (bitmap % 2 ^ digit)) (bucket entry.stamp.0 ((entry.pair.0, entry.pair.1) ∷ []))))) }
{
    let NewPair { pair, stamp, .. } = entry;
    let leaf = make_leaf(stamp, pair);
    let at = place(bitmap, digit);
    with_more(
        alloc,
        stamp,
        size + 1,
        bitmap | (1 << digit),
        children,
        at,
        leaf,
    )
}

/// A branch with a leaf of the entry, where no child has the digit of its key and the condition
/// holds of an absent key.
fn put_beside<'a, K: PathKey, V, S: Slots<K, V>, C: Condition<V>>(
    alloc: Global,
    size: u64,
    bitmap: u32,
    children: &'a [Node<K, V, S>],
    digit: u32,
    entry: NewPair<K, V, S>,
    condition: &C,
) -> Result<Option<Node<K, V, S>>, NoMemory>
where
    S::Key: Drop,
    S::Value: Drop,
    requires digit { digit < fan_out }
    requires lacks { (bit_at bitmap digit == 1) ≡ false }
    requires room { size < 2 ^ 63 }
    requires count { length children.now ≡ count_ones bitmap }
    requires place { count_ones (bitmap % 2 ^ digit) ≤ length children.now }
    ensures written { IfOk result (λ r. is_some r ≡ C.holds condition.now None) }
    ensures due { OnErr result (C.holds condition.now None ≡ true) }
    ensures leaf { IfOk result (λ r. IfSome r (λ n. tree n ≡ branch entry.stamp.0 (size + 1) (bit_or bitmap (1 * 2 ^ digit % 2 ^ 32)) (trees (insert (map tree children.now) (count_ones (bitmap % 2 ^ digit)) (bucket entry.stamp.0 ((entry.pair.0, entry.pair.1) ∷ [])))))) }
{
    let absent: Option<&'a V> = None;
    if condition.holds(absent) {
        Ok(Some(add_leaf(alloc, size, bitmap, children, digit, entry)?))
    } else {
        Ok(None)
    }
}

/// A leaf or bucket of the entry among pairs of its word.
fn put_in_bucket<K: PathKey, V, S: Slots<K, V>>(
    alloc: Global,
    pairs: &[Pair<K, V, S>],
    entry: NewPair<K, V, S>,
) -> Result<Node<K, V, S>, NoMemory>
where
    S::Key: Drop,
    S::Value: Drop,
    ensures { IfOk result (λ n. tree n ≡ bucket entry.stamp.0 (put_in_order K.cmp entry.pair.0 entry.pair.1 (map pair_values pairs.now))) }
{
    let all = put_pair(alloc, pairs, &entry.pair)?;
    make_bucket(alloc, entry.stamp, all)
}

/// A leaf or bucket where the key of the entry is among the pairs.
fn replace_value<K: PathKey, V, S: Slots<K, V>>(
    alloc: Global,
    pairs: &[Pair<K, V, S>],
    entry: NewPair<K, V, S>,
) -> Result<Node<K, V, S>, NoMemory>
where
    S::Key: Drop,
    S::Value: Drop,
    requires present { is_some (first_of K.cmp entry.pair.0 (map pair_values pairs.now)) ≡ true }
    ensures { IfOk result (λ n. tree n ≡ bucket entry.stamp.0 (put_in_order K.cmp entry.pair.0 entry.pair.1 (map pair_values pairs.now))) }
{
    if pairs.len() == 1 {
        Ok(make_leaf(entry.stamp, entry.pair))
    } else {
        put_in_bucket(alloc, pairs, entry)
    }
}

/// A branch above a node of pairs and a leaf of the entry, whose words differ from the level on.
fn split<K: PathKey, V, S: Slots<K, V>>(
    alloc: Global,
    old: &Node<K, V, S>,
    old_path: Path,
    size: u64,
    entry: NewPair<K, V, S>,
    level: u32,
) -> Result<Node<K, V, S>, NoMemory>
where
    S::Key: Drop,
    S::Value: Drop,
    requires bucket { tree old.now ≡ bucket (stamp_of (tree old.now)) (entries (tree old.now)) }
    requires trie { IsTrie K.cmp K.path_of level (tree old.now) }
    requires word { KeysHaveWord K.cmp K.path_of old_path.0 (entries (tree old.now)) }
    requires path { entry.path.0 ≡ K.path_of entry.pair.0 }
    requires apart { old_path.0 ≢ entry.path.0 }
    requires agree { old_path.0 % 2 ^ (digit_bits * level) ≡ entry.path.0 % 2 ^ (digit_bits * level) }
    requires size { size ≡ length (entries (tree old.now)) }
    requires room { size < 2 ^ 63 }
    ensures { IfOk result (λ n. Writes K.cmp K.path_of level entry.stamp.0 entry.pair.0 (Some entry.pair.1) (tree old.now) (tree n)) }
{
    let stamp = entry.stamp;
    let digit = entry.path.digit(level);
    let old_digit = old_path.digit(level);
    if old_digit == digit {
        let child = split(alloc, old, old_path, size, entry, level + 1)?;
        let all = count(&child);
        with_child(
            alloc,
            stamp,
            all,
            1 << digit,
            slice::from_ref(old),
            0,
            child,
        )
    } else {
        add_leaf(
            alloc,
            size,
            1 << old_digit,
            slice::from_ref(old),
            digit,
            entry,
        )
    }
}

/// A node of pairs with the entry put: a leaf or bucket, or a branch above two words.
fn put_among<K: PathKey, V, S: Slots<K, V>>(
    alloc: Global,
    node: &Node<K, V, S>,
    pairs: &[Pair<K, V, S>],
    entry: NewPair<K, V, S>,
    level: u32,
    present: bool,
) -> Result<Node<K, V, S>, NoMemory>
where
    S::Key: Drop,
    S::Value: Drop,
    requires pairs { tree node.now ≡ bucket (stamp_of (tree node.now)) (map pair_values pairs.now) }
    requires trie { IsTrie K.cmp K.path_of level (tree node.now) }
    requires path { entry.path.0 ≡ K.path_of entry.pair.0 }
    requires agree { KeysAgree K.cmp K.path_of level entry.path.0 (entries (tree node.now)) }
    requires present { present ≡ is_some (first_of K.cmp entry.pair.0 (map pair_values pairs.now)) }
    requires room { length pairs.now < 2 ^ 63 }
    ensures { IfOk result (λ n. Writes K.cmp K.path_of level entry.stamp.0 entry.pair.0 (Some entry.pair.1) (tree node.now) (tree n)) }
{
    if present {
        return replace_value(alloc, pairs, entry);
    }
    let old_path = pairs[0].key().path();
    if old_path == entry.path {
        put_in_bucket(alloc, pairs, entry)
    } else {
        split(alloc, node, old_path, pairs.len() as u64, entry, level)
    }
}

/// A put below a leaf or bucket of these pairs.
fn put_pairs<'a, K: PathKey, V, S: Slots<K, V>, C: Condition<V>>(
    alloc: Global,
    node: &Node<K, V, S>,
    pairs: &'a [Pair<K, V, S>],
    entry: NewPair<K, V, S>,
    level: u32,
    condition: &C,
) -> Result<Written<'a, K, V, S>, NoMemory>
where
    S::Key: Drop,
    S::Value: Drop,
    requires pairs { tree node.now ≡ bucket (stamp_of (tree node.now)) (map pair_values pairs.now) }
    requires trie { IsTrie K.cmp K.path_of level (tree node.now) }
    requires path { entry.path.0 ≡ K.path_of entry.pair.0 }
    requires agree { KeysAgree K.cmp K.path_of level entry.path.0 (entries (tree node.now)) }
    requires room { length pairs.now < 2 ^ 63 }
    ensures due { OnErr result (C.holds condition.now (first_of K.cmp entry.pair.0 (entries (tree node.now))) ≡ true) }
    ensures ok { IfOk result (λ w. WritesWhere K.cmp K.path_of level entry.stamp.0 entry.pair.0 (Some entry.pair.1) (C.holds condition.now) (tree node.now) (option_map (λ p. p.now.1) w.previous) (option_map tree w.root)) }
{
    let previous = find_pair(pairs, entry.pair.key());
    if !condition.holds(previous.map(Pair::value)) {
        return Ok(Written {
            root: None,
            previous,
        });
    }
    let root = put_among(alloc, node, pairs, entry, level, previous.is_some())?;
    Ok(Written {
        root: Some(root),
        previous,
    })
}

/// A put below a branch that stands at the level. Only the nodes on the key's way are new.
#[cycle(put)]
fn put_below<'a, K: PathKey, V, S: Slots<K, V>, C: Condition<V>>(
    alloc: Global,
    below: Branch<'a, K, V, S>,
    entry: NewPair<K, V, S>,
    level: u32,
    condition: &C,
) -> Result<Written<'a, K, V, S>, NoMemory>
where
    S::Key: Drop,
    S::Value: Drop,
    requires trie { IsTrie K.cmp K.path_of level (branch_of 0 (lent below)) }
    requires path { entry.path.0 ≡ K.path_of entry.pair.0 }
    requires agree { KeysAgree K.cmp K.path_of level entry.path.0 (entries (branch_of 0 (lent below))) }
    requires room { length (entries (branch_of 0 (lent below))) < 2 ^ 63 }
    ensures due { OnErr result (C.holds condition.now (first_of K.cmp entry.pair.0 (entries (branch_of 0 (lent below.entry)))) ≡ true) }
    ensures ok { IfOk result (λ w. (before : ℕ) → WritesWhere K.cmp K.path_of level entry.stamp.0 entry.pair.0 (Some entry.pair.1) (C.holds condition.now) (branch_of before (lent below.entry)) (option_map (λ p. p.now.1) w.previous) (option_map tree w.root)) }
{
    let stamp = entry.stamp;
    let bitmap = below.bitmap;
    let digit = entry.path.digit(level);
    if !has_digit(bitmap, digit) {
        return Ok(Written {
            root: put_beside(
                alloc,
                below.size,
                bitmap,
                below.children,
                digit,
                entry,
                condition,
            )?,
            previous: None,
        });
    }
    let at = place(bitmap, digit);
    let old = nth(below.children, at);
    let Written { root, previous } = put_at(alloc, old, entry, level + 1, condition)?;
    let Some(child) = root else {
        return Ok(Written {
            root: None,
            previous,
        });
    };
    let size = below.size + count(&child) - count(old);
    let root = with_child(alloc, stamp, size, bitmap, below.children, at, child)?;
    Ok(Written {
        root: Some(root),
        previous,
    })
}

/// A put below a node that stands at the level.
#[cycle(put)]
pub fn put_at<'a, K: PathKey, V, S: Slots<K, V>, C: Condition<V>>(
    alloc: Global,
    node: &'a Node<K, V, S>,
    entry: NewPair<K, V, S>,
    level: u32,
    condition: &C,
) -> Result<Written<'a, K, V, S>, NoMemory>
where
    S::Key: Drop,
    S::Value: Drop,
    requires trie { IsTrie K.cmp K.path_of level (tree node.now) }
    requires path { entry.path.0 ≡ K.path_of entry.pair.0 }
    requires agree { KeysAgree K.cmp K.path_of level entry.path.0 (entries (tree node.now)) }
    requires room { length (entries (tree node.now)) < 2 ^ 63 }
    ensures due { OnErr result (C.holds condition.now (first_of K.cmp entry.pair.0 (entries (tree node.now))) ≡ true) }
    ensures ok { IfOk result (λ w. WritesWhere K.cmp K.path_of level entry.stamp.0 entry.pair.0 (Some entry.pair.1) (C.holds condition.now) (tree node.now) (option_map (λ p. p.now.1) w.previous) (option_map tree w.root)) }
{
    match open_node(node) {
        Contents::Branch(below) => put_below(alloc, below, entry, level, condition),
        Contents::Pairs(pairs) => put_pairs(alloc, node, pairs, entry, level, condition),
    }
}

/// A root with the value put at the key, where the condition holds of the value that the key has.
/// The old root is unchanged. Where the condition fails, no node is copied.
pub fn put_where<'a, K: PathKey, V, S: Slots<K, V>, C: Condition<V>>(
    alloc: Global,
    node: &'a Node<K, V, S>,
    key: S::Key,
    value: S::Value,
    stamp: Stamp,
    condition: &C,
) -> Result<Written<'a, K, V, S>, NoMemory>
where
    S::Key: Drop,
    S::Value: Drop,
    requires root { IsRoot K.cmp K.path_of (tree node.now) }
    requires room { length (map_of K.cmp (tree node.now)) < 2 ^ 63 }
    ensures previous { IfOk result (λ w. option_map (λ p. p.now.1) w.previous ≡ value_at K.cmp (map_of K.cmp (tree node.now)) (S.key_of key)) }
    ensures written { IfOk result (λ w. is_some w.root ≡ C.holds condition.now (value_at K.cmp (map_of K.cmp (tree node.now)) (S.key_of key))) }
    // Memory is requested only where the condition holds.
    ensures due { OnErr result (C.holds condition.now (value_at K.cmp (map_of K.cmp (tree node.now)) (S.key_of key)) ≡ true) }
    ensures put { IfOk result (λ w. IfSome w.root (λ n. IsPut K.cmp K.path_of stamp.0 (S.key_of key) (S.value_of value) (tree node.now) (tree n))) }
{
    let pair: Pair<K, V, S> = Pair::new(key, value);
    let entry = NewPair {
        path: pair.key().path(),
        pair,
        stamp,
    };
    put_at(alloc, node, entry, 0, condition)
}

/// A root with the value put at the key. The old root is unchanged.
pub fn with_put<K: PathKey, V, S: Slots<K, V>>(
    alloc: Global,
    node: &Node<K, V, S>,
    key: S::Key,
    value: S::Value,
    stamp: Stamp,
) -> Result<Node<K, V, S>, NoMemory>
where
    S::Key: Drop,
    S::Value: Drop,
    requires root { IsRoot K.cmp K.path_of (tree node.now) }
    requires room { length (map_of K.cmp (tree node.now)) < 2 ^ 63 }
    ensures { IfOk result (λ n. IsPut K.cmp K.path_of stamp.0 (S.key_of key) (S.value_of value) (tree node.now) (tree n)) }
{
    match put_where(alloc, node, key, value, stamp, &Always)?.root {
        Some(root) => Ok(root),
        None => unreachable!(),
    }
}
