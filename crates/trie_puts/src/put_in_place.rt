//! A pair put below a node, where it stands as far as nobody else holds it.

ghost use Rattle.std.specs.Prelude.{◌≡◌, ◌<◌, ◌^◌, option_map, length, IfOk, OnErr, true};
ghost use Rattle.std.specs.FinMap.{find as first_of};
ghost use Rattle.trie_shape.specs.Tree.{IsTrie, branch, entries};
ghost use Rattle.trie_shape.specs.View.{tree, branch_of, in_row};
ghost use Rattle.trie_copy.specs.Writes.{KeysAgree};
ghost use Rattle.trie_puts.specs.PutInPlace.{PutsIn, is_refusable};
ghost use Rattle.trie_puts.specs.PutInside.{PutsInside};

use crate::bucket_puts::{compare_keys, have_path, put_in_pair, put_in_pairs};
use crate::change::Change;
use crate::copied_put::put_copied;
use crate::leaf_puts::put_leaf;
use hash_path::PathKey;
use slots::Slots;
use std::alloc::Global;
use std::cmp::Ordering;
use std::sync::Arc;
use trie_copy::NewPair;
use trie_shape::{Condition, NoMemory, Node, Stamp, has_digit, place, size as count};

/// What a put into a node where it stands came to.
#[derive(Drop)]
pub(crate) enum PutInside<K, V, S: Slots<K, V>> {
    /// The put is done.
    Done(Change<V, S>),
    /// The pair was put, and this node is to take the branch's place.
    GivesWay(Node<K, V, S>),
    /// The node cannot be written where it stands, and is as it was.
    Elsewhere(NewPair<K, V, S>),
}

/// A put below a node that stands at the level: where it stands as far as nobody else holds the
/// nodes of the key's way, and else by copies of them.
#[cycle(put_in)]
pub fn put_in_at<K: PathKey, V, S: Slots<K, V>, C: Condition<V>>(
    alloc: Global,
    node: &mut Node<K, V, S>,
    entry: NewPair<K, V, S>,
    level: u32,
    condition: &C,
) -> Result<Change<V, S>, NoMemory>
where
    S::Key: Drop,
    S::Value: Drop,
    requires trie { IsTrie K.cmp K.path_of level (tree node.old) }
    requires path { entry.path.0 ≡ K.path_of entry.pair.0 }
    requires agree { KeysAgree K.cmp K.path_of level entry.path.0 (entries (tree node.old)) }
    requires room { length (entries (tree node.old)) < 2 ^ 63 }
    ensures ok { IfOk result (λ d. PutsIn K.cmp K.path_of level entry.stamp.0 entry.pair.0 entry.pair.1 (C.holds condition.now) (tree node.old) (option_map S.value_of d.previous) d.written (tree node.new)) }
    ensures due { OnErr result (is_refusable (C.holds condition.now) (first_of K.cmp entry.pair.0 (entries (tree node.old))) ≡ true) }
    ensures err { OnErr result (tree node.new ≡ tree node.old) }
{
    match put_in_node(alloc, node, entry, level, condition)? {
        PutInside::Done(done) => Ok(done),
        PutInside::Elsewhere(entry) => put_copied(alloc, node, entry, level, condition),
        PutInside::GivesWay(grown) => {
            *node = grown;
            Ok(Change {
                previous: None,
                written: true,
            })
        }
    }
}

/// A put below a node that stands at the level, where nobody else holds the node.
#[cycle(put_in)]
fn put_in_node<K: PathKey, V, S: Slots<K, V>, C: Condition<V>>(
    alloc: Global,
    node: &mut Node<K, V, S>,
    entry: NewPair<K, V, S>,
    level: u32,
    condition: &C,
) -> Result<PutInside<K, V, S>, NoMemory>
where
    S::Key: Drop,
    S::Value: Drop,
    requires trie { IsTrie K.cmp K.path_of level (tree node.old) }
    requires path { entry.path.0 ≡ K.path_of entry.pair.0 }
    requires agree { KeysAgree K.cmp K.path_of level entry.path.0 (entries (tree node.old)) }
    requires room { length (entries (tree node.old)) < 2 ^ 63 }
    ensures ok { IfOk result (λ r. PutsInside S.value_of K.cmp K.path_of level entry (C.holds condition.now) (tree node.old) r (tree node.new)) }
    ensures due { OnErr result (is_refusable (C.holds condition.now) (first_of K.cmp entry.pair.0 (entries (tree node.old))) ≡ true) }
    ensures err { OnErr result (tree node.new ≡ tree node.old) }
{
    match node {
        Node::Vacant => Ok(PutInside::Elsewhere(entry)),
        Node::Leaf { stamp, pair } => {
            if compare_keys(&entry, pair) == Ordering::Equal {
                return Ok(PutInside::Done(put_in_pair(stamp, pair, entry, condition)?));
            }
            Ok(PutInside::Elsewhere(entry))
        }
        Node::Bucket { stamp, pairs } => {
            if have_path(pairs.as_slice(), entry.path) {
                if let Some(pairs) = Arc::get_mut(pairs) {
                    return Ok(PutInside::Done(put_in_pairs(stamp, pairs, entry, condition)?));
                }
            }
            Ok(PutInside::Elsewhere(entry))
        }
        _ => put_in_row(alloc, node, entry, level, condition),
    }
}

/// A put below a branch, where nobody else holds it. No other node is written.
#[cycle(put_in)]
fn put_in_row<K: PathKey, V, S: Slots<K, V>, C: Condition<V>>(
    alloc: Global,
    node: &mut Node<K, V, S>,
    entry: NewPair<K, V, S>,
    level: u32,
    condition: &C,
) -> Result<PutInside<K, V, S>, NoMemory>
where
    S::Key: Drop,
    S::Value: Drop,
    requires trie { IsTrie K.cmp K.path_of level (tree node.old) }
    requires path { entry.path.0 ≡ K.path_of entry.pair.0 }
    requires agree { KeysAgree K.cmp K.path_of level entry.path.0 (entries (tree node.old)) }
    requires room { length (entries (tree node.old)) < 2 ^ 63 }
    ensures ok { IfOk result (λ r. PutsInside S.value_of K.cmp K.path_of level entry (C.holds condition.now) (tree node.old) r (tree node.new)) }
    ensures due { OnErr result (is_refusable (C.holds condition.now) (first_of K.cmp entry.pair.0 (entries (tree node.old))) ≡ true) }
    ensures err { OnErr result (tree node.new ≡ tree node.old) }
{
    match node {
        Node::Two {
            bitmap,
            stamp,
            size,
            row,
        } => match Arc::get_mut(row) {
            Some(row) => put_in_two(alloc, bitmap, stamp, size, row, entry, level, condition),
            None => Ok(PutInside::Elsewhere(entry)),
        },
        Node::Four {
            bitmap,
            stamp,
            size,
            row,
        } => match Arc::get_mut(row) {
            Some(row) => put_in_four(alloc, bitmap, stamp, size, row, entry, level, condition),
            None => Ok(PutInside::Elsewhere(entry)),
        },
        Node::Eight {
            bitmap,
            stamp,
            size,
            row,
        } => match Arc::get_mut(row) {
            Some(row) => put_in_eight(alloc, bitmap, stamp, size, row, entry, level, condition),
            None => Ok(PutInside::Elsewhere(entry)),
        },
        _ => put_in_long_row(alloc, node, entry, level, condition),
    }
}

/// A put below a branch whose row has 16 or 32 places, where nobody else holds it.
#[cycle(put_in)]
fn put_in_long_row<K: PathKey, V, S: Slots<K, V>, C: Condition<V>>(
    alloc: Global,
    node: &mut Node<K, V, S>,
    entry: NewPair<K, V, S>,
    level: u32,
    condition: &C,
) -> Result<PutInside<K, V, S>, NoMemory>
where
    S::Key: Drop,
    S::Value: Drop,
    requires trie { IsTrie K.cmp K.path_of level (tree node.old) }
    requires path { entry.path.0 ≡ K.path_of entry.pair.0 }
    requires agree { KeysAgree K.cmp K.path_of level entry.path.0 (entries (tree node.old)) }
    requires room { length (entries (tree node.old)) < 2 ^ 63 }
    ensures ok { IfOk result (λ r. PutsInside S.value_of K.cmp K.path_of level entry (C.holds condition.now) (tree node.old) r (tree node.new)) }
    ensures due { OnErr result (is_refusable (C.holds condition.now) (first_of K.cmp entry.pair.0 (entries (tree node.old))) ≡ true) }
    ensures err { OnErr result (tree node.new ≡ tree node.old) }
{
    match node {
        Node::Sixteen {
            bitmap,
            stamp,
            size,
            row,
        } => match Arc::get_mut(row) {
            Some(row) => put_in_sixteen(alloc, bitmap, stamp, size, row, entry, level, condition),
            None => Ok(PutInside::Elsewhere(entry)),
        },
        Node::All {
            bitmap,
            stamp,
            size,
            row,
        } => match Arc::get_mut(row) {
            Some(row) => put_in_all(alloc, bitmap, stamp, size, row, entry, level, condition),
            None => Ok(PutInside::Elsewhere(entry)),
        },
        _ => Ok(PutInside::Elsewhere(entry)),
    }
}

/// A put below a branch in a row of 2 places, which nobody else holds.
#[cycle(put_in)]
fn put_in_two<K: PathKey, V, S: Slots<K, V>, C: Condition<V>>(
    alloc: Global,
    bitmap: &mut u32,
    stamp: &mut Stamp,
    size: &mut u64,
    row: &mut [Node<K, V, S>; 2],
    entry: NewPair<K, V, S>,
    level: u32,
    condition: &C,
) -> Result<PutInside<K, V, S>, NoMemory>
where
    S::Key: Drop,
    S::Value: Drop,
    requires trie { IsTrie K.cmp K.path_of level (branch_of stamp.old.0 (in_row size.old bitmap.old row.old)) }
    requires path { entry.path.0 ≡ K.path_of entry.pair.0 }
    requires agree { KeysAgree K.cmp K.path_of level entry.path.0 (entries (branch_of stamp.old.0 (in_row size.old bitmap.old row.old))) }
    requires room { length (entries (branch_of stamp.old.0 (in_row size.old bitmap.old row.old))) < 2 ^ 63 }
    ensures ok { IfOk result (λ r. PutsInside S.value_of K.cmp K.path_of level entry (C.holds condition.now) (branch_of stamp.old.0 (in_row size.old bitmap.old row.old)) r (branch_of stamp.new.0 (in_row size.new bitmap.new row.new))) }
    ensures due { OnErr result (is_refusable (C.holds condition.now) (first_of K.cmp entry.pair.0 (entries (branch_of stamp.old.0 (in_row size.old bitmap.old row.old)))) ≡ true) }
    ensures err { OnErr result (branch_of stamp.new.0 (in_row size.new bitmap.new row.new) ≡ branch_of stamp.old.0 (in_row size.old bitmap.old row.old)) }
{
    put_in_branch(alloc, bitmap, stamp, size, row, entry, level, condition)
}

/// A put below a branch in a row of 4 places, which nobody else holds.
#[cycle(put_in)]
fn put_in_four<K: PathKey, V, S: Slots<K, V>, C: Condition<V>>(
    alloc: Global,
    bitmap: &mut u32,
    stamp: &mut Stamp,
    size: &mut u64,
    row: &mut [Node<K, V, S>; 4],
    entry: NewPair<K, V, S>,
    level: u32,
    condition: &C,
) -> Result<PutInside<K, V, S>, NoMemory>
where
    S::Key: Drop,
    S::Value: Drop,
    requires trie { IsTrie K.cmp K.path_of level (branch_of stamp.old.0 (in_row size.old bitmap.old row.old)) }
    requires path { entry.path.0 ≡ K.path_of entry.pair.0 }
    requires agree { KeysAgree K.cmp K.path_of level entry.path.0 (entries (branch_of stamp.old.0 (in_row size.old bitmap.old row.old))) }
    requires room { length (entries (branch_of stamp.old.0 (in_row size.old bitmap.old row.old))) < 2 ^ 63 }
    ensures ok { IfOk result (λ r. PutsInside S.value_of K.cmp K.path_of level entry (C.holds condition.now) (branch_of stamp.old.0 (in_row size.old bitmap.old row.old)) r (branch_of stamp.new.0 (in_row size.new bitmap.new row.new))) }
    ensures due { OnErr result (is_refusable (C.holds condition.now) (first_of K.cmp entry.pair.0 (entries (branch_of stamp.old.0 (in_row size.old bitmap.old row.old)))) ≡ true) }
    ensures err { OnErr result (branch_of stamp.new.0 (in_row size.new bitmap.new row.new) ≡ branch_of stamp.old.0 (in_row size.old bitmap.old row.old)) }
{
    put_in_branch(alloc, bitmap, stamp, size, row, entry, level, condition)
}

/// A put below a branch in a row of 8 places, which nobody else holds.
#[cycle(put_in)]
fn put_in_eight<K: PathKey, V, S: Slots<K, V>, C: Condition<V>>(
    alloc: Global,
    bitmap: &mut u32,
    stamp: &mut Stamp,
    size: &mut u64,
    row: &mut [Node<K, V, S>; 8],
    entry: NewPair<K, V, S>,
    level: u32,
    condition: &C,
) -> Result<PutInside<K, V, S>, NoMemory>
where
    S::Key: Drop,
    S::Value: Drop,
    requires trie { IsTrie K.cmp K.path_of level (branch_of stamp.old.0 (in_row size.old bitmap.old row.old)) }
    requires path { entry.path.0 ≡ K.path_of entry.pair.0 }
    requires agree { KeysAgree K.cmp K.path_of level entry.path.0 (entries (branch_of stamp.old.0 (in_row size.old bitmap.old row.old))) }
    requires room { length (entries (branch_of stamp.old.0 (in_row size.old bitmap.old row.old))) < 2 ^ 63 }
    ensures ok { IfOk result (λ r. PutsInside S.value_of K.cmp K.path_of level entry (C.holds condition.now) (branch_of stamp.old.0 (in_row size.old bitmap.old row.old)) r (branch_of stamp.new.0 (in_row size.new bitmap.new row.new))) }
    ensures due { OnErr result (is_refusable (C.holds condition.now) (first_of K.cmp entry.pair.0 (entries (branch_of stamp.old.0 (in_row size.old bitmap.old row.old)))) ≡ true) }
    ensures err { OnErr result (branch_of stamp.new.0 (in_row size.new bitmap.new row.new) ≡ branch_of stamp.old.0 (in_row size.old bitmap.old row.old)) }
{
    put_in_branch(alloc, bitmap, stamp, size, row, entry, level, condition)
}

/// A put below a branch in a row of 16 places, which nobody else holds.
#[cycle(put_in)]
fn put_in_sixteen<K: PathKey, V, S: Slots<K, V>, C: Condition<V>>(
    alloc: Global,
    bitmap: &mut u32,
    stamp: &mut Stamp,
    size: &mut u64,
    row: &mut [Node<K, V, S>; 16],
    entry: NewPair<K, V, S>,
    level: u32,
    condition: &C,
) -> Result<PutInside<K, V, S>, NoMemory>
where
    S::Key: Drop,
    S::Value: Drop,
    requires trie { IsTrie K.cmp K.path_of level (branch_of stamp.old.0 (in_row size.old bitmap.old row.old)) }
    requires path { entry.path.0 ≡ K.path_of entry.pair.0 }
    requires agree { KeysAgree K.cmp K.path_of level entry.path.0 (entries (branch_of stamp.old.0 (in_row size.old bitmap.old row.old))) }
    requires room { length (entries (branch_of stamp.old.0 (in_row size.old bitmap.old row.old))) < 2 ^ 63 }
    ensures ok { IfOk result (λ r. PutsInside S.value_of K.cmp K.path_of level entry (C.holds condition.now) (branch_of stamp.old.0 (in_row size.old bitmap.old row.old)) r (branch_of stamp.new.0 (in_row size.new bitmap.new row.new))) }
    ensures due { OnErr result (is_refusable (C.holds condition.now) (first_of K.cmp entry.pair.0 (entries (branch_of stamp.old.0 (in_row size.old bitmap.old row.old)))) ≡ true) }
    ensures err { OnErr result (branch_of stamp.new.0 (in_row size.new bitmap.new row.new) ≡ branch_of stamp.old.0 (in_row size.old bitmap.old row.old)) }
{
    put_in_branch(alloc, bitmap, stamp, size, row, entry, level, condition)
}

/// A put below a branch in a row of 32 places, which nobody else holds.
#[cycle(put_in)]
fn put_in_all<K: PathKey, V, S: Slots<K, V>, C: Condition<V>>(
    alloc: Global,
    bitmap: &mut u32,
    stamp: &mut Stamp,
    size: &mut u64,
    row: &mut [Node<K, V, S>; 32],
    entry: NewPair<K, V, S>,
    level: u32,
    condition: &C,
) -> Result<PutInside<K, V, S>, NoMemory>
where
    S::Key: Drop,
    S::Value: Drop,
    requires trie { IsTrie K.cmp K.path_of level (branch_of stamp.old.0 (in_row size.old bitmap.old row.old)) }
    requires path { entry.path.0 ≡ K.path_of entry.pair.0 }
    requires agree { KeysAgree K.cmp K.path_of level entry.path.0 (entries (branch_of stamp.old.0 (in_row size.old bitmap.old row.old))) }
    requires room { length (entries (branch_of stamp.old.0 (in_row size.old bitmap.old row.old))) < 2 ^ 63 }
    ensures ok { IfOk result (λ r. PutsInside S.value_of K.cmp K.path_of level entry (C.holds condition.now) (branch_of stamp.old.0 (in_row size.old bitmap.old row.old)) r (branch_of stamp.new.0 (in_row size.new bitmap.new row.new))) }
    ensures due { OnErr result (is_refusable (C.holds condition.now) (first_of K.cmp entry.pair.0 (entries (branch_of stamp.old.0 (in_row size.old bitmap.old row.old)))) ≡ true) }
    ensures err { OnErr result (branch_of stamp.new.0 (in_row size.new bitmap.new row.new) ≡ branch_of stamp.old.0 (in_row size.old bitmap.old row.old)) }
{
    put_in_branch(alloc, bitmap, stamp, size, row, entry, level, condition)
}

/// A put below a branch whose row nobody else holds.
#[cycle(put_in)]
fn put_in_branch<K: PathKey, V, S: Slots<K, V>, C: Condition<V>>(
    alloc: Global,
    bitmap: &mut u32,
    stamp: &mut Stamp,
    size: &mut u64,
    row: &mut [Node<K, V, S>],
    entry: NewPair<K, V, S>,
    level: u32,
    condition: &C,
) -> Result<PutInside<K, V, S>, NoMemory>
where
    S::Key: Drop,
    S::Value: Drop,
    requires trie { IsTrie K.cmp K.path_of level (branch_of stamp.old.0 (in_row size.old bitmap.old row.old)) }
    requires path { entry.path.0 ≡ K.path_of entry.pair.0 }
    requires agree { KeysAgree K.cmp K.path_of level entry.path.0 (entries (branch_of stamp.old.0 (in_row size.old bitmap.old row.old))) }
    requires room { length (entries (branch_of stamp.old.0 (in_row size.old bitmap.old row.old))) < 2 ^ 63 }
    ensures ok { IfOk result (λ r. PutsInside S.value_of K.cmp K.path_of level entry (C.holds condition.now) (branch_of stamp.old.0 (in_row size.old bitmap.old row.old)) r (branch_of stamp.new.0 (in_row size.new bitmap.new row.new))) }
    ensures due { OnErr result (is_refusable (C.holds condition.now) (first_of K.cmp entry.pair.0 (entries (branch_of stamp.old.0 (in_row size.old bitmap.old row.old)))) ≡ true) }
    ensures err { OnErr result (branch_of stamp.new.0 (in_row size.new bitmap.new row.new) ≡ branch_of stamp.old.0 (in_row size.old bitmap.old row.old)) }
{
    let digit = entry.path.digit(level);
    let at = place(*bitmap, digit);
    if !has_digit(*bitmap, digit) {
        return put_leaf(alloc, bitmap, stamp, size, row, digit, at, entry, condition);
    }
    let new_stamp = entry.stamp;
    let child = &mut row[at];
    let before = count(child);
    let done = put_in_at(alloc, child, entry, level + 1, condition)?;
    if !done.written {
        return Ok(PutInside::Done(done));
    }
    *size = *size + count(child) - before;
    *stamp = new_stamp;
    Ok(PutInside::Done(done))
}
