//! A pair removed below a node, where it stands as far as nobody else holds it.

ghost use Rattle.std.specs.Prelude.{◌≡◌, is_some, None, IfOk, OnErr, true};
ghost use Rattle.std.specs.FinMap.{find as first_of};
ghost use Rattle.trie_shape.specs.Shape.{nodes};
ghost use Rattle.trie_shape.specs.Map.{without};
ghost use Rattle.trie_shape.specs.Tree.{IsTrie, entries};
ghost use Rattle.trie_shape.specs.View.{tree, branch_of, in_row};
ghost use Rattle.trie_removals.specs.RemovalInPlace.{TakesOut, TakesInside};

use crate::bucket_removals::remove_from_pairs;
use crate::copied_removal::remove_copied;
use hash_path::{Path, PathKey, Sought};
use slots::{Shared, Slots, ValueSlots};
use std::alloc::Global;
use std::sync::Arc;
use trie_contraction::{count_out, lose_child};
use trie_shape::{Always, Condition, NoMemory, Node, Stamp, has_digit, place};

/// What a removal did to a node.
#[derive(Drop)]
pub enum RemovedIn<V, S: ValueSlots<V> = Shared> {
    /// Nothing was removed. It has the key's value, if the key is there.
    Nothing(Option<S::Value>),
    /// The pair is the only one, and the node is left to its holder. It has this value.
    Gone(S::Value),
    /// The node is now without the pair, which had this value.
    Left(S::Value),
}

/// What a removal from a node where it stands came to.
#[derive(Drop)]
pub(crate) enum TakenInside<K, V, S: Slots<K, V>> {
    /// The removal is done.
    Done(RemovedIn<V, S>),
    /// This node is to take the branch's place.
    GivesWay(Node<K, V, S>, S::Value),
    /// The node cannot be written where it stands, and is as it was.
    Elsewhere,
}

/// The removal of the key from a node that stands at the level: where it stands as far as nobody
/// else holds the nodes of the key's way, and else by copies of them.
#[cycle(remove_in)]
pub fn remove_in_at<K: PathKey, V, S: Slots<K, V>, Q: Sought<K>, C: Condition<V>>(
    alloc: Global,
    node: &mut Node<K, V, S>,
    key: Q,
    path: Path,
    stamp: Stamp,
    level: u32,
    condition: &C,
) -> Result<RemovedIn<V, S>, NoMemory>
where
    S::Key: Drop,
    S::Value: Drop,
    requires path { path.0 ≡ K.path_of (Q.key_of key) }
    requires trie { IsTrie K.cmp K.path_of level (tree node.old) }
    ensures ok { IfOk result (λ r. TakesOut S.value_of K.cmp K.path_of level stamp.0 (Q.key_of key) (C.holds condition.now) (tree node.old) r (tree node.new)) }
    ensures due { OnErr result (is_some (first_of K.cmp (Q.key_of key) (entries (tree node.old))) ≡ true) }
    ensures err { OnErr result (tree node.new ≡ tree node.old) }
{
    match remove_in_node(alloc, node, key, path, stamp, level, condition)? {
        TakenInside::Done(removed) => Ok(removed),
        TakenInside::GivesWay(rest, value) => {
            *node = rest;
            Ok(RemovedIn::Left(value))
        }
        TakenInside::Elsewhere => remove_copied(alloc, node, key, path, stamp, level, condition),
    }
}

/// The removal of the key from a node that stands at the level, where nobody else holds the node.
#[cycle(remove_in)]
fn remove_in_node<K: PathKey, V, S: Slots<K, V>, Q: Sought<K>, C: Condition<V>>(
    alloc: Global,
    node: &mut Node<K, V, S>,
    key: Q,
    path: Path,
    stamp: Stamp,
    level: u32,
    condition: &C,
) -> Result<TakenInside<K, V, S>, NoMemory>
where
    S::Key: Drop,
    S::Value: Drop,
    requires path { path.0 ≡ K.path_of (Q.key_of key) }
    requires trie { IsTrie K.cmp K.path_of level (tree node.old) }
    ensures ok { IfOk result (λ r. TakesInside S.value_of K.cmp K.path_of level stamp.0 (Q.key_of key) (C.holds condition.now) (tree node.old) r (tree node.new)) }
    ensures due { OnErr result (is_some (first_of K.cmp (Q.key_of key) (entries (tree node.old))) ≡ true) }
    ensures err { OnErr result (tree node.new ≡ tree node.old) }
{
    match node {
        Node::Vacant => Ok(TakenInside::Elsewhere),
        Node::Leaf { .. } => Ok(TakenInside::Elsewhere),
        Node::Bucket { stamp: old, pairs } => {
            if pairs.len() <= 2 {
                return Ok(TakenInside::Elsewhere);
            }
            match Arc::get_mut(pairs) {
                Some(pairs) => Ok(TakenInside::Done(remove_from_pairs(
                    old, pairs, key, stamp, condition,
                )?)),
                None => Ok(TakenInside::Elsewhere),
            }
        }
        _ => remove_in_row(alloc, node, key, path, stamp, level, condition),
    }
}

/// A removal below a branch, where nobody else holds it. No other node is written.
#[cycle(remove_in)]
fn remove_in_row<K: PathKey, V, S: Slots<K, V>, Q: Sought<K>, C: Condition<V>>(
    alloc: Global,
    node: &mut Node<K, V, S>,
    key: Q,
    path: Path,
    stamp: Stamp,
    level: u32,
    condition: &C,
) -> Result<TakenInside<K, V, S>, NoMemory>
where
    S::Key: Drop,
    S::Value: Drop,
    requires path { path.0 ≡ K.path_of (Q.key_of key) }
    requires trie { IsTrie K.cmp K.path_of level (tree node.old) }
    ensures ok { IfOk result (λ r. TakesInside S.value_of K.cmp K.path_of level stamp.0 (Q.key_of key) (C.holds condition.now) (tree node.old) r (tree node.new)) }
    ensures due { OnErr result (is_some (first_of K.cmp (Q.key_of key) (entries (tree node.old))) ≡ true) }
    ensures err { OnErr result (tree node.new ≡ tree node.old) }
{
    match node {
        Node::Two {
            bitmap,
            stamp: old,
            size,
            row,
        } => match Arc::get_mut(row) {
            Some(row) => remove_in_two(
                alloc, bitmap, old, size, row, key, path, stamp, level, condition,
            ),
            None => Ok(TakenInside::Elsewhere),
        },
        Node::Four {
            bitmap,
            stamp: old,
            size,
            row,
        } => match Arc::get_mut(row) {
            Some(row) => remove_in_four(
                alloc, bitmap, old, size, row, key, path, stamp, level, condition,
            ),
            None => Ok(TakenInside::Elsewhere),
        },
        Node::Eight {
            bitmap,
            stamp: old,
            size,
            row,
        } => match Arc::get_mut(row) {
            Some(row) => remove_in_eight(
                alloc, bitmap, old, size, row, key, path, stamp, level, condition,
            ),
            None => Ok(TakenInside::Elsewhere),
        },
        _ => remove_in_long_row(alloc, node, key, path, stamp, level, condition),
    }
}

/// A removal below a branch whose row has 16 or 32 places, where nobody else holds it.
#[cycle(remove_in)]
fn remove_in_long_row<K: PathKey, V, S: Slots<K, V>, Q: Sought<K>, C: Condition<V>>(
    alloc: Global,
    node: &mut Node<K, V, S>,
    key: Q,
    path: Path,
    stamp: Stamp,
    level: u32,
    condition: &C,
) -> Result<TakenInside<K, V, S>, NoMemory>
where
    S::Key: Drop,
    S::Value: Drop,
    requires path { path.0 ≡ K.path_of (Q.key_of key) }
    requires trie { IsTrie K.cmp K.path_of level (tree node.old) }
    ensures ok { IfOk result (λ r. TakesInside S.value_of K.cmp K.path_of level stamp.0 (Q.key_of key) (C.holds condition.now) (tree node.old) r (tree node.new)) }
    ensures due { OnErr result (is_some (first_of K.cmp (Q.key_of key) (entries (tree node.old))) ≡ true) }
    ensures err { OnErr result (tree node.new ≡ tree node.old) }
{
    match node {
        Node::Sixteen {
            bitmap,
            stamp: old,
            size,
            row,
        } => match Arc::get_mut(row) {
            Some(row) => remove_in_sixteen(
                alloc, bitmap, old, size, row, key, path, stamp, level, condition,
            ),
            None => Ok(TakenInside::Elsewhere),
        },
        Node::All {
            bitmap,
            stamp: old,
            size,
            row,
        } => match Arc::get_mut(row) {
            Some(row) => remove_in_all(
                alloc, bitmap, old, size, row, key, path, stamp, level, condition,
            ),
            None => Ok(TakenInside::Elsewhere),
        },
        _ => Ok(TakenInside::Elsewhere),
    }
}

/// The removal of the key from a branch in a row of 2 places, which nobody else holds.
#[cycle(remove_in)]
fn remove_in_two<K: PathKey, V, S: Slots<K, V>, Q: Sought<K>, C: Condition<V>>(
    alloc: Global,
    bitmap: &mut u32,
    stamp: &mut Stamp,
    size: &mut u64,
    row: &mut [Node<K, V, S>; 2],
    key: Q,
    path: Path,
    new_stamp: Stamp,
    level: u32,
    condition: &C,
) -> Result<TakenInside<K, V, S>, NoMemory>
where
    S::Key: Drop,
    S::Value: Drop,
    requires path { path.0 ≡ K.path_of (Q.key_of key) }
    requires trie { IsTrie K.cmp K.path_of level (branch_of stamp.old.0 (in_row size.old bitmap.old row.old)) }
    ensures ok { IfOk result (λ r. TakesInside S.value_of K.cmp K.path_of level new_stamp.0 (Q.key_of key) (C.holds condition.now) (branch_of stamp.old.0 (in_row size.old bitmap.old row.old)) r (branch_of stamp.new.0 (in_row size.new bitmap.new row.new))) }
    ensures due { OnErr result (is_some (first_of K.cmp (Q.key_of key) (entries (branch_of stamp.old.0 (in_row size.old bitmap.old row.old)))) ≡ true) }
    ensures err { OnErr result (branch_of stamp.new.0 (in_row size.new bitmap.new row.new) ≡ branch_of stamp.old.0 (in_row size.old bitmap.old row.old)) }
{
    remove_in_branch(
        alloc, bitmap, stamp, size, row, key, path, new_stamp, level, condition,
    )
}

/// The removal of the key from a branch in a row of 4 places, which nobody else holds.
#[cycle(remove_in)]
fn remove_in_four<K: PathKey, V, S: Slots<K, V>, Q: Sought<K>, C: Condition<V>>(
    alloc: Global,
    bitmap: &mut u32,
    stamp: &mut Stamp,
    size: &mut u64,
    row: &mut [Node<K, V, S>; 4],
    key: Q,
    path: Path,
    new_stamp: Stamp,
    level: u32,
    condition: &C,
) -> Result<TakenInside<K, V, S>, NoMemory>
where
    S::Key: Drop,
    S::Value: Drop,
    requires path { path.0 ≡ K.path_of (Q.key_of key) }
    requires trie { IsTrie K.cmp K.path_of level (branch_of stamp.old.0 (in_row size.old bitmap.old row.old)) }
    ensures ok { IfOk result (λ r. TakesInside S.value_of K.cmp K.path_of level new_stamp.0 (Q.key_of key) (C.holds condition.now) (branch_of stamp.old.0 (in_row size.old bitmap.old row.old)) r (branch_of stamp.new.0 (in_row size.new bitmap.new row.new))) }
    ensures due { OnErr result (is_some (first_of K.cmp (Q.key_of key) (entries (branch_of stamp.old.0 (in_row size.old bitmap.old row.old)))) ≡ true) }
    ensures err { OnErr result (branch_of stamp.new.0 (in_row size.new bitmap.new row.new) ≡ branch_of stamp.old.0 (in_row size.old bitmap.old row.old)) }
{
    remove_in_branch(
        alloc, bitmap, stamp, size, row, key, path, new_stamp, level, condition,
    )
}

/// The removal of the key from a branch in a row of 8 places, which nobody else holds.
#[cycle(remove_in)]
fn remove_in_eight<K: PathKey, V, S: Slots<K, V>, Q: Sought<K>, C: Condition<V>>(
    alloc: Global,
    bitmap: &mut u32,
    stamp: &mut Stamp,
    size: &mut u64,
    row: &mut [Node<K, V, S>; 8],
    key: Q,
    path: Path,
    new_stamp: Stamp,
    level: u32,
    condition: &C,
) -> Result<TakenInside<K, V, S>, NoMemory>
where
    S::Key: Drop,
    S::Value: Drop,
    requires path { path.0 ≡ K.path_of (Q.key_of key) }
    requires trie { IsTrie K.cmp K.path_of level (branch_of stamp.old.0 (in_row size.old bitmap.old row.old)) }
    ensures ok { IfOk result (λ r. TakesInside S.value_of K.cmp K.path_of level new_stamp.0 (Q.key_of key) (C.holds condition.now) (branch_of stamp.old.0 (in_row size.old bitmap.old row.old)) r (branch_of stamp.new.0 (in_row size.new bitmap.new row.new))) }
    ensures due { OnErr result (is_some (first_of K.cmp (Q.key_of key) (entries (branch_of stamp.old.0 (in_row size.old bitmap.old row.old)))) ≡ true) }
    ensures err { OnErr result (branch_of stamp.new.0 (in_row size.new bitmap.new row.new) ≡ branch_of stamp.old.0 (in_row size.old bitmap.old row.old)) }
{
    remove_in_branch(
        alloc, bitmap, stamp, size, row, key, path, new_stamp, level, condition,
    )
}

/// The removal of the key from a branch in a row of 16 places, which nobody else holds.
#[cycle(remove_in)]
fn remove_in_sixteen<K: PathKey, V, S: Slots<K, V>, Q: Sought<K>, C: Condition<V>>(
    alloc: Global,
    bitmap: &mut u32,
    stamp: &mut Stamp,
    size: &mut u64,
    row: &mut [Node<K, V, S>; 16],
    key: Q,
    path: Path,
    new_stamp: Stamp,
    level: u32,
    condition: &C,
) -> Result<TakenInside<K, V, S>, NoMemory>
where
    S::Key: Drop,
    S::Value: Drop,
    requires path { path.0 ≡ K.path_of (Q.key_of key) }
    requires trie { IsTrie K.cmp K.path_of level (branch_of stamp.old.0 (in_row size.old bitmap.old row.old)) }
    ensures ok { IfOk result (λ r. TakesInside S.value_of K.cmp K.path_of level new_stamp.0 (Q.key_of key) (C.holds condition.now) (branch_of stamp.old.0 (in_row size.old bitmap.old row.old)) r (branch_of stamp.new.0 (in_row size.new bitmap.new row.new))) }
    ensures due { OnErr result (is_some (first_of K.cmp (Q.key_of key) (entries (branch_of stamp.old.0 (in_row size.old bitmap.old row.old)))) ≡ true) }
    ensures err { OnErr result (branch_of stamp.new.0 (in_row size.new bitmap.new row.new) ≡ branch_of stamp.old.0 (in_row size.old bitmap.old row.old)) }
{
    remove_in_branch(
        alloc, bitmap, stamp, size, row, key, path, new_stamp, level, condition,
    )
}

/// The removal of the key from a branch in a row of 32 places, which nobody else holds.
#[cycle(remove_in)]
fn remove_in_all<K: PathKey, V, S: Slots<K, V>, Q: Sought<K>, C: Condition<V>>(
    alloc: Global,
    bitmap: &mut u32,
    stamp: &mut Stamp,
    size: &mut u64,
    row: &mut [Node<K, V, S>; 32],
    key: Q,
    path: Path,
    new_stamp: Stamp,
    level: u32,
    condition: &C,
) -> Result<TakenInside<K, V, S>, NoMemory>
where
    S::Key: Drop,
    S::Value: Drop,
    requires path { path.0 ≡ K.path_of (Q.key_of key) }
    requires trie { IsTrie K.cmp K.path_of level (branch_of stamp.old.0 (in_row size.old bitmap.old row.old)) }
    ensures ok { IfOk result (λ r. TakesInside S.value_of K.cmp K.path_of level new_stamp.0 (Q.key_of key) (C.holds condition.now) (branch_of stamp.old.0 (in_row size.old bitmap.old row.old)) r (branch_of stamp.new.0 (in_row size.new bitmap.new row.new))) }
    ensures due { OnErr result (is_some (first_of K.cmp (Q.key_of key) (entries (branch_of stamp.old.0 (in_row size.old bitmap.old row.old)))) ≡ true) }
    ensures err { OnErr result (branch_of stamp.new.0 (in_row size.new bitmap.new row.new) ≡ branch_of stamp.old.0 (in_row size.old bitmap.old row.old)) }
{
    remove_in_branch(
        alloc, bitmap, stamp, size, row, key, path, new_stamp, level, condition,
    )
}

/// The removal of the key from a branch whose row nobody else holds.
#[cycle(remove_in)]
fn remove_in_branch<K: PathKey, V, S: Slots<K, V>, Q: Sought<K>, C: Condition<V>>(
    alloc: Global,
    bitmap: &mut u32,
    stamp: &mut Stamp,
    size: &mut u64,
    row: &mut [Node<K, V, S>],
    key: Q,
    path: Path,
    new_stamp: Stamp,
    level: u32,
    condition: &C,
) -> Result<TakenInside<K, V, S>, NoMemory>
where
    S::Key: Drop,
    S::Value: Drop,
    requires path { path.0 ≡ K.path_of (Q.key_of key) }
    requires trie { IsTrie K.cmp K.path_of level (branch_of stamp.old.0 (in_row size.old bitmap.old row.old)) }
    ensures ok { IfOk result (λ r. TakesInside S.value_of K.cmp K.path_of level new_stamp.0 (Q.key_of key) (C.holds condition.now) (branch_of stamp.old.0 (in_row size.old bitmap.old row.old)) r (branch_of stamp.new.0 (in_row size.new bitmap.new row.new))) }
    ensures due { OnErr result (is_some (first_of K.cmp (Q.key_of key) (entries (branch_of stamp.old.0 (in_row size.old bitmap.old row.old)))) ≡ true) }
    ensures err { OnErr result (branch_of stamp.new.0 (in_row size.new bitmap.new row.new) ≡ branch_of stamp.old.0 (in_row size.old bitmap.old row.old)) }
{
    let digit = path.digit(level);
    if !has_digit(*bitmap, digit) {
        return Ok(TakenInside::Done(RemovedIn::Nothing(None)));
    }
    let at = place(*bitmap, digit);
    let child = &mut row[at];
    match remove_in_at(alloc, child, key, path, new_stamp, level + 1, condition)? {
        RemovedIn::Nothing(found) => Ok(TakenInside::Done(RemovedIn::Nothing(found))),
        RemovedIn::Gone(value) => {
            match lose_child(bitmap, stamp, size, row, digit, at, new_stamp, level) {
                Some(rest) => Ok(TakenInside::GivesWay(rest, value)),
                None => Ok(TakenInside::Done(RemovedIn::Left(value))),
            }
        }
        RemovedIn::Left(value) => match count_out(*bitmap, stamp, size, row, new_stamp, level) {
            Some(rest) => Ok(TakenInside::GivesWay(rest, value)),
            None => Ok(TakenInside::Done(RemovedIn::Left(value))),
        },
    }
}
