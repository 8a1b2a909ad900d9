//! Exchanges of a value whose key is there, where the nodes stand.

ghost use Rattle.std.specs.Prelude.{◌≡◌, ℕ, map};
ghost use Rattle.trie_shape.specs.Tree.{IsTrie, bucket};
ghost use Rattle.trie_shape.specs.View.{tree, branch_of, in_row, pair_values};
ghost use Rattle.trie_puts.specs.Exchanging.{Exchanges, ExchangesAt};

use hash_path::{Path, PathKey, Sought};
use slots::{Pair, Shared, Slots, ValueSlots};
use std::cmp::Ordering;
use std::sync::Arc;
use trie_copy::{holds_of, place_of};
use trie_shape::{Condition, Node, Stamp, has_digit, place};

/// What came of an exchange.
#[derive(Drop)]
pub enum Exchange<V, S: ValueSlots<V> = Shared> {
    /// The value lies in the key's place, where this one lay.
    Done(S::Value),
    /// Nothing is changed. The value is still to be put.
    Elsewhere(S::Value),
}

/// An exchange in the pair of the key: a leaf's, or one of a bucket's.
fn exchange_in_pair<K: PathKey, V, S: Slots<K, V>, C: Condition<V>>(
    stamp: &mut Stamp,
    pair: &mut Pair<K, V, S>,
    value: S::Value,
    new_stamp: Stamp,
    condition: &C,
) -> Exchange<V, S>
    ensures { ExchangesAt S.value_of K.cmp K.path_of new_stamp.0 value (C.holds condition.now) stamp.old.0 (pair_values pair.old) result stamp.new.0 (pair_values pair.new) }
{
    if !holds_of(condition, pair.value()) {
        return Exchange::Elsewhere(value);
    }
    *stamp = new_stamp;
    Exchange::Done(pair.exchange(value))
}

/// An exchange among the pairs of a bucket.
fn exchange_in_pairs<K: PathKey, V, S: Slots<K, V>, Q: Sought<K>, C: Condition<V>>(
    stamp: &mut Stamp,
    pairs: &mut Vec<Pair<K, V, S>>,
    key: Q,
    value: S::Value,
    new_stamp: Stamp,
    condition: &C,
) -> Exchange<V, S>
    ensures { (level : ℕ) → IsTrie K.cmp K.path_of level (bucket stamp.old.0 (map pair_values pairs.old.items)) → Exchanges S.value_of K.cmp K.path_of level new_stamp.0 (Q.key_of key) value (C.holds condition.now) (bucket stamp.old.0 (map pair_values pairs.old.items)) result (bucket stamp.new.0 (map pair_values pairs.new.items)) }
{
    match place_of(pairs.as_slice(), key) {
        Some(at) => exchange_in_pair(stamp, &mut pairs[at], value, new_stamp, condition),
        None => Exchange::Elsewhere(value),
    }
}

/// Puts the value at the key, below a node that stands at the level, where the key is there, the condition holds of its
/// value, and nobody else holds a node of its way. No memory is requested, and the key that is there stays.
#[cycle(exchange)]
pub fn exchange_at<K: PathKey, V, S: Slots<K, V>, Q: Sought<K>, C: Condition<V>>(
    node: &mut Node<K, V, S>,
    key: Q,
    path: Path,
    value: S::Value,
    stamp: Stamp,
    level: u32,
    condition: &C,
) -> Exchange<V, S>
    requires path { path.0 ≡ K.path_of (Q.key_of key) }
    requires trie { IsTrie K.cmp K.path_of level (tree node.old) }
    ensures { Exchanges S.value_of K.cmp K.path_of level stamp.0 (Q.key_of key) value (C.holds condition.now) (tree node.old) result (tree node.new) }
{
    match node {
        Node::Vacant => Exchange::Elsewhere(value),
        Node::Leaf { stamp: old, pair } => {
            if key.compare_with(pair.key()) == Ordering::Equal {
                return exchange_in_pair(old, pair, value, stamp, condition);
            }
            Exchange::Elsewhere(value)
        }
        Node::Bucket { stamp: old, pairs } => match Arc::get_mut(pairs) {
            Some(pairs) => exchange_in_pairs(old, pairs, key, value, stamp, condition),
            None => Exchange::Elsewhere(value),
        },
        _ => exchange_in_row(node, key, path, value, stamp, level, condition),
    }
}

/// An exchange below a branch.
#[cycle(exchange)]
fn exchange_in_row<K: PathKey, V, S: Slots<K, V>, Q: Sought<K>, C: Condition<V>>(
    node: &mut Node<K, V, S>,
    key: Q,
    path: Path,
    value: S::Value,
    stamp: Stamp,
    level: u32,
    condition: &C,
) -> Exchange<V, S>
    requires path { path.0 ≡ K.path_of (Q.key_of key) }
    requires trie { IsTrie K.cmp K.path_of level (tree node.old) }
    ensures { Exchanges S.value_of K.cmp K.path_of level stamp.0 (Q.key_of key) value (C.holds condition.now) (tree node.old) result (tree node.new) }
{
    match node {
        Node::Two {
            bitmap,
            stamp: old,
            size,
            row,
        } => match Arc::get_mut(row) {
            Some(row) => exchange_in_two(
                *bitmap, old, *size, row, key, path, value, stamp, level, condition,
            ),
            None => Exchange::Elsewhere(value),
        },
        Node::Four {
            bitmap,
            stamp: old,
            size,
            row,
        } => match Arc::get_mut(row) {
            Some(row) => exchange_in_four(
                *bitmap, old, *size, row, key, path, value, stamp, level, condition,
            ),
            None => Exchange::Elsewhere(value),
        },
        Node::Eight {
            bitmap,
            stamp: old,
            size,
            row,
        } => match Arc::get_mut(row) {
            Some(row) => exchange_in_eight(
                *bitmap, old, *size, row, key, path, value, stamp, level, condition,
            ),
            None => Exchange::Elsewhere(value),
        },
        _ => exchange_in_long_row(node, key, path, value, stamp, level, condition),
    }
}

/// An exchange below a branch whose row has 16 or 32 places.
#[cycle(exchange)]
fn exchange_in_long_row<K: PathKey, V, S: Slots<K, V>, Q: Sought<K>, C: Condition<V>>(
    node: &mut Node<K, V, S>,
    key: Q,
    path: Path,
    value: S::Value,
    stamp: Stamp,
    level: u32,
    condition: &C,
) -> Exchange<V, S>
    requires path { path.0 ≡ K.path_of (Q.key_of key) }
    requires trie { IsTrie K.cmp K.path_of level (tree node.old) }
    ensures { Exchanges S.value_of K.cmp K.path_of level stamp.0 (Q.key_of key) value (C.holds condition.now) (tree node.old) result (tree node.new) }
{
    match node {
        Node::Sixteen {
            bitmap,
            stamp: old,
            size,
            row,
        } => match Arc::get_mut(row) {
            Some(row) => exchange_in_sixteen(
                *bitmap, old, *size, row, key, path, value, stamp, level, condition,
            ),
            None => Exchange::Elsewhere(value),
        },
        Node::All {
            bitmap,
            stamp: old,
            size,
            row,
        } => match Arc::get_mut(row) {
            Some(row) => exchange_in_all(
                *bitmap, old, *size, row, key, path, value, stamp, level, condition,
            ),
            None => Exchange::Elsewhere(value),
        },
        _ => Exchange::Elsewhere(value),
    }
}

/// An exchange below a branch in a row of 2 places, which nobody else holds.
#[cycle(exchange)]
fn exchange_in_two<K: PathKey, V, S: Slots<K, V>, Q: Sought<K>, C: Condition<V>>(
    bitmap: u32,
    old: &mut Stamp,
    size: u64,
    row: &mut [Node<K, V, S>; 2],
    key: Q,
    path: Path,
    value: S::Value,
    stamp: Stamp,
    level: u32,
    condition: &C,
) -> Exchange<V, S>
    requires path { path.0 ≡ K.path_of (Q.key_of key) }
    requires trie { IsTrie K.cmp K.path_of level (branch_of old.old.0 (in_row size bitmap row.old)) }
    ensures { Exchanges S.value_of K.cmp K.path_of level stamp.0 (Q.key_of key) value (C.holds condition.now) (branch_of old.old.0 (in_row size bitmap row.old)) result (branch_of old.new.0 (in_row size bitmap row.new)) }
{
    exchange_below(
        bitmap, old, size, row, key, path, value, stamp, level, condition,
    )
}

/// An exchange below a branch in a row of 4 places, which nobody else holds.
#[cycle(exchange)]
fn exchange_in_four<K: PathKey, V, S: Slots<K, V>, Q: Sought<K>, C: Condition<V>>(
    bitmap: u32,
    old: &mut Stamp,
    size: u64,
    row: &mut [Node<K, V, S>; 4],
    key: Q,
    path: Path,
    value: S::Value,
    stamp: Stamp,
    level: u32,
    condition: &C,
) -> Exchange<V, S>
    requires path { path.0 ≡ K.path_of (Q.key_of key) }
    requires trie { IsTrie K.cmp K.path_of level (branch_of old.old.0 (in_row size bitmap row.old)) }
    ensures { Exchanges S.value_of K.cmp K.path_of level stamp.0 (Q.key_of key) value (C.holds condition.now) (branch_of old.old.0 (in_row size bitmap row.old)) result (branch_of old.new.0 (in_row size bitmap row.new)) }
{
    exchange_below(
        bitmap, old, size, row, key, path, value, stamp, level, condition,
    )
}

/// An exchange below a branch in a row of 8 places, which nobody else holds.
#[cycle(exchange)]
fn exchange_in_eight<K: PathKey, V, S: Slots<K, V>, Q: Sought<K>, C: Condition<V>>(
    bitmap: u32,
    old: &mut Stamp,
    size: u64,
    row: &mut [Node<K, V, S>; 8],
    key: Q,
    path: Path,
    value: S::Value,
    stamp: Stamp,
    level: u32,
    condition: &C,
) -> Exchange<V, S>
    requires path { path.0 ≡ K.path_of (Q.key_of key) }
    requires trie { IsTrie K.cmp K.path_of level (branch_of old.old.0 (in_row size bitmap row.old)) }
    ensures { Exchanges S.value_of K.cmp K.path_of level stamp.0 (Q.key_of key) value (C.holds condition.now) (branch_of old.old.0 (in_row size bitmap row.old)) result (branch_of old.new.0 (in_row size bitmap row.new)) }
{
    exchange_below(
        bitmap, old, size, row, key, path, value, stamp, level, condition,
    )
}

/// An exchange below a branch in a row of 16 places, which nobody else holds.
#[cycle(exchange)]
fn exchange_in_sixteen<K: PathKey, V, S: Slots<K, V>, Q: Sought<K>, C: Condition<V>>(
    bitmap: u32,
    old: &mut Stamp,
    size: u64,
    row: &mut [Node<K, V, S>; 16],
    key: Q,
    path: Path,
    value: S::Value,
    stamp: Stamp,
    level: u32,
    condition: &C,
) -> Exchange<V, S>
    requires path { path.0 ≡ K.path_of (Q.key_of key) }
    requires trie { IsTrie K.cmp K.path_of level (branch_of old.old.0 (in_row size bitmap row.old)) }
    ensures { Exchanges S.value_of K.cmp K.path_of level stamp.0 (Q.key_of key) value (C.holds condition.now) (branch_of old.old.0 (in_row size bitmap row.old)) result (branch_of old.new.0 (in_row size bitmap row.new)) }
{
    exchange_below(
        bitmap, old, size, row, key, path, value, stamp, level, condition,
    )
}

/// An exchange below a branch in a row of 32 places, which nobody else holds.
#[cycle(exchange)]
fn exchange_in_all<K: PathKey, V, S: Slots<K, V>, Q: Sought<K>, C: Condition<V>>(
    bitmap: u32,
    old: &mut Stamp,
    size: u64,
    row: &mut [Node<K, V, S>; 32],
    key: Q,
    path: Path,
    value: S::Value,
    stamp: Stamp,
    level: u32,
    condition: &C,
) -> Exchange<V, S>
    requires path { path.0 ≡ K.path_of (Q.key_of key) }
    requires trie { IsTrie K.cmp K.path_of level (branch_of old.old.0 (in_row size bitmap row.old)) }
    ensures { Exchanges S.value_of K.cmp K.path_of level stamp.0 (Q.key_of key) value (C.holds condition.now) (branch_of old.old.0 (in_row size bitmap row.old)) result (branch_of old.new.0 (in_row size bitmap row.new)) }
{
    exchange_below(
        bitmap, old, size, row, key, path, value, stamp, level, condition,
    )
}

/// An exchange below a branch whose row nobody else holds.
#[cycle(exchange)]
fn exchange_below<K: PathKey, V, S: Slots<K, V>, Q: Sought<K>, C: Condition<V>>(
    bitmap: u32,
    old: &mut Stamp,
    size: u64,
    row: &mut [Node<K, V, S>],
    key: Q,
    path: Path,
    value: S::Value,
    stamp: Stamp,
    level: u32,
    condition: &C,
) -> Exchange<V, S>
    requires path { path.0 ≡ K.path_of (Q.key_of key) }
    requires trie { IsTrie K.cmp K.path_of level (branch_of old.old.0 (in_row size bitmap row.old)) }
    ensures { Exchanges S.value_of K.cmp K.path_of level stamp.0 (Q.key_of key) value (C.holds condition.now) (branch_of old.old.0 (in_row size bitmap row.old)) result (branch_of old.new.0 (in_row size bitmap row.new)) }
{
    let digit = path.digit(level);
    if !has_digit(bitmap, digit) {
        return Exchange::Elsewhere(value);
    }
    let at = place(bitmap, digit);
    match exchange_at(&mut row[at], key, path, value, stamp, level + 1, condition) {
        Exchange::Done(previous) => {
            *old = stamp;
            Exchange::Done(previous)
        }
        Exchange::Elsewhere(value) => Exchange::Elsewhere(value),
    }
}
