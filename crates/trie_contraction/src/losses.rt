//! Branches that lose a pair where they stand.

ghost use Rattle.std.specs.Prelude.{◌≡◌, ◌==◌, ◌<◌, ◌≤◌, ◌+◌, ◌-◌, ◌*◌, ◌%◌, ◌^◌, true, IfSome, IfNone, length, map, slice_index_or, take, bit_and};
ghost use Rattle.std.specs.Int.{bit_at, bit_not, w32};
ghost use Rattle.std.specs.Int.RustNames.{count_ones};
ghost use Rattle.std.specs.List.{remove};
ghost use Rattle.hash_path.specs.Digits.{fan_out};
ghost use Rattle.trie_shape.specs.Tree.{branch, trees};
ghost use Rattle.trie_shape.specs.declared.node.Node.{Node};
ghost use Rattle.trie_shape.specs.View.{tree, branch_of, in_row};
ghost use Rattle.trie_shape.specs.Drawn.{drawn_up};

use crate::contraction::is_pairs;
use slots::Slots;
use std::mem;
use trie_shape::{Node, Stamp};

/// A bitmap without a digit that it has.
fn without_digit(bitmap: u32, digit: u32) -> u32
    requires digit { digit < fan_out }
    requires has { (bit_at bitmap digit == 1) ≡ true }
    ensures value { result ≡ bit_and bitmap (bit_not w32 (1 * 2 ^ digit % 2 ^ 32)) }
    ensures ones { count_ones result + 1 ≡ count_ones bitmap }
{
    bitmap & !(1 << digit)
}

/// Takes the node at a place out of the first `used` of a row. The nodes behind it move up, and the
/// last of the places is vacant then.
fn close_up<K, V, S: Slots<K, V>>(row: &mut [Node<K, V, S>], at: usize, used: usize)
where
    S::Key: Drop,
    S::Value: Drop,
    requires at { at < used }
    requires used { used ≤ length row.old }
    ensures len { length row.new ≡ length row.old }
    ensures row { take (used - 1) row.new ≡ remove (take used row.old) at }
    ensures vacant { (other : Node K V S S.Key S.Value) → slice_index_or row.new (used - 1) other ≡ Node.Vacant }
{
    row[at..used].rotate_left(1);
    row[used - 1] = Node::Vacant;
}

/// Takes the child at a place, which has the digit, out of a branch. Below the root, an only child
/// that is left and is a leaf or bucket is handed out, to take the branch's place.
pub fn lose_child<K, V, S: Slots<K, V>>(
    bitmap: &mut u32,
    stamp: &mut Stamp,
    size: &mut u64,
    row: &mut [Node<K, V, S>],
    digit: u32,
    at: usize,
    new_stamp: Stamp,
    level: u32,
) -> Option<Node<K, V, S>>
where
    S::Key: Drop,
    S::Value: Drop,
    requires digit { digit < fan_out }
    requires has { (bit_at bitmap.old digit == 1) ≡ true }
    requires at { at < count_ones bitmap.old }
    requires row { count_ones bitmap.old ≤ length row.old }
    requires size { 0 < size.old }
    ensures gives { IfSome result (λ n. tree n ≡ drawn_up level (branch new_stamp.0 (size.old - 1) (bit_and bitmap.old (bit_not w32 (1 * 2 ^ digit % 2 ^ 32))) (trees (remove (map tree (take (count_ones bitmap.old) row.old)) at)))) }
    ensures stays { IfNone result (branch_of stamp.new.0 (in_row size.new bitmap.new row.new) ≡ drawn_up level (branch new_stamp.0 (size.old - 1) (bit_and bitmap.old (bit_not w32 (1 * 2 ^ digit % 2 ^ 32))) (trees (remove (map tree (take (count_ones bitmap.old) row.old)) at)))) }
{
    let used = bitmap.count_ones() as usize;
    if level > 0 && used == 2 {
        if is_pairs(&row[1 - at]) {
            return Some(mem::replace(&mut row[1 - at], Node::Vacant));
        }
    }
    close_up(row, at, used);
    *size -= 1;
    *bitmap = without_digit(*bitmap, digit);
    *stamp = new_stamp;
    None
}

/// Counts a pair out of a branch whose child has lost it. Below the root, an only child that is a
/// leaf or bucket is handed out, to take the branch's place.
pub fn count_out<K, V, S: Slots<K, V>>(
    bitmap: u32,
    stamp: &mut Stamp,
    size: &mut u64,
    row: &mut [Node<K, V, S>],
    new_stamp: Stamp,
    level: u32,
) -> Option<Node<K, V, S>>
where
    S::Key: Drop,
    S::Value: Drop,
    requires row { count_ones bitmap ≤ length row.old }
    requires size { 0 < size.old }
    ensures gives { IfSome result (λ n. tree n ≡ drawn_up level (branch new_stamp.0 (size.old - 1) bitmap (trees (map tree (take (count_ones bitmap) row.old))))) }
    ensures stays { IfNone result (branch_of stamp.new.0 (in_row size.new bitmap row.new) ≡ drawn_up level (branch new_stamp.0 (size.old - 1) bitmap (trees (map tree (take (count_ones bitmap) row.old))))) }
{
    if level > 0 && bitmap.count_ones() == 1 {
        if is_pairs(&row[0]) {
            return Some(mem::replace(&mut row[0], Node::Vacant));
        }
    }
    *size -= 1;
    *stamp = new_stamp;
    None
}
