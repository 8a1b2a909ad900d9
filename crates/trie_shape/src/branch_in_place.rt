//! Branches that gain a pair where they stand.

ghost use Rattle.std.specs.Prelude.{◌≡◌, ◌==◌, ◌<◌, ◌≤◌, ◌+◌, ◌*◌, ◌%◌, ◌^◌, false, length, map, take, bit_or};
ghost use Rattle.std.specs.Int.{bit_at};
ghost use Rattle.std.specs.Int.RustNames.{count_ones};
ghost use Rattle.std.specs.List.{insert};
ghost use Rattle.hash_path.specs.Digits.{fan_out};
ghost use Rattle.trie_shape.specs.Tree.{branch, trees};
ghost use Rattle.trie_shape.specs.View.{tree, branch_of, in_row};

use crate::node::Node;
use crate::stamps::Stamp;
use slots::Slots;

/// A bitmap with a digit that it lacks.
pub(crate) fn with_digit(bitmap: u32, digit: u32) -> u32
    requires digit { digit < fan_out }
    requires lacks { (bit_at bitmap digit == 1) ≡ false }
    ensures value { result ≡ bit_or bitmap (1 * 2 ^ digit % 2 ^ 32) }
    ensures ones { count_ones result ≡ count_ones bitmap + 1 }
{
    bitmap | (1 << digit)
}

/// Puts a node among the first `used` of a row. What stood in the place behind them is dropped.
pub(crate) fn open_up<K, V, S: Slots<K, V>>(
    row: &mut [Node<K, V, S>],
    at: usize,
    used: usize,
    node: Node<K, V, S>,
)
where
    S::Key: Drop,
    S::Value: Drop,
    requires at { at ≤ used }
    requires used { used < length row.old }
    ensures len { length row.new ≡ length row.old }
    ensures row { take (used + 1) row.new ≡ insert (take used row.old) at node }
{
    row[used] = node;
    row[at..used + 1].rotate_right(1);
}

/// Gives a branch whose row has room one child more, of a digit that no child has, at its place. For
/// the crates that write whole roots.
pub fn gain_child<K, V, S: Slots<K, V>>(
    bitmap: &mut u32,
    stamp: &mut Stamp,
    size: &mut u64,
    row: &mut [Node<K, V, S>],
    digit: u32,
    at: usize,
    child: Node<K, V, S>,
    new_stamp: Stamp,
)
where
    S::Key: Drop,
    S::Value: Drop,
    requires digit { digit < fan_out }
    requires lacks { (bit_at bitmap.old digit == 1) ≡ false }
    requires at { at ≤ count_ones bitmap.old }
    requires row { count_ones bitmap.old < length row.old }
    requires size { size.old + 1 < 2 ^ 64 }
    ensures { branch_of stamp.new.0 (in_row size.new bitmap.new row.new) ≡ branch new_stamp.0 (size.old + 1) (bit_or bitmap.old (1 * 2 ^ digit % 2 ^ 32)) (trees (insert (map tree (take (count_ones bitmap.old) row.old)) at (tree child))) }
{
    let used = bitmap.count_ones() as usize;
    open_up(row, at, used, child);
    *size += 1;
    *bitmap = with_digit(*bitmap, digit);
    *stamp = new_stamp;
}
