//! A pair put as a leaf of a branch whose row nobody else holds.

ghost use Rattle.std.specs.Prelude.{◌≡◌, ◌==◌, ◌<◌, ◌≤◌, ◌+◌, ◌^◌, length, take, IfOk, OnErr, None, true, false};
ghost use Rattle.std.specs.Int.{bit_at};
ghost use Rattle.std.specs.Int.RustNames.{count_ones};
ghost use Rattle.hash_path.specs.Digits.{fan_out};
ghost use Rattle.trie_shape.specs.View.{branch_of, in_row};
ghost use Rattle.trie_puts.specs.PutInside.{PutsLeaf, with_leaf};

use crate::change::Change;
use crate::put_in_place::PutInside;
use hash_path::PathKey;
use slots::Slots;
use std::alloc::Global;
use trie_copy::{NewPair, holds_of_absent};
use trie_shape::{Condition, NoMemory, Node, Stamp, gain_child, make_leaf, outgrow};

/// A put of a key whose digit no child of a branch has, where nobody else holds the branch's row: a
/// leaf among its children, in a row of the next size if this one is full.
pub(crate) fn put_leaf<K: PathKey, V, S: Slots<K, V>, C: Condition<V>>(
    alloc: Global,
    bitmap: &mut u32,
    stamp: &mut Stamp,
    size: &mut u64,
    row: &mut [Node<K, V, S>],
    digit: u32,
    at: usize,
    entry: NewPair<K, V, S>,
    condition: &C,
) -> Result<PutInside<K, V, S>, NoMemory>
where
    S::Key: Drop,
    S::Value: Drop,
    requires digit { digit < fan_out }
    requires lacks { (bit_at bitmap.old digit == 1) ≡ false }
    requires at { at ≤ count_ones bitmap.old }
    requires row { count_ones bitmap.old ≤ length row.old }
    requires size { size.old + 1 < 2 ^ 64 }
    ensures ok { IfOk result (λ r. PutsLeaf entry (C.holds condition.now None) (with_leaf entry size.old bitmap.old digit at (take (count_ones bitmap.old) row.old)) (branch_of stamp.old.0 (in_row size.old bitmap.old row.old)) r (branch_of stamp.new.0 (in_row size.new bitmap.new row.new))) }
    ensures due { OnErr result (C.holds condition.now None ≡ true) }
    ensures err { OnErr result (branch_of stamp.new.0 (in_row size.new bitmap.new row.new) ≡ branch_of stamp.old.0 (in_row size.old bitmap.old row.old)) }
{
    if !holds_of_absent(condition) {
        return Ok(PutInside::Done(Change {
            previous: None,
            written: false,
        }));
    }
    let NewPair {
        pair,
        stamp: new_stamp,
        ..
    } = entry;
    let leaf = make_leaf(new_stamp, pair);
    if bitmap.count_ones() as usize == row.len() {
        let grown = outgrow(alloc, *bitmap, *size, row, digit, at, leaf, new_stamp)?;
        return Ok(PutInside::GivesWay(grown));
    }
    gain_child(bitmap, stamp, size, row, digit, at, leaf, new_stamp);
    Ok(PutInside::Done(Change {
        previous: None,
        written: true,
    }))
}
