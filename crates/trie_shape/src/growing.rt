//! Branches whose row is full: they gain a child in a row of the next size.

ghost use Rattle.std.specs.Prelude.{◌≡◌, ◌==◌, ◌<◌, ◌≤◌, ◌+◌, ◌*◌, ◌%◌, ◌^◌, false, IfOk, OnOk, OnErr, length, map, take, bit_or};
ghost use Rattle.std.specs.Int.{bit_at};
ghost use Rattle.std.specs.Int.RustNames.{count_ones};
ghost use Rattle.std.specs.List.{insert};
ghost use Rattle.hash_path.specs.Digits.{fan_out};
ghost use Rattle.trie_shape.specs.Tree.{branch, trees};
ghost use Rattle.trie_shape.specs.View.{tree};

use crate::branch_in_place::{open_up, with_digit};
use crate::no_memory::NoMemory;
use crate::node::Node;
use crate::stamps::Stamp;
use crate::vacant::{vacant_all, vacant_eight, vacant_four, vacant_sixteen};
use slots::Slots;
use std::alloc::Global;
use std::sync::Arc;

/// Moves the first `used` nodes of a row to the first places of a longer one, and a node among them.
fn move_among<K, V, S: Slots<K, V>>(
    row: &mut [Node<K, V, S>],
    places: &mut [Node<K, V, S>],
    at: usize,
    used: usize,
    node: Node<K, V, S>,
)
where
    S::Key: Drop,
    S::Value: Drop,
    requires at { at ≤ used }
    requires used { used ≤ length row.old }
    requires room { used < length places.old }
    ensures { take (used + 1) places.new ≡ insert (take used row.old) at node }
{
    row[..used].swap_with_slice(&mut places[..used]);
    open_up(places, at, used, node);
}

/// The same, to the places of an array.
fn move_to_array<K, V, S: Slots<K, V>, const N: usize>(
    row: &mut [Node<K, V, S>],
    places: &mut [Node<K, V, S>; N],
    at: usize,
    used: usize,
    node: Node<K, V, S>,
)
where
    S::Key: Drop,
    S::Value: Drop,
    requires at { at ≤ used }
    requires used { used ≤ length row.old }
    requires room { used < N }
    ensures { take (used + 1) places.new ≡ insert (take used row.old) at node }
{
    move_among(row, places, at, used, node);
}

/// The same, to the array behind a handle. Where another handle is on it, nothing is moved.
fn move_behind<K, V, S: Slots<K, V>, const N: usize>(
    row: &mut [Node<K, V, S>],
    places: &mut Arc<[Node<K, V, S>; N], Global>,
    at: usize,
    used: usize,
    node: Node<K, V, S>,
) -> Result<(), NoMemory>
where
    S::Key: Drop,
    S::Value: Drop,
    requires at { at ≤ used }
    requires used { used ≤ length row.old }
    requires room { used < N }
    ensures ok { OnOk result (take (used + 1) places.new.value ≡ insert (take used row.old) at node) }
    ensures err { OnErr result (row.new ≡ row.old) }
{
    match Arc::get_mut(places) {
        Some(places) => {
            move_to_array(row, places, at, used, node);
            Ok(())
        }
        None => Err(NoMemory),
    }
}

/// A row of vacant places that the first `used` nodes of a shorter one are moved to, and a node among
/// them. The memory is requested first, so that nothing is moved where there is none.
fn moved<K, V, S: Slots<K, V>, const N: usize>(
    alloc: Global,
    vacant: [Node<K, V, S>; N],
    row: &mut [Node<K, V, S>],
    at: usize,
    used: usize,
    node: Node<K, V, S>,
) -> Result<Arc<[Node<K, V, S>; N], Global>, NoMemory>
where
    S::Key: Drop,
    S::Value: Drop,
    requires at { at ≤ used }
    requires used { used ≤ length row.old }
    requires room { used < N }
    ensures ok { IfOk result (λ places. take (used + 1) places.value ≡ insert (take used row.old) at node) }
    ensures err { OnErr result (row.new ≡ row.old) }
{
    let mut places = Arc::new(alloc, vacant)?;
    move_behind(row, &mut places, at, used, node)?;
    Ok(places)
}

/// The branch that `gain_child` would make of a branch whose row is full: its children are moved into
/// a row of the next size, and the new child among them. If memory runs out, nothing is changed.
/// For the crates that write whole roots.
pub fn outgrow<K, V, S: Slots<K, V>>(
    alloc: Global,
    bitmap: u32,
    size: u64,
    row: &mut [Node<K, V, S>],
    digit: u32,
    at: usize,
    child: Node<K, V, S>,
    new_stamp: Stamp,
) -> Result<Node<K, V, S>, NoMemory>
where
    S::Key: Drop,
    S::Value: Drop,
    requires digit { digit < fan_out }
    requires lacks { (bit_at bitmap digit == 1) ≡ false }
    requires at { at ≤ count_ones bitmap }
    requires row { count_ones bitmap ≤ length row.old }
    requires size { size + 1 < 2 ^ 64 }
    ensures ok { IfOk result (λ n. tree n ≡ branch new_stamp.0 (size + 1) (bit_or bitmap (1 * 2 ^ digit % 2 ^ 32)) (trees (insert (map tree (take (count_ones bitmap) row.old)) at (tree child)))) }
    ensures err { OnErr result (row.new ≡ row.old) }
{
    let used = bitmap.count_ones() as usize;
    let bitmap = with_digit(bitmap, digit);
    let stamp = new_stamp;
    let size = size + 1;
    if used < 4 {
        return Ok(Node::Four {
            bitmap,
            stamp,
            size,
            row: moved(alloc, vacant_four(), row, at, used, child)?,
        });
    }
    if used < 8 {
        return Ok(Node::Eight {
            bitmap,
            stamp,
            size,
            row: moved(alloc, vacant_eight(), row, at, used, child)?,
        });
    }
    if used < 16 {
        return Ok(Node::Sixteen {
            bitmap,
            stamp,
            size,
            row: moved(alloc, vacant_sixteen(), row, at, used, child)?,
        });
    }
    Ok(Node::All {
        bitmap,
        stamp,
        size,
        row: moved(alloc, vacant_all(), row, at, used, child)?,
    })
}
