//! Branches that are made: their children are copied or moved into a row of the size that fits.

ghost use Rattle.std.specs.Prelude.{◌≡◌, ◌≤◌, ◌+◌, ◌++◌, IfOk, OnOk, [], ◌∷◌, length, map, take};
ghost use Rattle.std.specs.Int.RustNames.{count_ones};
ghost use Rattle.trie_shape.specs.Tree.{branch, trees};
ghost use Rattle.trie_shape.specs.View.{tree};
ghost use Rattle.trie_shape.specs.Shape.{nodes};
ghost use Rattle.trie_shape.specs.Roots.{IsRoot, map_of, word_of};

use crate::no_memory::NoMemory;
use crate::node::Node;
use crate::stamps::Stamp;
use crate::vacant::{vacant_all, vacant_eight, vacant_four, vacant_sixteen, vacant_two};
use hash_path::PathKey;
use slots::Slots;
use std::alloc::Global;
use std::sync::Arc;

/// Puts handles on the same nodes in the places of a row from one on.
fn copy_to<K, V, S: Slots<K, V>>(
    row: &mut [Node<K, V, S>],
    from: usize,
    nodes: &[Node<K, V, S>],
) -> Result<(), NoMemory>
where
    S::Key: Drop,
    S::Value: Drop,
    requires room { from + length nodes.now ≤ length row.old }
    ensures len { OnOk result (length row.new ≡ length row.old) }
    ensures row { OnOk result (map tree (take (from + length nodes.now) row.new) ≡ map tree (take from row.old) ++ map tree nodes.now) }
{
    for i in 0..nodes.len() {
        row[from + i] = nodes[i].try_clone()?;
    }
    Ok(())
}

/// Moves nodes to the places of a row from one on. What stood there stands in the buffer then.
fn move_to<K, V, S: Slots<K, V>>(
    row: &mut [Node<K, V, S>],
    from: usize,
    nodes: &mut [Node<K, V, S>],
)
where
    S::Key: Drop,
    S::Value: Drop,
    requires room { from + length nodes.old ≤ length row.old }
    ensures len { length row.new ≡ length row.old }
    ensures row { take (from + length nodes.old) row.new ≡ take from row.old ++ nodes.old }
{
    row[from..from + nodes.len()].swap_with_slice(nodes);
}

/// Fills the first places of a row: with handles on the nodes in front, with the nodes in the middle,
/// which are moved out of the buffer they stand in, and with handles on the nodes behind.
fn place_parts<K, V, S: Slots<K, V>>(
    row: &mut [Node<K, V, S>],
    front: &[Node<K, V, S>],
    middle: &mut [Node<K, V, S>],
    back: &[Node<K, V, S>],
) -> Result<(), NoMemory>
where
    S::Key: Drop,
    S::Value: Drop,
    requires room { length front.now + length middle.old + length back.now ≤ length row.old }
    ensures { OnOk result (map tree (take (length front.now + length middle.old + length back.now) row.new) ≡ map tree front.now ++ map tree middle.old ++ map tree back.now) }
{
    let next = front.len() + middle.len();
    copy_to(row, 0, front)?;
    move_to(row, front.len(), middle);
    copy_to(row, next, back)
}

/// A row with these children in its first places. The memory is requested last and at once.
fn row_of_parts<K, V, S: Slots<K, V>, const N: usize>(
    alloc: Global,
    vacant: [Node<K, V, S>; N],
    front: &[Node<K, V, S>],
    middle: &mut [Node<K, V, S>],
    back: &[Node<K, V, S>],
) -> Result<Arc<[Node<K, V, S>; N], Global>, NoMemory>
where
    S::Key: Drop,
    S::Value: Drop,
    requires room { length front.now + length middle.old + length back.now ≤ N }
    ensures { IfOk result (λ row. map tree (take (length front.now + length middle.old + length back.now) row.value) ≡ map tree front.now ++ map tree middle.old ++ map tree back.now) }
{
    let mut row = vacant;
    place_parts(&mut row, front, middle, back)?;
    Ok(Arc::new(alloc, row)?)
}

/// A branch of these children, with one request for memory: handles on the nodes in front, the nodes in
/// the middle, which are moved out of the buffer they stand in, and handles on the nodes behind. For the
/// crates that write whole roots.
pub fn branch_of_parts<K, V, S: Slots<K, V>>(
    alloc: Global,
    stamp: Stamp,
    size: u64,
    bitmap: u32,
    front: &[Node<K, V, S>],
    middle: &mut [Node<K, V, S>],
    back: &[Node<K, V, S>],
) -> Result<Node<K, V, S>, NoMemory>
where
    S::Key: Drop,
    S::Value: Drop,
    requires count { length front.now + length middle.old + length back.now ≡ count_ones bitmap }
    ensures { IfOk result (λ n. tree n ≡ branch stamp.0 size bitmap (trees (map tree front.now ++ map tree middle.old ++ map tree back.now))) }
{
    let used = bitmap.count_ones();
    if used <= 2 {
        return Ok(Node::Two {
            bitmap,
            stamp,
            size,
            row: row_of_parts(alloc, vacant_two(), front, middle, back)?,
        });
    }
    if used <= 4 {
        return Ok(Node::Four {
            bitmap,
            stamp,
            size,
            row: row_of_parts(alloc, vacant_four(), front, middle, back)?,
        });
    }
    if used <= 8 {
        return Ok(Node::Eight {
            bitmap,
            stamp,
            size,
            row: row_of_parts(alloc, vacant_eight(), front, middle, back)?,
        });
    }
    if used <= 16 {
        return Ok(Node::Sixteen {
            bitmap,
            stamp,
            size,
            row: row_of_parts(alloc, vacant_sixteen(), front, middle, back)?,
        });
    }
    Ok(Node::All {
        bitmap,
        stamp,
        size,
        row: row_of_parts(alloc, vacant_all(), front, middle, back)?,
    })
}

/// A branch of these children, which are moved out of the buffer they stand in. If memory runs out,
/// they are gone. For the crates that write whole roots.
pub fn make_branch<K, V, S: Slots<K, V>>(
    alloc: Global,
    stamp: Stamp,
    size: u64,
    bitmap: u32,
    children: &mut [Node<K, V, S>],
) -> Result<Node<K, V, S>, NoMemory>
where
    S::Key: Drop,
    S::Value: Drop,
    requires { length children.old ≡ count_ones bitmap }
    ensures { IfOk result (λ n. tree n ≡ branch stamp.0 size bitmap (trees (map tree children.old))) }
{
    let none = [];
    branch_of_parts(alloc, stamp, size, bitmap, &none, children, &none)
}

/// The root of the empty map.
pub fn empty_root<K: PathKey, V, S: Slots<K, V>>(
    alloc: Global,
    stamp: Stamp,
) -> Result<Node<K, V, S>, NoMemory>
where
    S::Key: Drop,
    S::Value: Drop,
    ensures root { IfOk result (λ n. IsRoot K.cmp K.path_of (tree n)) }
    ensures map { IfOk result (λ n. map_of K.cmp (tree n) ≡ []) }
    ensures nodes { IfOk result (λ n. nodes (word_of K.path_of) (tree n) ≡ ([], stamp.0) ∷ []) }
{
    let mut none = Vec::new(alloc);
    make_branch(alloc, stamp, 0, 0, none.as_mut_slice())
}
