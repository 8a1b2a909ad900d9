//! A whole subtrie is read level by level: of a leaf its pair, of a branch its row, when all rows of the level above
//! have been read. What lies behind the nodes of one level does not wait for one another, so it comes from memory
//! together.

use crate::fetches::{Fetches, fetch_first};
use arrayvec::ArrayVec;
use slots::Slots;
use trie_shape::{Contents, Node, open_node};

/// How many rows below the first one are read of a subtrie. Where it has more, those are left to the walk itself.
const MOST_ROWS: usize = 64;

/// Rows of children in the order in which they are read, each behind those that lead to it. They lie where the read is
/// made and ask for no memory; a place holds an option, since it has to hold something from the start.
type Rows<'a, K, V, S> = ArrayVec<Option<&'a [Node<K, V, S>]>, MOST_ROWS>;

/// Reads what lies behind the children of a node, and then level by level what lies below them: of each leaf the
/// counts, of a bucket those of its first pair.
pub fn fetch_levels<'a, F: Fetches, K, V, S: Slots<K, V>>(node: &'a Node<K, V, S>) {
    let Contents::Branch(top) = open_node(node) else {
        return;
    };
    let mut rows: Rows<'a, K, V, S> = ArrayVec::new();
    fetch_row::<F, K, V, S>(top.children, &mut rows);
    for n in 0..MOST_ROWS {
        let Some(row) = row_at(&rows, n) else {
            return;
        };
        fetch_row::<F, K, V, S>(row, &mut rows);
    }
}

/// Reads the pairs of a row's leaves, and notes the rows of its branches, as long as there is room.
fn fetch_row<'a, F: Fetches, K, V, S: Slots<K, V>>(
    row: &'a [Node<K, V, S>],
    rows: &mut Rows<'a, K, V, S>,
) {
    for child in row {
        match open_node(child) {
            Contents::Pairs(pairs) => fetch_first::<F, K, V, S>(pairs),
            Contents::Branch(below) => {
                if rows.len() < MOST_ROWS {
                    rows.push(Some(below.children));
                }
            }
        }
    }
}

/// The row that was noted at a number, if one was.
fn row_at<'a, K, V, S: Slots<K, V>>(
    rows: &Rows<'a, K, V, S>,
    n: usize,
) -> Option<&'a [Node<K, V, S>]> {
    *rows.as_slice().get(n)?
}
