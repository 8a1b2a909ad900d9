//! A node opened for reading.

ghost use Rattle.std.specs.Prelude.{◌≡◌, ◌<◌, length, get_or};
ghost use Rattle.trie_shape.specs.View.{tree, in_row};
ghost use Rattle.trie_shape.specs.Inside.{Holds, lent};

use crate::node::Node;
use crate::stamps::Stamp;
use slots::{Pair, Shared, Slots};
use std::slice;

/// A branch that is lent: its head, and its children in the order of their digits. For the crates that
/// write whole roots.
#[derive(Drop)]
pub struct Branch<'a, K, V, S: Slots<K, V> = Shared> {
    pub stamp: Stamp,
    pub size: u64,
    pub bitmap: u32,
    pub children: &'a [Node<K, V, S>],
}

/// What a node holds. For the crates that write whole roots.
#[derive(Drop)]
pub enum Contents<'a, K, V, S: Slots<K, V> = Shared> {
    /// A branch.
    Branch(Branch<'a, K, V, S>),
    /// One pair of a leaf, two or more of a bucket, in the order of their keys.
    Pairs(&'a [Pair<K, V, S>]),
}

/// An item of a slice. For the crates that write whole roots.
pub fn nth<K, V, S: Slots<K, V>>(nodes: &[Node<K, V, S>], n: usize) -> &Node<K, V, S>
    requires { n < length nodes.now }
    ensures { result.now ≡ get_or nodes.now n result.now }
{
    &nodes[n]
}

/// A branch from its head and its row.
fn lend<'a, K, V, S: Slots<K, V>>(
    stamp: Stamp,
    size: u64,
    bitmap: u32,
    row: &'a [Node<K, V, S>],
) -> Branch<'a, K, V, S>
    ensures stamp { result.stamp ≡ stamp }
    ensures branch { lent result ≡ in_row size bitmap row.now }
{
    let used = bitmap.count_ones() as usize;
    Branch {
        stamp,
        size,
        bitmap,
        children: row.get(..used).unwrap_or(row),
    }
}

/// What the node holds. For the crates that write whole roots, and for those that read a row of children as a slice.
pub fn open_node<K, V, S: Slots<K, V>>(node: &Node<K, V, S>) -> Contents<'_, K, V, S>
    ensures { Holds result (tree node.now) }
{
    match node {
        Node::Vacant => Contents::Pairs(&[]),
        Node::Leaf { pair, .. } => Contents::Pairs(slice::from_ref(pair)),
        Node::Bucket { pairs, .. } => Contents::Pairs(pairs.as_slice()),
        Node::Two {
            bitmap,
            stamp,
            size,
            row,
        } => Contents::Branch(lend(*stamp, *size, *bitmap, row.as_slice())),
        Node::Four {
            bitmap,
            stamp,
            size,
            row,
        } => Contents::Branch(lend(*stamp, *size, *bitmap, row.as_slice())),
        Node::Eight {
            bitmap,
            stamp,
            size,
            row,
        } => Contents::Branch(lend(*stamp, *size, *bitmap, row.as_slice())),
        Node::Sixteen {
            bitmap,
            stamp,
            size,
            row,
        } => Contents::Branch(lend(*stamp, *size, *bitmap, row.as_slice())),
        Node::All {
            bitmap,
            stamp,
            size,
            row,
        } => Contents::Branch(lend(*stamp, *size, *bitmap, row.as_slice())),
    }
}
