//! A node seen from outside: its size, its stamp, its children and its pairs.

ghost use Rattle.std.specs.Prelude.{◌≡◌, ◌<◌, length, get_or};
ghost use Rattle.trie_shape.specs.Tree.{entries};
ghost use Rattle.trie_shape.specs.View.{tree};
ghost use Rattle.trie_shape.specs.Shape.{Fits};
ghost use Rattle.trie_shape.specs.Outline.{stamp_of, children};
ghost use Rattle.trie_shape.specs.Looks.{Shows};

use crate::contents::{Contents, nth, open_node};
use crate::looks::Look;
use crate::node::Node;
use crate::stamps::Stamp;
use slots::Slots;

/// The number of pairs below a node. It takes no walk: each branch keeps its number.
pub fn size<K, V, S: Slots<K, V>>(node: &Node<K, V, S>) -> u64
    ensures { Fits (tree node.now) → result ≡ length (entries (tree node.now)) }
{
    match open_node(node) {
        Contents::Branch(below) => below.size,
        Contents::Pairs(pairs) => pairs.len() as u64,
    }
}

/// The stamp of a node.
pub fn stamp<K, V, S: Slots<K, V>>(node: &Node<K, V, S>) -> Stamp
    ensures { result.0 ≡ stamp_of (tree node.now) }
{
    match node {
        Node::Vacant => Stamp::LOOSE,
        Node::Leaf { stamp, .. } => *stamp,
        Node::Bucket { stamp, .. } => *stamp,
        Node::Two { stamp, .. } => *stamp,
        Node::Four { stamp, .. } => *stamp,
        Node::Eight { stamp, .. } => *stamp,
        Node::Sixteen { stamp, .. } => *stamp,
        Node::All { stamp, .. } => *stamp,
    }
}

/// The bitmap of a branch, or the pairs of a leaf or bucket.
pub fn look<K, V, S: Slots<K, V>>(node: &Node<K, V, S>) -> Look<'_, K, V, S>
    ensures { Shows result (tree node.now) }
{
    match open_node(node) {
        Contents::Branch(below) => Look::Branch(below.bitmap),
        Contents::Pairs(pairs) => Look::Pairs(pairs),
    }
}

/// The child of a branch by its number, counted from 0 in order of the digits.
pub fn child<K, V, S: Slots<K, V>>(node: &Node<K, V, S>, n: u32) -> &Node<K, V, S>
    requires { n < length (children (tree node.now)) }
    ensures { tree result.now ≡ get_or (children (tree node.now)) n (tree result.now) }
{
    match open_node(node) {
        Contents::Branch(below) => nth(below.children, n as usize),
        Contents::Pairs(_) => unreachable!(),
    }
}
