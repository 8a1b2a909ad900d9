//! Two levels are read, by two passes over the children of a node. The first reads of each child one pair, so that a
//! child's row is on its way when the second goes along it.

use crate::fetches::{Fetches, fetch_first};
use slots::Slots;
use trie_shape::{Contents, Node, open_node};

/// Reads the counts of a node's leaves, and of the leaves of its branches; of a bucket those of its first pair.
pub fn fetch_leaves<F: Fetches, K, V, S: Slots<K, V>>(node: &Node<K, V, S>) {
    let Contents::Branch(top) = open_node(node) else {
        return;
    };
    for child in top.children {
        fetch_first_leaf::<F, K, V, S>(child);
    }
    for child in top.children {
        if let Contents::Branch(below) = open_node(child) {
            fetch_row::<F, K, V, S>(below.children);
        }
    }
}

/// Of a leaf the counts, of a branch those of its first child, where that is a leaf.
fn fetch_first_leaf<F: Fetches, K, V, S: Slots<K, V>>(node: &Node<K, V, S>) {
    match open_node(node) {
        Contents::Pairs(pairs) => fetch_first::<F, K, V, S>(pairs),
        Contents::Branch(below) => {
            if let Some(child) = below.children.first() {
                fetch_leaf::<F, K, V, S>(child);
            }
        }
    }
}

/// The same of each leaf of a row.
fn fetch_row<F: Fetches, K, V, S: Slots<K, V>>(row: &[Node<K, V, S>]) {
    for child in row {
        fetch_leaf::<F, K, V, S>(child);
    }
}

/// The same of a node, where it is a leaf.
fn fetch_leaf<F: Fetches, K, V, S: Slots<K, V>>(node: &Node<K, V, S>) {
    if let Contents::Pairs(pairs) = open_node(node) {
        fetch_first::<F, K, V, S>(pairs);
    }
}
