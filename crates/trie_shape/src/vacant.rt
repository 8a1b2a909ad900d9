//! Rows with no node yet.

use crate::node::Node;
use slots::Slots;

/// 2 vacant places.
pub(crate) fn vacant_two<K, V, S: Slots<K, V>>() -> [Node<K, V, S>; 2] {
    [Node::Vacant, Node::Vacant]
}

/// 4 vacant places.
pub(crate) fn vacant_four<K, V, S: Slots<K, V>>() -> [Node<K, V, S>; 4] {
    [Node::Vacant, Node::Vacant, Node::Vacant, Node::Vacant]
}

/// 8 vacant places.
pub(crate) fn vacant_eight<K, V, S: Slots<K, V>>() -> [Node<K, V, S>; 8] {
    [
        Node::Vacant,
        Node::Vacant,
        Node::Vacant,
        Node::Vacant,
        Node::Vacant,
        Node::Vacant,
        Node::Vacant,
        Node::Vacant,
    ]
}

/// 16 vacant places.
pub(crate) fn vacant_sixteen<K, V, S: Slots<K, V>>() -> [Node<K, V, S>; 16] {
    [
        Node::Vacant,
        Node::Vacant,
        Node::Vacant,
        Node::Vacant,
        Node::Vacant,
        Node::Vacant,
        Node::Vacant,
        Node::Vacant,
        Node::Vacant,
        Node::Vacant,
        Node::Vacant,
        Node::Vacant,
        Node::Vacant,
        Node::Vacant,
        Node::Vacant,
        Node::Vacant,
    ]
}

/// 32 vacant places.
pub(crate) fn vacant_all<K, V, S: Slots<K, V>>() -> [Node<K, V, S>; 32] {
    [
        Node::Vacant,
        Node::Vacant,
        Node::Vacant,
        Node::Vacant,
        Node::Vacant,
        Node::Vacant,
        Node::Vacant,
        Node::Vacant,
        Node::Vacant,
        Node::Vacant,
        Node::Vacant,
        Node::Vacant,
        Node::Vacant,
        Node::Vacant,
        Node::Vacant,
        Node::Vacant,
        Node::Vacant,
        Node::Vacant,
        Node::Vacant,
        Node::Vacant,
        Node::Vacant,
        Node::Vacant,
        Node::Vacant,
        Node::Vacant,
        Node::Vacant,
        Node::Vacant,
        Node::Vacant,
        Node::Vacant,
        Node::Vacant,
        Node::Vacant,
        Node::Vacant,
        Node::Vacant,
    ]
}
