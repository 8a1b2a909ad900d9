//! What a removal did to a subtree.

use slots::{Pair, Shared, Slots};
use trie_shape::Node;

/// What a removal did to a subtree.
#[derive(Drop)]
pub enum Removal<'a, K, V, S: Slots<K, V> = Shared> {
    /// Nothing was removed. It has the key's pair, if the key is there.
    Nothing(Option<&'a Pair<K, V, S>>),
    /// The pair was the only one. It is lent.
    Gone(&'a Pair<K, V, S>),
    /// The node is left, without the pair, which is lent.
    Left(Node<K, V, S>, &'a Pair<K, V, S>),
}
