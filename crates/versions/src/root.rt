//! The root of a trie, in a type of its own.
ghost use Rattle.std.specs.Prelude.{◌≡◌, IfOk};
ghost use Rattle.trie_shape.specs.View.{tree};

use std::marker::Model;
use std::mem;
use trie_node::{KeySlots, NoMemory, Node, Slots, ValueSlots};

/// The root of a trie. A clause sees its tree.
///
/// That threads may share it, where they may share keys and values, is proved here once, for this type. So the check of
/// a program whose threads share maps does not look into the trie of each.
#[derive(Drop)]
pub(crate) struct Root<
    K,
    V,
    S: Slots<K, V> + KeySlots<K, Key = A> + ValueSlots<V, Value = B>,
    A,
    B,
> {
    node: Node<K, V, S>,
}

impl<K, V, S: Slots<K, V> + KeySlots<K, Key = A> + ValueSlots<V, Value = B>, A, B> Model
    for Root<K, V, S, A, B> {
    ghost use Rattle.std.specs.Borrow.{ftrue};
    ghost use Rattle.trie_shape.specs.Tree.{Tree};
    ghost use Rattle.trie_shape.specs.View.{tree};
    ghost use Rattle.versions.specs.TreeCode.{tree_code};

    ghost Value = { Tree K V };

    ghost coded = { tree_code K.code V.code };

    ghost view = { λ root. tree root.node };

    ghost also_owns = { λ _. ftrue };

    ghost also_shares = { λ _ _ _. ftrue };
}

// A struct with `also_owns` has neither by itself. This one owns nothing beside its node.
unsafe impl<
    K,
    V,
    S: Slots<K, V> + KeySlots<K, Key = A> + ValueSlots<V, Value = B>,
    A: Send + Sync,
    B: Send + Sync,
> Send for Root<K, V, S, A, B> {}

unsafe impl<
    K,
    V,
    S: Slots<K, V> + KeySlots<K, Key = A> + ValueSlots<V, Value = B>,
    A: Send + Sync,
    B: Send + Sync,
> Sync for Root<K, V, S, A, B> {}

impl<K, V, S: Slots<K, V> + KeySlots<K, Key = A> + ValueSlots<V, Value = B>, A, B> Root<
    K,
    V,
    S,
    A,
    B,
> {
    /// A root of the node.
    pub(crate) fn new(node: Node<K, V, S>) -> Root<K, V, S, A, B>
        ensures { result ≡ tree node }
    {
        Root { node }
    }

    /// The node.
    pub(crate) fn node(&self) -> &Node<K, V, S>
        ensures { tree result.now ≡ self.now }
    {
        &self.node
    }

    /// The node, to be written where nobody else holds it. No node is left in its place.
    pub(crate) fn take(&mut self) -> Node<K, V, S>
        ensures { tree result ≡ self.old }
    {
        mem::replace(self, Root::new(Node::Vacant)).node
    }
}

impl<K, V, S: Slots<K, V> + KeySlots<K, Key = A> + ValueSlots<V, Value = B>, A: Drop, B: Drop> Root<
    K,
    V,
    S,
    A,
    B,
> {
    /// Another handle on the same node. No memory is requested, but the clone may be refused.
    pub(crate) fn try_clone(&self) -> Result<Root<K, V, S, A, B>, NoMemory>
        ensures { IfOk result (λ root. root ≡ self.now) }
    {
        Ok(Root::new(self.node.try_clone()?))
    }

    /// Puts a node in its place.
    pub(crate) fn put_back(&mut self, node: Node<K, V, S>)
        ensures { self.new ≡ tree node }
    {
        *self = Root::new(node);
    }
}
