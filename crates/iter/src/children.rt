//! Children of a branch that are still to be entered.

ghost use Rattle.std.specs.Prelude.{◌≡◌, ◌≤◌, [], ◌∷◌, length, MatchOption};
ghost use Rattle.trie_shape.specs.Outline.{children};
ghost use Rattle.trie_shape.specs.View.{tree};
ghost use Rattle.iter.specs.Stacks.{IsWithin, trees_of};
ghost use Rattle.iter.specs.Subtries.{children_between};

use trie_node::{Node, Slots, child};

/// Some children of a branch, in order of their digits.
#[derive(Drop)]
pub(crate) struct Children<'a, K, V, S: Slots<K, V>> {
    pub(crate) branch: Option<&'a Node<K, V, S>>,
    pub(crate) next: u32,
    pub(crate) end: u32,
}

impl<'a, K, V, S: Slots<K, V>> Default for Children<'a, K, V, S> {
    ghost is_default = { λ children. trees_of children ≡ [] };

    fn default() -> Children<'a, K, V, S> {
        Children {
            branch: None,
            next: 0,
            end: 0,
        }
    }
}

impl<'a, K, V, S: Slots<K, V>> Children<'a, K, V, S> {
    /// The children from one number on and below another.
    pub(crate) fn between(node: &'a Node<K, V, S>, from: u32, to: u32) -> Children<'a, K, V, S>
        requires order { from ≤ to }
        requires within { to ≤ length (children (tree node.now)) }
        ensures trees { trees_of result ≡ children_between (tree node.now) from to }
        ensures within { IsWithin result }
    {
        Children {
            branch: Some(node),
            next: from,
            end: to,
        }
    }

    /// Takes the first child, where there is one.
    pub(crate) fn take_first(&mut self) -> Option<&'a Node<K, V, S>>
        requires within { IsWithin self.old }
        ensures first { MatchOption result ((trees_of self.old ≡ []) × (trees_of self.new ≡ [])) (λ node. trees_of self.old ≡ tree node.now ∷ trees_of self.new) }
        ensures within { IsWithin self.new }
    {
        let branch = self.branch?;
        if self.next == self.end {
            return None;
        }
        let first = child(branch, self.next);
        self.next += 1;
        Some(first)
    }
}
