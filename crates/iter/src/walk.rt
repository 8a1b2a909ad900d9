//! Walks over pairs.

ghost use Rattle.std.specs.Prelude.{◌≡◌, ◌+◌, ◌≤◌, [], length};
ghost use Rattle.std.specs.Iterator.{item_count};
ghost use Rattle.hash_path.specs.Digits.{last_level};
ghost use Rattle.trie_shape.specs.Outline.{children};
ghost use Rattle.trie_shape.specs.Tree.{IsTrie};
ghost use Rattle.trie_shape.specs.View.{tree};
ghost use Rattle.iter.specs.Subtries.{children_between, nodes_of_all, pairs_of_all};
ghost use Rattle.iter.specs.Walks.{IsStep};

use crate::ahead::Ahead;
use hash_path::PathKey;
use std::alloc::Global;
use std::marker::Model;
use trie_node::{KeySlots, Node, Pair, Shared, Slots, ValueSlots};

/// The pairs that are still to come, in order of position and, within one position, of key. A step takes amortized
/// O(1), no lock and no memory.
///
/// <!-- quoted from crates/example_cache/src/ages.rt -->
/// ```rust
/// for (number, entry) in cache.view(rt)?.pairs() {
///     if entry.second < second && cache.remove_if(rt, number, entry)? {
///         removed = removed.wrapping_add(1);
///     }
/// }
/// ```
#[derive(Drop)]
pub struct Pairs<'a, K: PathKey, V, S: Slots<K, V> = Shared> {
    leaf: &'a [Pair<K, V, S>],
    ahead: Ahead<'a, K, V, S>,
    left: u64,
}

impl<'a, K: PathKey, V, S: Slots<K, V>> Model for Pairs<'a, K, V, S> {
    ghost use Rattle.std.specs.Prelude.{◌≡◌, ◌+◌, ◌++◌, length, map};
    ghost use Rattle.trie_shape.specs.View.{pair_values};
    ghost use Rattle.iter.specs.Subtries.{nodes_of_all, pairs_of_all};
    ghost use Rattle.iter.specs.Stacks.{IsSound, subtries};
    ghost use Rattle.iter.specs.Walks.{Walk};

    ghost Value = { Walk K V };

    ghost view = { λ a. record { rest = map pair_values a.leaf.now ++ pairs_of_all (subtries a.ahead); nodes = a.ahead.entered + nodes_of_all (subtries a.ahead) } };

    ghost invariant = { λ a. IsSound K.cmp K.path_of a.ahead × (a.left ≡ length (map pair_values a.leaf.now ++ pairs_of_all (subtries a.ahead))) };
}

impl<'a, K: PathKey, V, S: Slots<K, V>> Pairs<'a, K, V, S> {
    /// A walk over the pairs of some children of a branch that stands at a level, from one number on and below another;
    /// `left` is how many pairs they have. It has entered the branch.
    ///
    /// Cost: O(1), no lock. Refused: never.
    pub fn below(
        alloc: Global,
        branch: &'a Node<K, V, S>,
        level: u32,
        from: u32,
        to: u32,
        left: u64,
    ) -> Pairs<'a, K, V, S>
        requires trie { IsTrie K.cmp K.path_of level (tree branch.now) }
        requires level { level ≤ last_level }
        requires order { from ≤ to }
        requires within { to ≤ length (children (tree branch.now)) }
        requires left { left ≡ length (pairs_of_all (children_between (tree branch.now) from to)) }
        ensures rest { result.rest ≡ pairs_of_all (children_between (tree branch.now) from to) }
        ensures nodes { result.nodes ≡ 1 + nodes_of_all (children_between (tree branch.now) from to) }
    {
        Pairs {
            leaf: &[],
            ahead: Ahead::below(alloc, branch, level, from, to),
            left,
        }
    }

    /// How many pairs are still to come.
    ///
    /// Cost: O(1), no lock. Refused: never.
    pub fn left(&self) -> u64
        ensures { result ≡ length self.now.rest }
    {
        self.left
    }

    /// How many nodes the walk has looked into, the first branch among them from the start. At its end it is the number
    /// of all nodes.
    ///
    /// Cost: O(1), no lock. Refused: never.
    pub fn entered(&self) -> u64
        ensures { self.now.rest ≡ [] → result ≡ self.now.nodes }
    {
        self.ahead.entered
    }

    /// The next pair, as `next` gives it. The walk goes on to enter as many nodes in all as before.
    ///
    /// Cost: amortized O(1), no lock. Refused: never.
    pub fn step(&mut self) -> Option<(&'a S::Key, &'a S::Value)>
        ensures { IsStep S.key_of S.value_of self.old result self.new }
    {
        if self.leaf.is_empty() {
            self.leaf = self.ahead.next_leaf()?;
        }
        let (pair, rest) = self.leaf.split_first()?;
        self.leaf = rest;
        self.left -= 1;
        Some((pair.key_slot(), pair.value_slot()))
    }
}

// The keys and values of rows have names here: a walk is an iterator where they live as long as it.
impl<
    'a,
    K: PathKey,
    V,
    S: Slots<K, V> + KeySlots<K, Key = A> + ValueSlots<V, Value = B>,
    A: 'a,
    B: 'a,
> Iterator for Pairs<'a, K, V, S> {
    type Item = (&'a A, &'a B);

    ghost next_gives = { IsStep S.key_of S.value_of };

    ghost remaining = { item_count (λ s. s.rest) };

    fn next(&mut self) -> Option<(&'a A, &'a B)> {
        self.step()
    }
}

impl<
    'a,
    K: PathKey,
    V,
    S: Slots<K, V> + KeySlots<K, Key = A> + ValueSlots<V, Value = B>,
    A: 'a,
    B: 'a,
> ExactSizeIterator for Pairs<'a, K, V, S> {
    fn len(&self) -> usize {
        self.left() as usize
    }
}
