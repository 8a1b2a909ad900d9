//! Walks over pairs that are taken from the trie in bunches.

ghost use Rattle.std.specs.Prelude.{◌≡◌, ◌≤◌, length};
ghost use Rattle.std.specs.Iterator.{YieldsFirstBy, item_count};
ghost use Rattle.hash_path.specs.Digits.{last_level};
ghost use Rattle.trie_shape.specs.Outline.{children};
ghost use Rattle.trie_shape.specs.Tree.{IsTrie};
ghost use Rattle.trie_shape.specs.View.{tree};
ghost use Rattle.iter.specs.Subtries.{children_between, pairs_of_all};
ghost use Rattle.iter.specs.Walks.{item};

use crate::ahead::Ahead;
use crate::bunch::Bunch;
use crate::unread_pairs::UnreadPairs;
use arrayvec::ArrayVec;
use hash_path::PathKey;
use std::alloc::Global;
use std::marker::Model;
use trie_node::{KeySlots, Node, Shared, Slots, ValueSlots};

/// The pairs that are still to come, in the order of [`Pairs`](crate::Pairs).
///
/// They are taken from the trie a bunch at a time, mostly all pairs of a small subtrie. So the nodes and values of a
/// bunch are fetched from memory together, where a walk that stops at each pair waits for one after another. No step
/// makes a request for memory: the bunch lies in the walk itself.
#[derive(Drop)]
pub struct BunchedPairs<'a, K: PathKey, V, S: Slots<K, V> = Shared> {
    bunch: Bunch<'a, K, V, S>,
    next: usize,
    after: UnreadPairs<'a, K, V, S>,
}

impl<'a, K: PathKey, V, S: Slots<K, V>> Model for BunchedPairs<'a, K, V, S> {
    ghost use Rattle.std.specs.Prelude.{◌≤◌, ◌++◌, All, IsSome, List, drop, length};
    ghost use Rattle.iter.specs.Bunches.{pairs_held, unread_pairs};
    ghost use Rattle.iter.specs.Stacks.{IsSound};

    ghost Value = { List (K × V) };

    ghost view = { λ a. pairs_held (drop a.next a.bunch.items) ++ unread_pairs a.after };

    ghost invariant = { λ a. IsSound K.cmp K.path_of a.after.ahead × All IsSome a.bunch.items × (a.next ≤ length a.bunch.items) };
}

impl<'a, K: PathKey, V, S: Slots<K, V>> BunchedPairs<'a, K, V, S> {
    /// A walk over the pairs of some children of a branch that stands at a level, from one number on
    /// and below another.
    pub fn below(
        alloc: Global,
        branch: &'a Node<K, V, S>,
        level: u32,
        from: u32,
        to: u32,
    ) -> BunchedPairs<'a, K, V, S>
        requires trie { IsTrie K.cmp K.path_of level (tree branch.now) }
        requires level { level ≤ last_level }
        requires order { from ≤ to }
        requires within { to ≤ length (children (tree branch.now)) }
        ensures { result ≡ pairs_of_all (children_between (tree branch.now) from to) }
    {
        BunchedPairs {
            bunch: ArrayVec::new(),
            next: 0,
            after: UnreadPairs {
                bucket: &[],
                ahead: Ahead::below(alloc, branch, level, from, to),
            },
        }
    }
}

impl<
    'a,
    K: PathKey,
    V,
    S: Slots<K, V> + KeySlots<K, Key = A> + ValueSlots<V, Value = B>,
    A: 'a,
    B: 'a,
> Iterator for BunchedPairs<'a, K, V, S> {
    type Item = (&'a A, &'a B);

    ghost next_gives = { YieldsFirstBy (item S.key_of S.value_of) (λ s. s) };

    ghost remaining = { item_count (λ s. s) };

    fn next(&mut self) -> Option<(&'a A, &'a B)> {
        if self.next == self.bunch.len() {
            self.after.next_bunch(&mut self.bunch);
            self.next = 0;
        }
        let pair = (*self.bunch.as_slice().get(self.next)?)?;
        self.next += 1;
        Some((pair.key_slot(), pair.value_slot()))
    }
}
