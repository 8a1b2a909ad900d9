//! What a walk has still to enter.

ghost use Rattle.std.specs.Prelude.{◌≡◌, ◌+◌, ◌<◌, ◌≤◌, ◌++◌, ◌^◌, [], length, map, IfNone, IfSome};
ghost use Rattle.hash_path.specs.Digits.{last_level};
ghost use Rattle.trie_shape.specs.Outline.{children};
ghost use Rattle.trie_shape.specs.Tree.{IsTrie};
ghost use Rattle.trie_shape.specs.View.{pair_values, tree};
ghost use Rattle.iter.specs.Bunches.{IsFew, pairs_at};
ghost use Rattle.iter.specs.Subtries.{children_between, nodes_of_all, pairs_of_all};
ghost use Rattle.iter.specs.Stacks.{IsSound, subtries};

use crate::children::Children;
use hash_path::{PathKey, WORD_DIGITS};
use smallvec::SmallVec;
use std::alloc::Global;
use std::mem;
use trie_node::{
    Look, Node, Pair, Slots, bitmap_counts_children, branch_is_its_children, leaf_is_its_pairs,
    look, size, trie_follows_digits,
};

/// How many nodes a path has at most: a branch for each digit, and a leaf or bucket.
const MOST_ON_PATH: usize = WORD_DIGITS as usize + 1;

/// Where a walk stops that takes many pairs at a time.
#[derive(Drop)]
pub(crate) enum Chunk<'a, K, V, S: Slots<K, V>> {
    /// A subtrie of few pairs.
    Few(&'a Node<K, V, S>),
    /// The pairs of a bucket that has more.
    Bucket(&'a [Pair<K, V, S>]),
}

/// The subtries that a walk has still to enter: children of the branch that it entered last, and of
/// the branches above that one, the lowest of them last.
#[derive(Drop)]
pub(crate) struct Ahead<'a, K, V, S: Slots<K, V>> {
    pub(crate) here: Children<'a, K, V, S>,
    pub(crate) above: SmallVec<Children<'a, K, V, S>, MOST_ON_PATH, Global>,
    pub(crate) level: u32,
    pub(crate) entered: u64,
}

impl<'a, K: PathKey, V, S: Slots<K, V>> Ahead<'a, K, V, S> {
    /// Some children of a branch that stands at a level. The branch itself has been entered.
    pub(crate) fn below(
        alloc: Global,
        branch: &'a Node<K, V, S>,
        level: u32,
        from: u32,
        to: u32,
    ) -> Ahead<'a, K, V, S>
        requires trie { IsTrie K.cmp K.path_of level (tree branch.now) }
        requires level { level ≤ last_level }
        requires order { from ≤ to }
        requires within { to ≤ length (children (tree branch.now)) }
        ensures subtries { subtries result ≡ children_between (tree branch.now) from to }
        ensures entered { result.entered ≡ 1 }
        ensures sound { IsSound K.cmp K.path_of result }
    {
        trie_follows_digits::<K, V>();
        Ahead {
            here: Children::between(branch, from, to),
            above: SmallVec::new(alloc),
            level: level + 1,
            entered: 1,
        }
    }

    /// Enters subtries up to the next leaf or bucket and gives its pairs, where there is one.
    pub(crate) fn next_leaf(&mut self) -> Option<&'a [Pair<K, V, S>]>
        requires sound { IsSound K.cmp K.path_of self.old }
        ensures sound { IsSound K.cmp K.path_of self.new }
        ensures some { IfSome result (λ pairs. pairs_of_all (subtries self.old) ≡ map pair_values pairs.now ++ pairs_of_all (subtries self.new)) }
        ensures pairs { IfSome result (λ pairs. 0 < length pairs.now) }
        ensures none { IfNone result ((pairs_of_all (subtries self.old) ≡ []) × (subtries self.new ≡ [])) }
        ensures nodes { self.old.entered + nodes_of_all (subtries self.old) < 2 ^ 64 → self.new.entered + nodes_of_all (subtries self.new) ≡ self.old.entered + nodes_of_all (subtries self.old) }
    {
        bitmap_counts_children::<K, V>();
        branch_is_its_children::<K, V>();
        leaf_is_its_pairs::<K, V>();
        trie_follows_digits::<K, V>();
        loop {
            let Some(node) = self.here.take_first() else {
                self.here = self.above.pop()?;
                self.level -= 1;
                continue;
            };
            self.entered = self.entered.saturating_add(1);
            match look(node) {
                Look::Pairs(pairs) => return Some(pairs),
                Look::Branch(bitmap) => {
                    let below = Children::between(node, 0, bitmap.count_ones());
                    self.above
                        .push_reserved(mem::replace(&mut self.here, below));
                    self.level += 1;
                }
            }
        }
    }

    /// Enters subtries up to the next one of at most `most` pairs, or bucket of more, and gives it, where there is one.
    /// What it enters it does not count.
    pub(crate) fn next_few(&mut self, most: u64) -> Option<Chunk<'a, K, V, S>>
        requires sound { IsSound K.cmp K.path_of self.old }
        ensures sound { IsSound K.cmp K.path_of self.new }
        ensures some { IfSome result (λ stop. pairs_of_all (subtries self.old) ≡ pairs_at stop ++ pairs_of_all (subtries self.new)) }
        ensures few { IfSome result (λ stop. IsFew most stop) }
        ensures pairs { IfSome result (λ stop. 0 < length (pairs_at stop)) }
        ensures none { IfNone result ((pairs_of_all (subtries self.old) ≡ []) × (subtries self.new ≡ [])) }
    {
        bitmap_counts_children::<K, V>();
        branch_is_its_children::<K, V>();
        leaf_is_its_pairs::<K, V>();
        trie_follows_digits::<K, V>();
        loop {
            let Some(node) = self.here.take_first() else {
                self.here = self.above.pop()?;
                self.level -= 1;
                continue;
            };
            let few = size(node) <= most;
            if few {
                return Some(Chunk::Few(node));
            }
            match look(node) {
                Look::Pairs(pairs) => return Some(Chunk::Bucket(pairs)),
                Look::Branch(bitmap) => {
                    let below = Children::between(node, 0, bitmap.count_ones());
                    self.above
                        .push_reserved(mem::replace(&mut self.here, below));
                    self.level += 1;
                }
            }
        }
    }
}
