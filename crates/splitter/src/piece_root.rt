//! A piece as a root of its own.

ghost use Rattle.std.specs.Prelude.{◌≡◌, ◌<◌, ◌≤◌, IfOk, length, map};
ghost use Rattle.iter.specs.Intervals.{part};
ghost use Rattle.iter.specs.Subtries.{children_between, pairs_of_all};
ghost use Rattle.splitter.specs.Spots.{IsLoneAt};
ghost use Rattle.trie_shape.specs.Looks.{ShowsBitmap};
ghost use Rattle.trie_shape.specs.Outline.{children};
ghost use Rattle.trie_shape.specs.Roots.{IsRoot, map_of};
ghost use Rattle.trie_shape.specs.Tree.{HasTwoWords, IsTrie, entries};
ghost use Rattle.trie_shape.specs.View.{tree};

use crate::digits::{digits_between, shared_digit};
use crate::piece::Piece;
use crate::place::Spot;
use crate::subtrie_root::{branch_above, root_of_subtrie};
use hash_path::PathKey;
use iter::parts_follow_intervals;
use std::alloc::Global;
use trie_node::{
    Look, NoMemory, Node, Slots, Stamp, branch_is_its_children, child, empty_root, look,
    root_walks_in_order, trie_follows_digits, walk_lists_map,
};
use trie_shape::make_branch;

impl<'a, K, V, S: Slots<K, V>> Spot<'a, K, V, S>
where
    S::Key: Drop,
    S::Value: Drop,
{
    /// Handles on the children.
    fn row(&self, alloc: Global) -> Result<Vec<Node<K, V, S>>, NoMemory>
        requires order { self.now.from ≤ self.now.to }
        requires within { self.now.to ≤ length (children (tree self.now.branch.now)) }
        ensures { IfOk result (λ row. map tree row.items ≡ children_between (tree self.now.branch.now) self.now.from self.now.to) }
    {
        let mut row = Vec::with_capacity(alloc, (self.to - self.from) as usize)?;
        for n in self.from..self.to {
            row.push(child(self.branch, n).try_clone()?)?;
        }
        Ok(row)
    }
}

impl<'a, K: PathKey, V, S: Slots<K, V>> Spot<'a, K, V, S>
where
    S::Key: Drop,
    S::Value: Drop,
{
    /// A branch of the children alone, which have `count` pairs.
    fn alone(&self, alloc: Global, count: u64) -> Result<Node<K, V, S>, NoMemory>
        requires trie { IsTrie K.cmp K.path_of self.now.level (tree self.now.branch.now) }
        requires shown { ShowsBitmap self.now.bitmap (tree self.now.branch.now) }
        requires order { self.now.from ≤ self.now.to }
        requires within { self.now.to ≤ length (children (tree self.now.branch.now)) }
        requires count { count ≡ length (pairs_of_all (children_between (tree self.now.branch.now) self.now.from self.now.to)) }
        requires two { 0 < self.now.level → HasTwoWords K.cmp K.path_of (pairs_of_all (children_between (tree self.now.branch.now) self.now.from self.now.to)) }
        ensures trie { IfOk result (λ n. IsTrie K.cmp K.path_of self.now.level (tree n)) }
        ensures entries { IfOk result (λ n. entries (tree n) ≡ pairs_of_all (children_between (tree self.now.branch.now) self.now.from self.now.to)) }
    {
        trie_follows_digits::<K, V>();
        let bitmap = digits_between(self.bitmap, self.from, self.to);
        let mut row = self.row(alloc)?;
        make_branch(alloc, Stamp::LOOSE, count, bitmap, row.as_mut_slice())
    }

    /// The leaf or bucket that is the only child, where the branch is not a root's. In a root of its pairs it hangs
    /// from the root itself; all other children have pairs of two words or more.
    fn lone(&self) -> Option<&Node<K, V, S>>
        requires trie { IsTrie K.cmp K.path_of self.now.level (tree self.now.branch.now) }
        requires shown { ShowsBitmap self.now.bitmap (tree self.now.branch.now) }
        requires some { self.now.from < self.now.to }
        requires within { self.now.to ≤ length (children (tree self.now.branch.now)) }
        ensures { IsLoneAt K.cmp K.path_of self.now result }
    {
        trie_follows_digits::<K, V>();
        if self.level == 0 || self.to - self.from > 1 {
            return None;
        }
        let only = child(self.branch, self.from);
        match look(only) {
            Look::Branch(_) => None,
            Look::Pairs(_) => Some(only),
        }
    }
}

impl<K: PathKey, V, S: Slots<K, V>> Piece<K, V, S>
where
    S::Key: Drop,
    S::Value: Drop,
{
    /// A root of its own with the pairs of the piece alone. It shares the subtries of the view whole: it makes one
    /// branch of the children that the piece has, and one of one child for each level above. Its new nodes have no
    /// generation's stamp: it is there to be read.
    pub fn root(&self) -> Result<Node<K, V, S>, NoMemory>
        ensures root { IfOk result (λ n. IsRoot K.cmp K.path_of (tree n)) }
        ensures pairs { IfOk result (λ n. map_of K.cmp (tree n) ≡ part K.path_of self.now.map self.now.interval) }
    {
        if self.place.is_none() {
            parts_follow_intervals::<K, V>();
            return self.view.root().try_clone();
        }
        self.cut_root()
    }

    /// The same, with a new branch of the children where the pairs of the piece stand.
    fn cut_root(&self) -> Result<Node<K, V, S>, NoMemory>
        ensures root { IfOk result (λ n. IsRoot K.cmp K.path_of (tree n)) }
        ensures pairs { IfOk result (λ n. map_of K.cmp (tree n) ≡ part K.path_of self.now.map self.now.interval) }
    {
        parts_follow_intervals::<K, V>();
        root_walks_in_order::<K, V>();
        trie_follows_digits::<K, V>();
        walk_lists_map::<K, V>();
        branch_is_its_children::<K, V>();
        let spot = self.spot();
        if spot.from == spot.to {
            return empty_root(self.alloc, Stamp::LOOSE);
        }
        if let Some(only) = spot.lone() {
            return branch_above(self.alloc, only.try_clone()?, shared_digit(spot.base, 0));
        }
        let branch = spot.alone(self.alloc, self.count)?;
        root_of_subtrie(self.alloc, branch, spot.level, spot.base)
    }
}
