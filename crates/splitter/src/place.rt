//! Where the pairs of a piece stand in the trie.

ghost use Rattle.std.specs.Prelude.{◌≡◌, ◌≤◌, IfOk, length};
ghost use Rattle.iter.specs.Subtries.{children_between, pairs_of_all};
ghost use Rattle.trie_shape.specs.Outline.{children};
ghost use Rattle.trie_shape.specs.Shape.{Fits};
ghost use Rattle.trie_shape.specs.Tree.{entries};
ghost use Rattle.trie_shape.specs.View.{tree};

use hash_path::Word;
use trie_node::{NoMemory, Node, Slots, bitmap_counts_children, child, size};

/// Some children of a branch, from one number on and below another, and what is known of the branch:
/// its bitmap, its level, and the least position with the digits that the words below it share.
#[derive(Drop)]
pub(crate) struct Place<K, V, S: Slots<K, V>> {
    pub(crate) branch: Node<K, V, S>,
    pub(crate) bitmap: u32,
    pub(crate) level: u32,
    pub(crate) base: Word,
    pub(crate) from: u32,
    pub(crate) to: u32,
}

/// The same of a branch that is lent.
#[derive(Drop)]
pub(crate) struct Spot<'a, K, V, S: Slots<K, V>> {
    pub(crate) branch: &'a Node<K, V, S>,
    pub(crate) bitmap: u32,
    pub(crate) level: u32,
    pub(crate) base: Word,
    pub(crate) from: u32,
    pub(crate) to: u32,
}

impl<'a, K, V, S: Slots<K, V>> Spot<'a, K, V, S>
where
    S::Key: Drop,
    S::Value: Drop,
{
    /// The place of some of the branch's children.
    pub(crate) fn place(&self, from: u32, to: u32) -> Result<Place<K, V, S>, NoMemory>
        ensures branch { IfOk result (λ place. tree place.branch ≡ tree self.now.branch.now) }
        ensures bitmap { IfOk result (λ place. place.bitmap ≡ self.now.bitmap) }
        ensures level { IfOk result (λ place. place.level ≡ self.now.level) }
        ensures base { IfOk result (λ place. place.base ≡ self.now.base) }
        ensures from { IfOk result (λ place. place.from ≡ from) }
        ensures to { IfOk result (λ place. place.to ≡ to) }
    {
        Ok(Place {
            branch: self.branch.try_clone()?,
            bitmap: self.bitmap,
            level: self.level,
            base: self.base,
            from,
            to,
        })
    }
}

/// How many pairs some children of a branch have, from one number on and below another.
pub(crate) fn count_between<K, V, S: Slots<K, V>>(branch: &Node<K, V, S>, from: u32, to: u32) -> u64
    requires fits { Fits (tree branch.now) }
    requires order { from ≤ to }
    requires within { to ≤ length (children (tree branch.now)) }
    requires all { length (pairs_of_all (children (tree branch.now))) ≡ length (entries (tree branch.now)) }
    ensures { result ≡ length (pairs_of_all (children_between (tree branch.now) from to)) }
{
    bitmap_counts_children::<K, V>();
    let _all = size(branch);
    let mut total = 0;
    for n in from..to {
        total += size(child(branch, n));
    }
    total
}
