//! The children of a branch that is made.
ghost use Rattle.std.specs.Prelude.{◌≡◌, ◌+◌, ◌*◌, ◌<◌, ◌%◌, ◌^◌, ◌++◌, [], ◌∷◌, IfOk, bit_or, length, map, option_map};
ghost use Rattle.std.specs.Int.RustNames.{count_ones};
ghost use Rattle.hash_path.specs.Digits.{fan_out};
ghost use Rattle.trie_filter.specs.Few.{IsFew, items_of};
ghost use Rattle.trie_filter.specs.Passing.{drawn_up};
ghost use Rattle.trie_shape.specs.Shape.{Fits};
ghost use Rattle.trie_shape.specs.Tree.{branch, entries, trees};
ghost use Rattle.trie_shape.specs.View.{tree};

use crate::few::Few;
use slots::Slots;
use std::alloc::Global;
use trie_node::{Look, NoMemory, Node, Stamp, look, size};
use trie_shape::make_branch;

/// The children in the order of their digits, how many pairs they have, and the bitmap of their digits.
#[derive(Drop)]
pub(crate) struct NewBranch<K, V, S: Slots<K, V>> {
    pub(crate) children: Few<Node<K, V, S>>,
    pub(crate) size: u64,
    pub(crate) bitmap: u32,
}

impl<K, V, S: Slots<K, V>> NewBranch<K, V, S>
where
    S::Key: Drop,
    S::Value: Drop,
{
    /// The children and one more, whose digit is above theirs.
    pub(crate) fn with(
        self,
        alloc: Global,
        room: usize,
        digit: u32,
        child: Node<K, V, S>,
    ) -> Result<NewBranch<K, V, S>, NoMemory>
        requires few { IsFew self.children }
        requires digit { digit < fan_out }
        requires fits { Fits (tree child) }
        requires size { self.size + length (entries (tree child)) < 2 ^ 64 }
        ensures children { IfOk result (λ row. map tree (items_of row.children) ≡ map tree (items_of self.children) ++ tree child ∷ []) }
        ensures few { IfOk result (λ row. IsFew row.children) }
        ensures size { IfOk result (λ row. row.size ≡ self.size + length (entries (tree child))) }
        ensures bitmap { IfOk result (λ row. row.bitmap ≡ bit_or self.bitmap (1 * 2 ^ digit % 2 ^ 32)) }
    {
        let size = self.size + size(&child);
        let bitmap = self.bitmap | (1 << digit);
        let children = self.children.with(alloc, room, child)?;
        Ok(NewBranch {
            children,
            size,
            bitmap,
        })
    }

    /// A branch of the children, which are as many as the bitmap has digits.
    pub(crate) fn into_branch(self, alloc: Global, stamp: Stamp) -> Result<Node<K, V, S>, NoMemory>
        requires { length (items_of self.children) ≡ count_ones self.bitmap }
        ensures { IfOk result (λ n. tree n ≡ branch stamp.0 self.size self.bitmap (trees (map tree (items_of self.children)))) }
    {
        let mut children = self.children.into_vec(alloc)?;
        make_branch(
            alloc,
            stamp,
            self.size,
            self.bitmap,
            children.as_mut_slice(),
        )
    }

    /// The subtrie of the children below the root: an only child that is a leaf or bucket stands in the branch's
    /// place, and where there are none there is no subtrie. Neither takes memory.
    pub(crate) fn drawn_up(
        self,
        alloc: Global,
        stamp: Stamp,
    ) -> Result<Option<Node<K, V, S>>, NoMemory>
        requires few { IsFew self.children }
        requires count { length (items_of self.children) ≡ count_ones self.bitmap }
        ensures { IfOk result (λ o. option_map tree o ≡ drawn_up stamp.0 self.size self.bitmap (map tree (items_of self.children))) }
    {
        let NewBranch {
            children,
            size,
            bitmap,
        } = self;
        let mut all = match children {
            Few::Nothing => return Ok(None),
            Few::One(only) => {
                if let Look::Pairs(_) = look(&only) {
                    return Ok(Some(only));
                }
                let mut all = Vec::with_capacity(alloc, 1)?;
                all.push(only)?;
                all
            }
            Few::More(all) => all,
        };
        Ok(Some(make_branch(alloc, stamp, size, bitmap, all.as_mut_slice())?))
    }
}
