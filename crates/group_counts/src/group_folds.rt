//! The items of each group of a map's pairs combined.
use crate::sums::{add_item, group_at, joined_sums, one_sum};
use closure_ops::{answer_in, no_pairs};
use combiner::{BulkIn, Monoid};
use hash_path::PathKey;
use std::alloc::{AllocError, Global};
use trie_node::{KeySlots, NoMemory, Node, Slots, ValueSlots};
use versions::Version;

/// The map from each group to the items of its pairs, combined by a monoid. It is never settled before all items are
/// combined. Each pair makes two requests for memory, and those of its group's copy.
#[derive(Drop)]
pub struct GroupFolds<'a, M, F, I> {
    /// The group of a pair, a closure on it, which may find no memory for the group.
    pub group: F,
    /// What combines the items.
    pub monoid: &'a M,
    /// The item of a pair, a closure on it.
    pub item: I,
}

impl<
    'a,
    K: PathKey,
    V,
    S: Slots<K, V> + KeySlots<K, Key = A> + ValueSlots<V, Value = B>,
    A: Drop,
    B: Drop,
    G: PathKey + Drop,
    M: Monoid,
    F: Fn(&K, &V) -> Result<G, AllocError>,
    I: Fn(&K, &V) -> M::Item,
> BulkIn<K, V, S> for GroupFolds<'a, M, F, I> {
    type Part = Version<G, M::Item>;

    ghost use Rattle.std.specs.Prelude.{Ok};
    ghost use Rattle.bulk_ops.specs.Meanings.{MayAnswer};
    ghost use Rattle.group_counts.specs.Sums.{IsGroupFold};

    ghost answers = { λ folds m sums. IsGroupFold (M.combine folds.monoid.now) (M.unit_of folds.monoid.now) G.cmp (λ k v g. MayAnswer F.Fn folds.group k v (Ok g)) (MayAnswer I.Fn folds.item) m sums };

    ghost decides = { λ folds m. ⊥ };

    ghost ready = { λ folds. F.IsAlwaysCallable folds.group × I.IsAlwaysCallable folds.item };

    fn unit(&self, alloc: Global) -> Result<Version<G, M::Item>, NoMemory> {
        let none = no_pairs(alloc)?;
        Ok(none)
    }

    fn one(&self, alloc: Global, key: &A, value: &B) -> Result<Version<G, M::Item>, NoMemory> {
        let group = group_at::<K, V, S, _, _>(alloc, &self.group, key, value)?;
        let item = answer_in::<K, V, S, _, _>(&self.item, key, value);
        let sums = one_sum(alloc, self.monoid, group, &item)?;
        Ok(sums)
    }

    fn join(
        &self,
        alloc: Global,
        a: &Version<G, M::Item>,
        b: &Version<G, M::Item>,
    ) -> Result<Version<G, M::Item>, NoMemory> {
        let both = joined_sums(alloc, self.monoid, a, b)?;
        Ok(both)
    }

    fn settled(&self, _part: &Version<G, M::Item>) -> bool {
        false
    }

    fn add(
        &self,
        alloc: Global,
        part: &mut Version<G, M::Item>,
        key: &A,
        value: &B,
    ) -> Result<(), NoMemory> {
        let group = group_at::<K, V, S, _, _>(alloc, &self.group, key, value)?;
        let item = answer_in::<K, V, S, _, _>(&self.item, key, value);
        add_item(alloc, self.monoid, part, group, &item)
    }

    fn of_root(
        &self,
        _alloc: Global,
        _root: &Node<K, V, S>,
    ) -> Result<Option<Version<G, M::Item>>, NoMemory> {
        Ok(None)
    }

    fn join_root(
        &self,
        _alloc: Global,
        part: Version<G, M::Item>,
        _root: &Node<K, V, S>,
    ) -> Result<Result<Version<G, M::Item>, Version<G, M::Item>>, NoMemory> {
        Ok(Err(part))
    }
}
