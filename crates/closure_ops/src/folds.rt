//! The items of all pairs combined, by a plain closure.
use crate::closure::answer_in;
use combiner::{BulkIn, Monoid};
use hash_path::PathKey;
use std::alloc::Global;
use trie_node::{KeySlots, NoMemory, Node, Slots, ValueSlots};

/// The items of all pairs combined by a monoid. It makes no request for memory but those of the monoid, and is never
/// settled before all items are combined.
#[derive(Drop)]
pub struct Folds<'a, M, G> {
    /// What combines the items.
    pub monoid: &'a M,
    /// The item of a pair, a closure on it.
    pub item: G,
}

impl<
    'a,
    K: PathKey,
    V,
    S: Slots<K, V> + KeySlots<K, Key = A> + ValueSlots<V, Value = B>,
    A: Drop,
    B: Drop,
    M: Monoid,
    G: Fn(&K, &V) -> M::Item,
> BulkIn<K, V, S> for Folds<'a, M, G> {
    type Part = M::Item;

    ghost use Rattle.bulk_ops.specs.Meanings.{MayAnswer};
    ghost use Rattle.closure_ops.specs.Parts.{IsFold};

    ghost answers = { λ folds m all. IsFold (M.combine folds.monoid.now) (M.unit_of folds.monoid.now) (MayAnswer G.Fn folds.item) m all };

    ghost decides = { λ folds m. ⊥ };

    ghost ready = { λ folds. G.IsAlwaysCallable folds.item };

    fn unit(&self, _alloc: Global) -> Result<M::Item, NoMemory> {
        Ok(self.monoid.unit())
    }

    fn one(&self, _alloc: Global, key: &A, value: &B) -> Result<M::Item, NoMemory> {
        let item = answer_in::<K, V, S, _, _>(&self.item, key, value);
        Ok(self.monoid.op(&item, &self.monoid.unit()))
    }

    fn join(&self, _alloc: Global, a: &M::Item, b: &M::Item) -> Result<M::Item, NoMemory> {
        Ok(self.monoid.op(a, b))
    }

    fn settled(&self, _part: &M::Item) -> bool {
        false
    }

    fn add(&self, _alloc: Global, part: &mut M::Item, key: &A, value: &B) -> Result<(), NoMemory> {
        let all = self
            .monoid
            .op(&answer_in::<K, V, S, _, _>(&self.item, key, value), part);
        *part = all;
        Ok(())
    }

    fn of_root(&self, _alloc: Global, _root: &Node<K, V, S>) -> Result<Option<M::Item>, NoMemory> {
        Ok(None)
    }

    fn join_root(
        &self,
        _alloc: Global,
        part: M::Item,
        _root: &Node<K, V, S>,
    ) -> Result<Result<M::Item, M::Item>, NoMemory> {
        Ok(Err(part))
    }
}
