//! The pairs with the highest scores, by a plain closure.
use crate::ranked::Ranked;
use closure_ops::answer_in;
use combiner::BulkIn;
use hash_path::PathKey;
use std::alloc::Global;
use trie_node::{KeySlots, NoMemory, Node, Slots, ValueSlots};

/// The `most` pairs with the highest scores, or all pairs where there are fewer. It is never settled before all pairs
/// are scored.
#[derive(Drop)]
pub struct TopPairs<F> {
    /// How many pairs are listed at most.
    pub most: usize,
    /// The score of a pair, a closure on it.
    pub score: F,
}

impl<
    K: PathKey,
    V,
    S: Slots<K, V> + KeySlots<K, Key = A> + ValueSlots<V, Value = B>,
    A: Drop,
    B: Drop,
    N: Ord + Copy,
    F: Fn(&K, &V) -> N,
> BulkIn<K, V, S> for TopPairs<F> {
    type Part = Ranked<K, V, N, S>;

    ghost use Rattle.bulk_ops.specs.Meanings.{MayAnswer};
    ghost use Rattle.top_pairs.specs.Ranks.{IsTop};

    ghost answers = { λ top m listed. IsTop N.cmp top.most (MayAnswer F.Fn top.score) m listed };

    ghost decides = { λ top m. ⊥ };

    ghost ready = { λ top. F.IsAlwaysCallable top.score };

    fn unit(&self, alloc: Global) -> Result<Ranked<K, V, N, S>, NoMemory> {
        Ok(Ranked::none(alloc))
    }

    fn one(&self, alloc: Global, key: &A, value: &B) -> Result<Ranked<K, V, N, S>, NoMemory> {
        let mut listed = Ranked::none(alloc);
        listed.offer(
            self.most,
            answer_in::<K, V, S, _, _>(&self.score, key, value),
            key,
            value,
        )?;
        Ok(listed)
    }

    fn join(
        &self,
        alloc: Global,
        a: &Ranked<K, V, N, S>,
        b: &Ranked<K, V, N, S>,
    ) -> Result<Ranked<K, V, N, S>, NoMemory> {
        a.joined(alloc, b, self.most)
    }

    fn settled(&self, _part: &Ranked<K, V, N, S>) -> bool {
        false
    }

    fn add(
        &self,
        _alloc: Global,
        part: &mut Ranked<K, V, N, S>,
        key: &A,
        value: &B,
    ) -> Result<(), NoMemory> {
        part.offer(
            self.most,
            answer_in::<K, V, S, _, _>(&self.score, key, value),
            key,
            value,
        )
    }

    fn of_root(
        &self,
        _alloc: Global,
        _root: &Node<K, V, S>,
    ) -> Result<Option<Ranked<K, V, N, S>>, NoMemory> {
        Ok(None)
    }

    fn join_root(
        &self,
        _alloc: Global,
        part: Ranked<K, V, N, S>,
        _root: &Node<K, V, S>,
    ) -> Result<Result<Ranked<K, V, N, S>, Ranked<K, V, N, S>>, NoMemory> {
        Ok(Err(part))
    }
}
