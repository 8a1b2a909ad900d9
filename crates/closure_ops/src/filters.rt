//! The map of the pairs that pass a plain closure.
use crate::closure::answer_in;
use crate::made::{no_pairs, pair_if};
use combiner::{BulkIn, merge};
use hash_path::PathKey;
use std::alloc::Global;
use std::mem;
use trie_filter::with_passing;
use trie_node::{KeySlots, NoMemory, Node, Slots, Stamp, ValueSlots};
use versions::{MOST_PAIRS, Version};

/// The map of the pairs that pass a test. It is made by the shape of the trie, and is never settled before all pairs are
/// tested.
#[derive(Drop)]
pub struct Filters<F> {
    /// The test, a closure on a pair.
    pub test: F,
}

impl<
    K: PathKey,
    V,
    S: Slots<K, V> + KeySlots<K, Key = A> + ValueSlots<V, Value = B>,
    A: Drop,
    B: Drop,
    F: Fn(&K, &V) -> bool,
> BulkIn<K, V, S> for Filters<F> {
    type Part = Version<K, V, S>;

    ghost use Rattle.bulk_ops.specs.Meanings.{MayAnswer};
    ghost use Rattle.closure_ops.specs.Parts.{IsFiltered};

    ghost answers = { λ filters m made. IsFiltered (MayAnswer F.Fn filters.test) m made };

    ghost decides = { λ filters m. ⊥ };

    ghost ready = { λ filters. F.IsAlwaysCallable filters.test };

    fn unit(&self, alloc: Global) -> Result<Version<K, V, S>, NoMemory> {
        let none = no_pairs(alloc)?;
        Ok(none)
    }

    fn one(&self, alloc: Global, key: &A, value: &B) -> Result<Version<K, V, S>, NoMemory> {
        let passes = answer_in::<K, V, S, _, _>(&self.test, key, value);
        let made = pair_if::<K, V, S>(alloc, passes, key, value)?;
        Ok(made)
    }

    fn join(
        &self,
        alloc: Global,
        a: &Version<K, V, S>,
        b: &Version<K, V, S>,
    ) -> Result<Version<K, V, S>, NoMemory> {
        let both = merge(alloc, a, b)?;
        Ok(both)
    }

    fn settled(&self, _part: &Version<K, V, S>) -> bool {
        false
    }

    fn by_shape(&self) -> bool {
        true
    }

    fn of_root(
        &self,
        alloc: Global,
        root: &Node<K, V, S>,
    ) -> Result<Option<Version<K, V, S>>, NoMemory> {
        let made = with_passing(alloc, root, Stamp::LOOSE, &self.test)?;
        Ok(Some(Version::from_root(made, MOST_PAIRS, Stamp::LOOSE)))
    }

    fn add(
        &self,
        alloc: Global,
        part: &mut Version<K, V, S>,
        key: &A,
        value: &B,
    ) -> Result<(), NoMemory> {
        let one = self.one(alloc, key, value)?;
        let all = self.join(alloc, &one, part);
        // (a drop that is written out is proved once, and not at each return)
        drop(one);
        drop(mem::replace(part, all?));
        Ok(())
    }

    fn join_root(
        &self,
        alloc: Global,
        part: Version<K, V, S>,
        root: &Node<K, V, S>,
    ) -> Result<Result<Version<K, V, S>, Version<K, V, S>>, NoMemory> {
        match self.of_root(alloc, root) {
            Ok(Some(made)) => {
                let all = self.join(alloc, &part, &made);
                drop(made);
                drop(part);
                Ok(Ok(all?))
            }
            Ok(None) => Ok(Err(part)),
            Err(NoMemory) => {
                drop(part);
                Err(NoMemory)
            }
        }
    }
}
