//! The map of the same keys, each with what a plain closure makes of its pair.
use crate::closure::answer_in;
use crate::made::{no_pairs, one_pair};
use combiner::{BulkIn, merge};
use hash_path::PathKey;
use std::alloc::Global;
use std::mem;
use trie_node::{KeySlots, NoMemory, Node, Slots, Stamp, ValueSlots};
use trie_values::with_new_values;
use versions::{MOST_PAIRS, Version};

/// The map of the same keys with new values. It is made by the shape of the trie, and is never settled before all values
/// are made.
#[derive(Drop)]
pub struct NewValues<G> {
    /// The new value of a pair, a closure on it.
    pub change: G,
}

impl<
    K: PathKey,
    V,
    W: Drop,
    S: Slots<K, V> + KeySlots<K, Key = A> + ValueSlots<V, Value = B> + Slots<K, W>,
    A: Drop,
    B: Drop,
    G: Fn(&K, &V) -> W,
> BulkIn<K, V, S> for NewValues<G>
where
    <S as ValueSlots<W>>::Value: Drop,
{
    type Part = Version<K, W, S>;

    ghost use Rattle.bulk_ops.specs.Meanings.{MayAnswer};
    ghost use Rattle.closure_ops.specs.Parts.{IsMapped};

    ghost answers = { λ values m made. IsMapped (MayAnswer G.Fn values.change) m made };

    ghost decides = { λ values m. ⊥ };

    ghost ready = { λ values. G.IsAlwaysCallable values.change };

    fn unit(&self, alloc: Global) -> Result<Version<K, W, S>, NoMemory> {
        let none = no_pairs(alloc)?;
        Ok(none)
    }

    fn one(&self, alloc: Global, key: &A, value: &B) -> Result<Version<K, W, S>, NoMemory> {
        let new = <S as ValueSlots<W>>::new_value(
            alloc,
            answer_in::<K, V, S, _, _>(&self.change, key, value),
        )?;
        let made = one_pair::<K, W, S>(alloc, key, new)?;
        Ok(made)
    }

    fn join(
        &self,
        alloc: Global,
        a: &Version<K, W, S>,
        b: &Version<K, W, S>,
    ) -> Result<Version<K, W, S>, NoMemory> {
        let both = merge(alloc, a, b)?;
        Ok(both)
    }

    fn settled(&self, _part: &Version<K, W, S>) -> bool {
        false
    }

    fn by_shape(&self) -> bool {
        true
    }

    fn of_root(
        &self,
        alloc: Global,
        root: &Node<K, V, S>,
    ) -> Result<Option<Version<K, W, S>>, NoMemory> {
        let made = with_new_values::<K, V, W, S, G>(alloc, root, Stamp::LOOSE, &self.change)?;
        Ok(Some(Version::from_root(made, MOST_PAIRS, Stamp::LOOSE)))
    }

    fn add(
        &self,
        alloc: Global,
        part: &mut Version<K, W, S>,
        key: &A,
        value: &B,
    ) -> Result<(), NoMemory> {
        let one = self.one(alloc, key, value)?;
        let all = self.join(alloc, &one, part);
        // (a drop that is written out is proved once, and not at each return)
        drop(one);
        drop(mem::replace(part, all?));
        Ok(())
    }

    fn join_root(
        &self,
        alloc: Global,
        part: Version<K, W, S>,
        root: &Node<K, V, S>,
    ) -> Result<Result<Version<K, W, S>, Version<K, W, S>>, NoMemory> {
        match self.of_root(alloc, root) {
            Ok(Some(made)) => {
                let all = self.join(alloc, &part, &made);
                drop(made);
                drop(part);
                Ok(Ok(all?))
            }
            Ok(None) => Ok(Err(part)),
            Err(NoMemory) => {
                drop(part);
                Err(NoMemory)
            }
        }
    }
}
