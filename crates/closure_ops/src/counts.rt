//! How many pairs pass a plain closure.
use crate::closure::answer_in;
use combiner::BulkIn;
use hash_path::PathKey;
use std::alloc::Global;
use trie_node::{KeySlots, NoMemory, Node, Slots, ValueSlots};

/// How many pairs pass a test. It makes no request for memory, and is never settled before all pairs are counted.
#[derive(Drop)]
pub struct Counts<F> {
    /// The test, a closure on a pair.
    pub test: F,
}

impl<
    K: PathKey,
    V,
    S: Slots<K, V> + KeySlots<K, Key = A> + ValueSlots<V, Value = B>,
    A: Drop,
    B: Drop,
    F: Fn(&K, &V) -> bool,
> BulkIn<K, V, S> for Counts<F> {
    type Part = u64;

    ghost use Rattle.bulk_ops.specs.Meanings.{MayAnswer};
    ghost use Rattle.closure_ops.specs.Parts.{IsCount};

    ghost answers = { λ counts m count. IsCount (MayAnswer F.Fn counts.test) m count };

    ghost decides = { λ counts m. ⊥ };

    ghost ready = { λ counts. F.IsAlwaysCallable counts.test };

    fn unit(&self, _alloc: Global) -> Result<u64, NoMemory> {
        Ok(0)
    }

    fn one(&self, _alloc: Global, key: &A, value: &B) -> Result<u64, NoMemory> {
        Ok(u64::from(answer_in::<K, V, S, _, _>(&self.test, key, value)))
    }

    fn join(&self, _alloc: Global, a: &u64, b: &u64) -> Result<u64, NoMemory> {
        Ok(*a + *b)
    }

    fn settled(&self, _part: &u64) -> bool {
        false
    }

    fn add(&self, _alloc: Global, part: &mut u64, key: &A, value: &B) -> Result<(), NoMemory> {
        *part += u64::from(answer_in::<K, V, S, _, _>(&self.test, key, value));
        Ok(())
    }

    fn of_root(&self, _alloc: Global, _root: &Node<K, V, S>) -> Result<Option<u64>, NoMemory> {
        Ok(None)
    }

    fn join_root(
        &self,
        _alloc: Global,
        part: u64,
        _root: &Node<K, V, S>,
    ) -> Result<Result<u64, u64>, NoMemory> {
        Ok(Err(part))
    }
}
