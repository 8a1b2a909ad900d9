//! How many pairs of a map each group has, where a group may need memory.
use crate::groups::Groups;
use closure_ops::answer_in;
use combiner::BulkIn;
use hash_path::PathKey;
use std::alloc::{AllocError, Global};
use trie_node::{KeySlots, NoMemory, Node, Slots, ValueSlots};

/// How many pairs each group has, as `GroupCounts`, where the closure may find no memory for the group. The work is then
/// refused, and no pair is left out.
#[derive(Drop)]
pub struct TryGroupCounts<F> {
    /// The group of a pair, a closure on it.
    pub group: F,
}

impl<
    K: PathKey,
    V,
    S: Slots<K, V> + KeySlots<K, Key = A> + ValueSlots<V, Value = B>,
    A: Drop,
    B: Drop,
    G: PathKey + Drop,
    F: Fn(&K, &V) -> Result<G, AllocError>,
> BulkIn<K, V, S> for TryGroupCounts<F> {
    type Part = Groups<G>;

    ghost use Rattle.std.specs.Prelude.{Ok};
    ghost use Rattle.bulk_ops.specs.Meanings.{MayAnswer};
    ghost use Rattle.group_counts.specs.Groups.{IsGroups};

    ghost answers = { λ groups m counts. IsGroups G.cmp (λ k v g. MayAnswer F.Fn groups.group k v (Ok g)) m counts };

    ghost decides = { λ groups m. ⊥ };

    ghost ready = { λ groups. F.IsAlwaysCallable groups.group };

    fn unit(&self, alloc: Global) -> Result<Groups<G>, NoMemory> {
        Ok(Groups::none(alloc))
    }

    fn one(&self, alloc: Global, key: &A, value: &B) -> Result<Groups<G>, NoMemory> {
        let group = answer_in::<K, V, S, _, _>(&self.group, key, value)?;
        Groups::of_one(alloc, group)
    }

    fn join(&self, alloc: Global, a: &Groups<G>, b: &Groups<G>) -> Result<Groups<G>, NoMemory> {
        a.joined(alloc, b)
    }

    fn settled(&self, _part: &Groups<G>) -> bool {
        false
    }

    fn add(&self, alloc: Global, part: &mut Groups<G>, key: &A, value: &B) -> Result<(), NoMemory> {
        let group = answer_in::<K, V, S, _, _>(&self.group, key, value)?;
        part.count_one(alloc, group)
    }

    fn of_root(
        &self,
        _alloc: Global,
        _root: &Node<K, V, S>,
    ) -> Result<Option<Groups<G>>, NoMemory> {
        Ok(None)
    }

    fn join_root(
        &self,
        _alloc: Global,
        part: Groups<G>,
        _root: &Node<K, V, S>,
    ) -> Result<Result<Groups<G>, Groups<G>>, NoMemory> {
        Ok(Err(part))
    }
}
