//! How many pairs of a map each group has.
use crate::groups::Groups;
use closure_ops::answer_in;
use combiner::BulkIn;
use hash_path::PathKey;
use std::alloc::Global;
use trie_node::{KeySlots, NoMemory, Node, Slots, ValueSlots};

/// How many pairs each group has. It is never settled before all pairs are counted.
///
/// A pair of a group that has one already takes no memory; the first pair of a group makes at most two requests.
#[derive(Drop)]
pub struct GroupCounts<F> {
    /// The group of a pair, a closure on it.
    pub group: F,
}

impl<
    K: PathKey,
    V,
    S: Slots<K, V> + KeySlots<K, Key = A> + ValueSlots<V, Value = B>,
    A: Drop,
    B: Drop,
    G: PathKey + Drop,
    F: Fn(&K, &V) -> G,
> BulkIn<K, V, S> for GroupCounts<F> {
    type Part = Groups<G>;

    ghost use Rattle.bulk_ops.specs.Meanings.{MayAnswer};
    ghost use Rattle.group_counts.specs.Groups.{IsGroups};

    ghost answers = { λ groups m counts. IsGroups G.cmp (MayAnswer F.Fn groups.group) m counts };

    ghost decides = { λ groups m. ⊥ };

    ghost ready = { λ groups. F.IsAlwaysCallable groups.group };

    fn unit(&self, alloc: Global) -> Result<Groups<G>, NoMemory> {
        Ok(Groups::none(alloc))
    }

    fn one(&self, alloc: Global, key: &A, value: &B) -> Result<Groups<G>, NoMemory> {
        Groups::of_one(alloc, answer_in::<K, V, S, _, _>(&self.group, key, value))
    }

    fn join(&self, alloc: Global, a: &Groups<G>, b: &Groups<G>) -> Result<Groups<G>, NoMemory> {
        a.joined(alloc, b)
    }

    fn settled(&self, _part: &Groups<G>) -> bool {
        false
    }

    fn add(&self, alloc: Global, part: &mut Groups<G>, key: &A, value: &B) -> Result<(), NoMemory> {
        part.count_one(alloc, answer_in::<K, V, S, _, _>(&self.group, key, value))
    }

    fn of_root(
        &self,
        _alloc: Global,
        _root: &Node<K, V, S>,
    ) -> Result<Option<Groups<G>>, NoMemory> {
        Ok(None)
    }

    fn join_root(
        &self,
        _alloc: Global,
        part: Groups<G>,
        _root: &Node<K, V, S>,
    ) -> Result<Result<Groups<G>, Groups<G>>, NoMemory> {
        Ok(Err(part))
    }
}
