//! What each group of pairs has, by plain closures, that a crew works, where a group may need memory.
ghost use Rattle.std.specs.Prelude.{IfOk, Ok};
ghost use Rattle.bulk_ops.specs.Meanings.{MayAnswer};
ghost use Rattle.group_counts.specs.Groups.{IsGroups};
ghost use Rattle.group_counts.specs.Sums.{IsGroupFold};

use crate::view::View;
use combiner::Monoid;
use group_counts::{GroupFolds, Groups, TryGroupCounts};
use hash_path::PathKey;
use std::alloc::AllocError;
use std::sync::Wait;
use std::thread::Threads;
use stripes::Keeps;
use task_pool::Crew;
use trie_node::{NoMemory, Slots};
use versions::Version;

/// Each is worked as `par_query` works a query: the closures run on the threads of the crew, several at once. The closure
/// that names the group of a pair may find no memory, as one that copies a text.
impl<K: PathKey + Send + Sync, V: Send + Sync, P: Keeps<K, V>, S: Slots<K, V> + Send + Sync> View<
    K,
    V,
    P,
    S,
>
where
    S::Key: Drop + Send + Sync,
    S::Value: Drop + Send + Sync,
{
    /// How many pairs each group has, as `par_group_count`, where the group may need memory:
    /// `|_, user| user.team.clone()`.
    ///
    /// Cost: O(n log g + g²) for g groups, shared out, no lock, a group for each pair, and memory for the groups in the
    /// part of each worker. Refused: `NoMemory`, if memory runs out, in the closure too.
    pub fn par_try_group_count<R, G, F>(
        &self,
        rt: &R,
        group: F,
        crew: Crew,
    ) -> Result<Groups<G>, NoMemory>
    where
        R: Threads + Wait + Sync,
        G: PathKey + Drop + Send + Sync,
        F: Fn(&K, &V) -> Result<G, AllocError> + Sync,
        requires callable { F.IsAlwaysCallable group }
        ensures { IfOk result (λ groups. IsGroups G.cmp (λ k v g. MayAnswer F.Fn group k v (Ok g)) self.now groups) }
    {
        self.worked_by(rt, &TryGroupCounts { group }, crew)
    }

    /// The items of each group combined by the monoid, as by `Sum`, `Least` or `Greatest`: the map from each group that
    /// some pair has to what its items come to. It has one owner.
    ///
    /// Cost: O(n log g) for g groups, shared out, no lock, and for each pair a group, and memory for an item. Refused:
    /// `NoMemory`, if memory runs out, in the closure `group` too.
    pub fn par_group_fold<R, G, M, F, I>(
        &self,
        rt: &R,
        group: F,
        monoid: &M,
        item: I,
        crew: Crew,
    ) -> Result<Version<G, M::Item>, NoMemory>
    where
        R: Threads + Wait + Sync,
        G: PathKey + Drop + Send + Sync,
        M: Monoid + Sync,
        M::Item: Send + Sync,
        F: Fn(&K, &V) -> Result<G, AllocError> + Sync,
        I: Fn(&K, &V) -> M::Item + Sync,
        requires groups { F.IsAlwaysCallable group }
        requires items { I.IsAlwaysCallable item }
        ensures { IfOk result (λ sums. IsGroupFold (M.combine monoid.now) (M.unit_of monoid.now) G.cmp (λ k v g. MayAnswer F.Fn group k v (Ok g)) (MayAnswer I.Fn item) self.now sums) }
    {
        let folds = GroupFolds {
            group,
            monoid,
            item,
        };
        let made = self.worked_by(rt, &folds, crew);
        drop(folds);
        made
    }
}
