//! What each group of a map's pairs has, by plain closures, that a crew works, where a group may need memory.
ghost use Rattle.std.specs.Prelude.{IfOk, Ok};
ghost use Rattle.bulk_ops.specs.Meanings.{MayAnswer};
ghost use Rattle.group_counts.specs.Groups.{IsGroups};
ghost use Rattle.group_counts.specs.Sums.{IsGroupFold};
ghost use Rattle.stripe.specs.Rules.{AllKeep};
ghost use Rattle.versions.specs.Map.{Map};

use crate::trie_map::TrieMap;
use combiner::Monoid;
use group_counts::Groups;
use hash_path::PathKey;
use std::alloc::AllocError;
use std::sync::Wait;
use std::thread::Threads;
use stripes::Keeps;
use task_pool::Crew;
use trie_node::{NoMemory, Slots};
use versions::Version;
use write_history::Naming;

/// Each takes a view, and a crew works it there: nobody waits for the crew.
impl<
    K: PathKey + Drop + Send + Sync,
    V: Drop + Send + Sync,
    P: Keeps<K, V>,
    J: Naming,
    S: Slots<K, V> + Send + Sync,
> TrieMap<K, V, P, J, S>
where
    S::Key: Drop + Send + Sync,
    S::Value: Drop + Send + Sync,
{
    /// How many pairs each group has, as `par_group_count`, where the group may need memory:
    /// `|_, user| user.team.clone()`.
    ///
    /// Cost: O(n log g + g²) for g groups, shared out, and a group for each pair; under all locks for the view alone.
    /// Refused: `NoMemory`, if memory runs out, in the closure too.
    pub fn par_try_group_count<R, G, F>(
        &self,
        rt: &R,
        group: F,
        crew: Crew,
    ) -> Result<Groups<G>, NoMemory>
    where
        R: Threads + Wait + Sync,
        G: PathKey + Drop + Send + Sync,
        F: Fn(&K, &V) -> Result<G, AllocError> + Sync,
        requires callable { F.IsAlwaysCallable group }
        ensures { IfOk result (λ groups. (m : Map K V) × AllKeep K.cmp P.holds m × IsGroups G.cmp (λ k v g. MayAnswer F.Fn group k v (Ok g)) m groups) }
    {
        let view = self.view(rt)?;
        let answer = view.par_try_group_count(rt, group, crew);
        drop(view);
        answer
    }

    /// The items of each group combined by the monoid, of the map as it stands at one moment of the call, worked by a
    /// crew over a view: the map from each group that some pair has to what its items come to.
    ///
    /// Cost: O(n log g) for g groups, shared out, and for each pair a group, and memory for an item; under all locks for
    /// the view alone. Refused: `NoMemory`, if memory runs out, in the closure `group` too.
    pub fn par_group_fold<R, G, M, F, I>(
        &self,
        rt: &R,
        group: F,
        monoid: &M,
        item: I,
        crew: Crew,
    ) -> Result<Version<G, M::Item>, NoMemory>
    where
        R: Threads + Wait + Sync,
        G: PathKey + Drop + Send + Sync,
        M: Monoid + Sync,
        M::Item: Send + Sync,
        F: Fn(&K, &V) -> Result<G, AllocError> + Sync,
        I: Fn(&K, &V) -> M::Item + Sync,
        requires groups { F.IsAlwaysCallable group }
        requires items { I.IsAlwaysCallable item }
        ensures { IfOk result (λ sums. (m : Map K V) × AllKeep K.cmp P.holds m × IsGroupFold (M.combine monoid.now) (M.unit_of monoid.now) G.cmp (λ k v g. MayAnswer F.Fn group k v (Ok g)) (MayAnswer I.Fn item) m sums) }
    {
        let view = self.view(rt)?;
        let answer = view.par_group_fold(rt, group, monoid, item, crew);
        drop(view);
        answer
    }
}
