//! Questions about all pairs, by plain closures, that a crew works.
ghost use Rattle.std.specs.Prelude.{◌≡◌, ◌≤◌, Bool, IfOk, length};
ghost use Rattle.bulk_work.specs.Answers.{items_of, passing};
ghost use Rattle.bulk_ops.specs.Meanings.{MayAnswer, Means};
ghost use Rattle.combiner.specs.Monoids.{folded};
ghost use Rattle.group_counts.specs.Groups.{IsGroups};
ghost use Rattle.stripe.specs.Rules.{AllKeep};
ghost use Rattle.top_pairs.specs.Ranks.{IsTop};
ghost use Rattle.versions.specs.Map.{Map};

use crate::trie_map::TrieMap;
use combiner::Monoid;
use group_counts::Groups;
use hash_path::PathKey;
use std::sync::Wait;
use std::thread::Threads;
use stripes::Keeps;
use task_pool::Crew;
use top_pairs::Ranked;
use trie_node::{NoMemory, Slots};
use write_history::Naming;

/// Each question takes a view, and a crew works it there: nobody waits for the crew.
impl<
    K: PathKey + Drop + Send + Sync,
    V: Drop + Send + Sync,
    P: Keeps<K, V>,
    J: Naming,
    S: Slots<K, V> + Send + Sync,
> TrieMap<K, V, P, J, S>
where
    S::Key: Drop + Send + Sync,
    S::Value: Drop + Send + Sync,
{
    /// How many pairs pass the test, of the map as it stands at one moment of the call, counted by a crew over a view.
    ///
    /// Cost: O(n), shared out; under all locks for the view alone. Refused: `NoMemory`, if memory runs out.
    pub fn par_count<R, F>(&self, rt: &R, test: F, crew: Crew) -> Result<u64, NoMemory>
    where
        R: Threads + Wait + Sync,
        F: Fn(&K, &V) -> bool + Sync,
        requires callable { F.IsAlwaysCallable test }
        ensures { IfOk result (λ count. (m : Map K V) × AllKeep K.cmp P.holds m × ((p : K → V → Bool) → Means (MayAnswer F.Fn test) p → count ≡ length (passing p m)) × (count ≤ length m)) }
    {
        let view = self.view(rt)?;
        let answer = view.par_count(rt, test, crew);
        drop(view);
        answer
    }

    /// The items of all pairs combined by the monoid, of the map as it stands at one moment of the call, worked by a
    /// crew over a view.
    ///
    /// Cost: O(n), shared out; under all locks for the view alone. Refused: `NoMemory`, if memory runs out.
    pub fn par_fold<R, M, G>(
        &self,
        rt: &R,
        monoid: &M,
        item: G,
        crew: Crew,
    ) -> Result<M::Item, NoMemory>
    where
        R: Threads + Wait + Sync,
        M: Monoid + Sync,
        M::Item: Send,
        G: Fn(&K, &V) -> M::Item + Sync,
        requires callable { G.IsAlwaysCallable item }
        ensures { IfOk result (λ all. (m : Map K V) × AllKeep K.cmp P.holds m × ((i : K → V → M.Item) → Means (MayAnswer G.Fn item) i → all ≡ folded (M.combine monoid.now) (M.unit_of monoid.now) (items_of i m))) }
    {
        let view = self.view(rt)?;
        let answer = view.par_fold(rt, monoid, item, crew);
        drop(view);
        answer
    }

    /// How many pairs each group has, where the closure names the group of a pair, of the map as it stands at one
    /// moment of the call, counted by a crew over a view. A group that no pair has is not listed.
    ///
    /// Cost: O(n log g + g²) for g groups, shared out; under all locks for the view alone. Refused: `NoMemory`, if
    /// memory runs out.
    pub fn par_group_count<R, G, F>(
        &self,
        rt: &R,
        group: F,
        crew: Crew,
    ) -> Result<Groups<G>, NoMemory>
    where
        R: Threads + Wait + Sync,
        G: PathKey + Drop + Send + Sync,
        F: Fn(&K, &V) -> G + Sync,
        requires callable { F.IsAlwaysCallable group }
        ensures { IfOk result (λ groups. (m : Map K V) × AllKeep K.cmp P.holds m × IsGroups G.cmp (MayAnswer F.Fn group) m groups) }
    {
        let view = self.view(rt)?;
        let answer = view.par_group_count(rt, group, crew);
        drop(view);
        answer
    }

    /// The `most` pairs with the highest scores, or all pairs where there are fewer, of the map as it stands at one
    /// moment of the call, found by a crew over a view. Each of them keeps the rule. Which of several pairs with one
    /// score are listed is free.
    ///
    /// Cost: O(n log m) for m pairs that are listed, and O(m) for each that gets in; under all locks for the view
    /// alone. Refused: `NoMemory`, if memory runs out.
    pub fn par_top<R, N, F>(
        &self,
        rt: &R,
        most: usize,
        score: F,
        crew: Crew,
    ) -> Result<Ranked<K, V, N, S>, NoMemory>
    where
        R: Threads + Wait + Sync,
        N: Ord + Copy + Send,
        F: Fn(&K, &V) -> N + Sync,
        requires callable { F.IsAlwaysCallable score }
        ensures { IfOk result (λ listed. (m : Map K V) × AllKeep K.cmp P.holds m × IsTop N.cmp most (MayAnswer F.Fn score) m listed) }
    {
        let view = self.view(rt)?;
        let answer = view.par_top(rt, most, score, crew);
        drop(view);
        answer
    }
}
