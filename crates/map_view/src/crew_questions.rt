//! Questions about all pairs, by plain closures, that a crew works.
ghost use Rattle.std.specs.Prelude.{◌≡◌, ◌≤◌, Bool, IfOk, length};
ghost use Rattle.bulk_work.specs.Answers.{items_of, passing};
ghost use Rattle.bulk_ops.specs.Meanings.{MayAnswer, Means};
ghost use Rattle.combiner.specs.Monoids.{folded};
ghost use Rattle.group_counts.specs.Groups.{IsGroups};
ghost use Rattle.top_pairs.specs.Ranks.{IsTop};

use crate::view::View;
use closure_ops::{Counts, Folds};
use combiner::Monoid;
use group_counts::{GroupCounts, Groups};
use hash_path::PathKey;
use std::sync::Wait;
use std::thread::Threads;
use stripes::Keeps;
use task_pool::Crew;
use top_pairs::{Ranked, TopPairs};
use trie_node::{NoMemory, Slots};

/// Each question is worked as `par_query` works a query: the closure runs on the threads of the crew, several at once.
/// `par_count` and `par_fold` promise what their like of one thread does (`count`, `fold`).
impl<K: PathKey + Send + Sync, V: Send + Sync, P: Keeps<K, V>, S: Slots<K, V> + Send + Sync> View<
    K,
    V,
    P,
    S,
>
where
    S::Key: Drop + Send + Sync,
    S::Value: Drop + Send + Sync,
{
    /// How many pairs pass the test, counted by a crew.
    ///
    /// Cost: O(n), shared out, no lock. Refused: `NoMemory`, if memory runs out.
    pub fn par_count<R, F>(&self, rt: &R, test: F, crew: Crew) -> Result<u64, NoMemory>
    where
        R: Threads + Wait + Sync,
        F: Fn(&K, &V) -> bool + Sync,
        requires callable { F.IsAlwaysCallable test }
        ensures count { IfOk result (λ count. (p : K → V → Bool) → Means (MayAnswer F.Fn test) p → count ≡ length (passing p self.now)) }
        ensures few { IfOk result (λ count. count ≤ length self.now) }
    {
        self.worked_by(rt, &Counts { test }, crew)
    }

    /// The items of all pairs combined by the monoid, as by `Sum`, `Least` or `Greatest`, worked by a crew.
    ///
    /// Cost: O(n), shared out, no lock. Refused: `NoMemory`, if memory runs out.
    pub fn par_fold<R, M, G>(
        &self,
        rt: &R,
        monoid: &M,
        item: G,
        crew: Crew,
    ) -> Result<M::Item, NoMemory>
    where
        R: Threads + Wait + Sync,
        M: Monoid + Sync,
        M::Item: Send,
        G: Fn(&K, &V) -> M::Item + Sync,
        requires callable { G.IsAlwaysCallable item }
        ensures { IfOk result (λ all. (i : K → V → M.Item) → Means (MayAnswer G.Fn item) i → all ≡ folded (M.combine monoid.now) (M.unit_of monoid.now) (items_of i self.now)) }
    {
        self.worked_by(rt, &Folds { monoid, item }, crew)
    }

    /// How many pairs each group has, where the closure names the group of a pair, counted by a crew. A group that no
    /// pair has is not listed.
    ///
    /// Cost: O(n log g + g²) for g groups, shared out, no lock, and memory for the groups in the part of each worker.
    /// Refused: `NoMemory`, if memory runs out.
    pub fn par_group_count<R, G, F>(
        &self,
        rt: &R,
        group: F,
        crew: Crew,
    ) -> Result<Groups<G>, NoMemory>
    where
        R: Threads + Wait + Sync,
        G: PathKey + Drop + Send + Sync,
        F: Fn(&K, &V) -> G + Sync,
        requires callable { F.IsAlwaysCallable group }
        ensures { IfOk result (λ groups. IsGroups G.cmp (MayAnswer F.Fn group) self.now groups) }
    {
        self.worked_by(rt, &GroupCounts { group }, crew)
    }

    /// The `most` pairs with the highest scores, or all pairs where there are fewer, found by a crew. Which of several
    /// pairs with one score are listed is free.
    ///
    /// Cost: O(n log m) for m pairs that are listed, and O(m) for each that gets in, shared out, no lock. Refused:
    /// `NoMemory`, if memory runs out.
    pub fn par_top<R, N, F>(
        &self,
        rt: &R,
        most: usize,
        score: F,
        crew: Crew,
    ) -> Result<Ranked<K, V, N, S>, NoMemory>
    where
        R: Threads + Wait + Sync,
        N: Ord + Copy + Send,
        F: Fn(&K, &V) -> N + Sync,
        requires callable { F.IsAlwaysCallable score }
        ensures { IfOk result (λ listed. IsTop N.cmp most (MayAnswer F.Fn score) self.now listed) }
    {
        self.worked_by(rt, &TopPairs { most, score }, crew)
    }
}
