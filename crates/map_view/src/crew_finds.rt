//! Questions that ask for a pair, and closures that are run at each pair, by a crew.
ghost use Rattle.std.specs.Prelude.{◌≡◌, Bool, IfOk, IfSome, option_map};
ghost use Rattle.std.specs.List.{list_all, list_any};
ghost use Rattle.bulk_work.specs.Answers.{passes};
ghost use Rattle.map_view.specs.Questions.{pair_of};
ghost use Rattle.bulk_ops.specs.Meanings.{MayAnswer, Means};
ghost use Rattle.map_view.specs.Questions.{IsFound};

use crate::finds::{Finds, pair_is_there, pairs_are_all};
use crate::view::View;
use bulk_work::Pair;
use closure_ops::Counts;
use hash_path::PathKey;
use std::sync::Wait;
use std::thread::Threads;
use stripes::Keeps;
use task_pool::Crew;
use trie_node::{NoMemory, Slots};

/// Each is worked as `par_query` works a query: the closure runs on the threads of the crew, several at once. What is
/// promised is what their like of one thread promises. None ends early for all threads: a thread that has found a pair in
/// its piece of the view calls the closure no more for that piece.
impl<K: PathKey + Send + Sync, V: Send + Sync, P: Keeps<K, V>, S: Slots<K, V> + Send + Sync> View<
    K,
    V,
    P,
    S,
>
where
    S::Key: Drop + Send + Sync,
    S::Value: Drop + Send + Sync,
{
    /// A pair that passes the test, if there is one, found by a crew. Which of several is returned is free. It keeps the
    /// rule.
    ///
    /// Cost: O(n), shared out, no lock. Refused: `NoMemory`, if memory runs out.
    pub fn par_find<R, F>(
        &self,
        rt: &R,
        test: F,
        crew: Crew,
    ) -> Result<Option<Pair<K, V, S>>, NoMemory>
    where
        R: Threads + Wait + Sync,
        F: Fn(&K, &V) -> bool + Sync,
        requires callable { F.IsAlwaysCallable test }
        ensures found { IfOk result (λ found. (p : K → V → Bool) → Means (MayAnswer F.Fn test) p → IsFound p self.now (option_map (pair_of S.key_of S.value_of) found)) }
        ensures kept { IfOk result (λ found. IfSome found (λ pair. P.holds (S.key_of pair.0) (S.value_of pair.1))) }
    {
        self.law();
        self.worked_by(rt, &Finds { test }, crew)
    }

    /// Whether some pair passes the test, found by a crew.
    ///
    /// Cost: O(n), shared out, no lock. Refused: `NoMemory`, if memory runs out.
    pub fn par_exists<R, F>(&self, rt: &R, test: F, crew: Crew) -> Result<bool, NoMemory>
    where
        R: Threads + Wait + Sync,
        F: Fn(&K, &V) -> bool + Sync,
        requires callable { F.IsAlwaysCallable test }
        ensures { IfOk result (λ some. (p : K → V → Bool) → Means (MayAnswer F.Fn test) p → some ≡ list_any (passes p) self.now) }
    {
        pair_is_there::<K, V>();
        Ok(self.par_find(rt, test, crew)?.is_some())
    }

    /// Whether every pair passes the test, found by a crew, which tests them all.
    ///
    /// Cost: O(n), shared out, no lock. Refused: `NoMemory`, if memory runs out.
    pub fn par_for_all<R, F>(&self, rt: &R, test: F, crew: Crew) -> Result<bool, NoMemory>
    where
        R: Threads + Wait + Sync,
        F: Fn(&K, &V) -> bool + Sync,
        requires callable { F.IsAlwaysCallable test }
        ensures { IfOk result (λ all. (p : K → V → Bool) → Means (MayAnswer F.Fn test) p → all ≡ list_all (passes p) self.now) }
    {
        pairs_are_all::<K, V>();
        Ok(self.par_count(rt, test, crew)? == self.len())
    }

    /// Calls the closure at each pair, on the threads of a crew, in no order.
    ///
    /// Cost: O(n), shared out, no lock. Refused: `NoMemory`, if memory runs out; then it was called at some of them.
    pub fn par_for_each<R, F>(&self, rt: &R, act: F, crew: Crew) -> Result<(), NoMemory>
    where
        R: Threads + Wait + Sync,
        F: Fn(&K, &V) + Sync,
        requires callable { F.IsAlwaysCallable act }
    {
        let acts = |key: &K, value: &V| -> bool {
            act(key, value);
            true
        };
        self.worked_by(rt, &Counts { test: acts }, crew)?;
        Ok(())
    }
}
