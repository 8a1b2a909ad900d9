//! Questions that ask for a pair, and closures that are run at each pair, that a crew works.
ghost use Rattle.std.specs.Prelude.{◌≡◌, Bool, IfOk, IfSome, option_map};
ghost use Rattle.std.specs.List.{list_all, list_any};
ghost use Rattle.bulk_work.specs.Answers.{passes};
ghost use Rattle.map_view.specs.Questions.{pair_of};
ghost use Rattle.bulk_ops.specs.Meanings.{MayAnswer, Means};
ghost use Rattle.map_view.specs.Questions.{IsFound};
ghost use Rattle.stripe.specs.Rules.{AllKeep};
ghost use Rattle.versions.specs.Map.{Map};

use crate::trie_map::TrieMap;
use bulk_work::Pair;
use hash_path::PathKey;
use std::sync::Wait;
use std::thread::Threads;
use stripes::Keeps;
use task_pool::Crew;
use trie_node::{NoMemory, Slots};
use write_history::Naming;

/// Each takes a view, and a crew works it there: nobody waits for the crew.
impl<
    K: PathKey + Drop + Send + Sync,
    V: Drop + Send + Sync,
    P: Keeps<K, V>,
    J: Naming,
    S: Slots<K, V> + Send + Sync,
> TrieMap<K, V, P, J, S>
where
    S::Key: Drop + Send + Sync,
    S::Value: Drop + Send + Sync,
{
    /// A pair that passes the test, if there is one, of the map as it stands at one moment of the call, found by a crew
    /// over a view. Which of several is returned is free. It keeps the rule.
    ///
    /// Cost: O(n), shared out; under all locks for the view alone. Refused: `NoMemory`, if memory runs out.
    pub fn par_find<R, F>(
        &self,
        rt: &R,
        test: F,
        crew: Crew,
    ) -> Result<Option<Pair<K, V, S>>, NoMemory>
    where
        R: Threads + Wait + Sync,
        F: Fn(&K, &V) -> bool + Sync,
        requires callable { F.IsAlwaysCallable test }
        ensures found { IfOk result (λ found. (m : Map K V) × AllKeep K.cmp P.holds m × ((p : K → V → Bool) → Means (MayAnswer F.Fn test) p → IsFound p m (option_map (pair_of S.key_of S.value_of) found))) }
        ensures kept { IfOk result (λ found. IfSome found (λ pair. P.holds (S.key_of pair.0) (S.value_of pair.1))) }
    {
        let view = self.view(rt)?;
        let answer = view.par_find(rt, test, crew);
        drop(view);
        answer
    }

    /// Whether some pair passes the test, of the map as it stands at one moment of the call, found by a crew over a view.
    ///
    /// Cost: O(n), shared out; under all locks for the view alone. Refused: `NoMemory`, if memory runs out.
    pub fn par_exists<R, F>(&self, rt: &R, test: F, crew: Crew) -> Result<bool, NoMemory>
    where
        R: Threads + Wait + Sync,
        F: Fn(&K, &V) -> bool + Sync,
        requires callable { F.IsAlwaysCallable test }
        ensures { IfOk result (λ some. (m : Map K V) × AllKeep K.cmp P.holds m × ((p : K → V → Bool) → Means (MayAnswer F.Fn test) p → some ≡ list_any (passes p) m)) }
    {
        let view = self.view(rt)?;
        let answer = view.par_exists(rt, test, crew);
        drop(view);
        answer
    }

    /// Whether every pair passes the test, of the map as it stands at one moment of the call, found by a crew over a
    /// view.
    ///
    /// Cost: O(n), shared out; under all locks for the view alone. Refused: `NoMemory`, if memory runs out.
    pub fn par_for_all<R, F>(&self, rt: &R, test: F, crew: Crew) -> Result<bool, NoMemory>
    where
        R: Threads + Wait + Sync,
        F: Fn(&K, &V) -> bool + Sync,
        requires callable { F.IsAlwaysCallable test }
        ensures { IfOk result (λ all. (m : Map K V) × AllKeep K.cmp P.holds m × ((p : K → V → Bool) → Means (MayAnswer F.Fn test) p → all ≡ list_all (passes p) m)) }
    {
        let view = self.view(rt)?;
        let answer = view.par_for_all(rt, test, crew);
        drop(view);
        answer
    }

    /// Calls the closure at each pair, on the threads of a crew, in no order, of the map as it stands at one moment of
    /// the call. It runs with no lock held.
    ///
    /// Cost: O(n), shared out; under all locks for the view alone. Refused: `NoMemory`, if memory runs out; then it was
    /// called at some of the pairs.
    pub fn par_for_each<R, F>(&self, rt: &R, act: F, crew: Crew) -> Result<(), NoMemory>
    where
        R: Threads + Wait + Sync,
        F: Fn(&K, &V) + Sync,
        requires callable { F.IsAlwaysCallable act }
    {
        let view = self.view(rt)?;
        let answer = view.par_for_each(rt, act, crew);
        drop(view);
        answer
    }
}
