//! Maps that a crew makes of the pairs of a view, by plain closures.
ghost use Rattle.std.specs.Prelude.{◌≡◌, ◌≤◌, Bool, IfOk, length};
ghost use Rattle.bulk_work.specs.Answers.{passing};
ghost use Rattle.bulk_ops.specs.Meanings.{MayAnswer, Means};
ghost use Rattle.map_view.specs.Questions.{changed};
ghost use Rattle.trie_filter.specs.Passing.{AreChosen};
ghost use Rattle.trie_values.specs.Values.{AreGiven};
ghost use Rattle.versions.specs.declared.version.TheConstants.{MOST_PAIRS};

use crate::view::View;
use closure_ops::{Filters, NewValues};
use hash_path::PathKey;
use std::sync::Wait;
use std::thread::Threads;
use stripes::Keeps;
use task_pool::Crew;
use trie_node::{NoMemory, Slots, ValueSlots};
use versions::Version;

/// Each map is worked as `par_query` works a query: the closure runs on the threads of the crew, several at once. What is
/// promised is what their like of one thread promises (`filter`, `map_values`).
impl<K: PathKey + Send + Sync, V: Send + Sync, P: Keeps<K, V>, S: Slots<K, V> + Send + Sync> View<
    K,
    V,
    P,
    S,
>
where
    S::Key: Drop + Send + Sync,
    S::Value: Drop + Send + Sync,
{
    /// The map of the pairs that pass the test, made by a crew. It has one owner, and shares its keys and values with
    /// the view.
    ///
    /// Cost: O(n), shared out, no lock, and memory for the nodes of these pairs. Refused: `NoMemory`, if memory runs out.
    pub fn par_filter<R, F>(
        &self,
        rt: &R,
        test: F,
        crew: Crew,
    ) -> Result<Version<K, V, S>, NoMemory>
    where
        R: Threads + Wait + Sync,
        F: Fn(&K, &V) -> bool + Sync,
        requires callable { F.IsAlwaysCallable test }
        ensures entries { IfOk result (λ made. (p : K → V → Bool) → Means (MayAnswer F.Fn test) p → made.entries ≡ passing p self.now) }
        ensures chosen { IfOk result (λ made. AreChosen (MayAnswer F.Fn test) self.now made.entries) }
        ensures few { IfOk result (λ made. length made.entries ≤ length self.now) }
        ensures limit { IfOk result (λ made. made.limit ≡ MOST_PAIRS) }
    {
        self.worked_by(rt, &Filters { test }, crew)
    }

    /// The map of the same keys, each with what the closure makes of its pair, made by a crew. It has one owner, and
    /// shares its keys with the view.
    ///
    /// Cost: O(n), shared out, no lock, and memory for each node and each value. Refused: `NoMemory`, if memory runs
    /// out.
    pub fn par_map_values<R, W, G>(
        &self,
        rt: &R,
        change: G,
        crew: Crew,
    ) -> Result<Version<K, W, S>, NoMemory>
    where
        R: Threads + Wait + Sync,
        W: Drop + Send + Sync,
        S: Slots<K, W>,
        <S as ValueSlots<W>>::Value: Drop + Send + Sync,
        G: Fn(&K, &V) -> W + Sync,
        requires callable { G.IsAlwaysCallable change }
        ensures entries { IfOk result (λ made. (f : K → V → W) → Means (MayAnswer G.Fn change) f → made.entries ≡ changed f self.now) }
        ensures given { IfOk result (λ made. AreGiven (MayAnswer G.Fn change) self.now made.entries) }
        ensures count { IfOk result (λ made. length made.entries ≡ length self.now) }
        ensures limit { IfOk result (λ made. made.limit ≡ MOST_PAIRS) }
    {
        self.worked_by(rt, &NewValues { change }, crew)
    }
}
