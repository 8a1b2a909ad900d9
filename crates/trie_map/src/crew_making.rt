//! Maps that a crew makes of the pairs of a map, by plain closures.
ghost use Rattle.std.specs.Prelude.{◌≡◌, Bool, IfOk};
ghost use Rattle.bulk_work.specs.Answers.{passing};
ghost use Rattle.bulk_ops.specs.Meanings.{MayAnswer, Means};
ghost use Rattle.map_view.specs.Questions.{changed};
ghost use Rattle.stripe.specs.Rules.{AllKeep};
ghost use Rattle.trie_filter.specs.Passing.{AreChosen};
ghost use Rattle.trie_values.specs.Values.{AreGiven};
ghost use Rattle.versions.specs.Map.{Map};
ghost use Rattle.versions.specs.declared.version.TheConstants.{MOST_PAIRS};

use crate::trie_map::TrieMap;
use hash_path::PathKey;
use std::sync::Wait;
use std::thread::Threads;
use stripes::Keeps;
use task_pool::Crew;
use trie_node::{NoMemory, Slots, ValueSlots};
use versions::Version;
use write_history::Naming;

/// Each takes a view, and a crew works it there: nobody waits for the crew.
impl<
    K: PathKey + Drop + Send + Sync,
    V: Drop + Send + Sync,
    P: Keeps<K, V>,
    J: Naming,
    S: Slots<K, V> + Send + Sync,
> TrieMap<K, V, P, J, S>
where
    S::Key: Drop + Send + Sync,
    S::Value: Drop + Send + Sync,
{
    /// The map of the pairs that pass the test, of the map as it stands at one moment of the call, made by a crew over a
    /// view. It has one owner, and shares its keys and values with this map.
    ///
    /// Cost: O(n), shared out, and memory for the nodes of these pairs; under all locks for the view alone. Refused:
    /// `NoMemory`, if memory runs out.
    pub fn par_filter<R, F>(
        &self,
        rt: &R,
        test: F,
        crew: Crew,
    ) -> Result<Version<K, V, S>, NoMemory>
    where
        R: Threads + Wait + Sync,
        F: Fn(&K, &V) -> bool + Sync,
        requires callable { F.IsAlwaysCallable test }
        ensures entries { IfOk result (λ made. (m : Map K V) × AllKeep K.cmp P.holds m × ((p : K → V → Bool) → Means (MayAnswer F.Fn test) p → made.entries ≡ passing p m) × AreChosen (MayAnswer F.Fn test) m made.entries) }
        ensures limit { IfOk result (λ made. made.limit ≡ MOST_PAIRS) }
    {
        let view = self.view(rt)?;
        let answer = view.par_filter(rt, test, crew);
        drop(view);
        answer
    }

    /// The map of the same keys, each with what the closure makes of its pair, of the map as it stands at one moment of
    /// the call, made by a crew over a view. It has one owner, and shares its keys with this map.
    ///
    /// Cost: O(n), shared out, and memory for the nodes and a value for each pair; under all locks for the view alone.
    /// Refused: `NoMemory`, if memory runs out.
    pub fn par_map_values<R, W, G>(
        &self,
        rt: &R,
        change: G,
        crew: Crew,
    ) -> Result<Version<K, W, S>, NoMemory>
    where
        R: Threads + Wait + Sync,
        W: Drop + Send + Sync,
        S: Slots<K, W>,
        <S as ValueSlots<W>>::Value: Drop + Send + Sync,
        G: Fn(&K, &V) -> W + Sync,
        requires callable { G.IsAlwaysCallable change }
        ensures entries { IfOk result (λ made. (m : Map K V) × AllKeep K.cmp P.holds m × ((f : K → V → W) → Means (MayAnswer G.Fn change) f → made.entries ≡ changed f m) × AreGiven (MayAnswer G.Fn change) m made.entries) }
        ensures limit { IfOk result (λ made. made.limit ≡ MOST_PAIRS) }
    {
        let view = self.view(rt)?;
        let answer = view.par_map_values(rt, change, crew);
        drop(view);
        answer
    }
}
