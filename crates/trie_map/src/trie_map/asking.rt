//! Questions about a map that threads share.
ghost use Rattle.std.specs.Prelude.{◌≡◌, ◌≤◌, Bool, IfOk, IfSome, length, option_map};
ghost use Rattle.std.specs.List.{list_all, list_any};
ghost use Rattle.bulk_work.specs.Answers.{items_of, passes, passing};
ghost use Rattle.bulk_ops.specs.Meanings.{MayAnswer, Means};
ghost use Rattle.map_view.specs.Questions.{pair_of};
ghost use Rattle.combiner.specs.Monoids.{folded};
ghost use Rattle.stripe.specs.Rules.{AllKeep};
ghost use Rattle.map_view.specs.Questions.{IsAnsweredOfKept, IsFound, changed};
ghost use Rattle.versions.specs.Map.{Map};
ghost use Rattle.versions.specs.declared.version.TheConstants.{MOST_PAIRS};

use super::TrieMap;
use bulk_work::{Answer, Asks, Pair};
use combiner::Monoid;
use hash_path::PathKey;
use std::sync::Wait;
use std::thread::Threads;
use stripes::Keeps;
use task_pool::Crew;
use trie_node::{NoMemory, Slots, ValueSlots};
use versions::Version;
use write_history::Naming;

/// Each question takes a view and works it, so that nobody waits for the work.
impl<K: PathKey + Drop, V: Drop, P: Keeps<K, V>, J: Naming, S: Slots<K, V>> TrieMap<K, V, P, J, S>
where
    S::Key: Drop,
    S::Value: Drop,
{
    /// How many pairs pass the test, of the map as it stands at one moment of the call: a view is taken and walked.
    ///
    /// Cost: O(n), under all locks for the view alone. Refused: `NoMemory`, if memory runs out for the view.
    pub fn count<R: Wait, F: Fn(&K, &V) -> bool>(&self, rt: &R, test: F) -> Result<u64, NoMemory>
        requires callable { F.IsAlwaysCallable test }
        ensures { IfOk result (λ count. (m : Map K V) × AllKeep K.cmp P.holds m × ((p : K → V → Bool) → Means (MayAnswer F.Fn test) p → count ≡ length (passing p m)) × (count ≤ length m)) }
    {
        Ok(self.view(rt)?.count(test))
    }

    /// Whether some pair passes the test, of the map as it stands at one moment of the call.
    ///
    /// Cost: O(n), up to the first pair that passes; under all locks for the view alone. Refused: as `count`.
    pub fn exists<R: Wait, F: Fn(&K, &V) -> bool>(&self, rt: &R, test: F) -> Result<bool, NoMemory>
        requires callable { F.IsAlwaysCallable test }
        ensures { IfOk result (λ some. (m : Map K V) × AllKeep K.cmp P.holds m × ((p : K → V → Bool) → Means (MayAnswer F.Fn test) p → some ≡ list_any (passes p) m)) }
    {
        Ok(self.view(rt)?.exists(test))
    }

    /// Whether every pair passes the test, of the map as it stands at one moment of the call.
    ///
    /// Cost: O(n), up to the first pair that fails; under all locks for the view alone. Refused: as `count`.
    pub fn for_all<R: Wait, F: Fn(&K, &V) -> bool>(&self, rt: &R, test: F) -> Result<bool, NoMemory>
        requires callable { F.IsAlwaysCallable test }
        ensures { IfOk result (λ all. (m : Map K V) × AllKeep K.cmp P.holds m × ((p : K → V → Bool) → Means (MayAnswer F.Fn test) p → all ≡ list_all (passes p) m)) }
    {
        Ok(self.view(rt)?.for_all(test))
    }

    /// A pair that passes the test, if there is one, of the map as it stands at one moment of the call: the first on a
    /// walk of a view. It keeps the rule.
    ///
    /// Cost: O(n), up to that pair; under all locks for the view alone. Refused: `NoMemory`, if memory runs out for the
    /// view, or a handle on the pair cannot be cloned.
    pub fn find<R: Wait, F: Fn(&K, &V) -> bool>(
        &self,
        rt: &R,
        test: F,
    ) -> Result<Option<Pair<K, V, S>>, NoMemory>
        requires callable { F.IsAlwaysCallable test }
        ensures found { IfOk result (λ found. (m : Map K V) × AllKeep K.cmp P.holds m × ((p : K → V → Bool) → Means (MayAnswer F.Fn test) p → IsFound p m (option_map (pair_of S.key_of S.value_of) found))) }
        ensures kept { IfOk result (λ found. IfSome found (λ pair. P.holds (S.key_of pair.0) (S.value_of pair.1))) }
    {
        self.view(rt)?.find(test)
    }

    /// The items of all pairs combined by the monoid, of the map as it stands at one moment of the call.
    ///
    /// Cost: O(n), under all locks for the view alone. Refused: as `count`.
    pub fn fold<R: Wait, M: Monoid, G: Fn(&K, &V) -> M::Item>(
        &self,
        rt: &R,
        monoid: &M,
        item: G,
    ) -> Result<M::Item, NoMemory>
        requires callable { G.IsAlwaysCallable item }
        ensures { IfOk result (λ all. (m : Map K V) × AllKeep K.cmp P.holds m × ((i : K → V → M.Item) → Means (MayAnswer G.Fn item) i → all ≡ folded (M.combine monoid.now) (M.unit_of monoid.now) (items_of i m))) }
    {
        let view = self.view(rt)?;
        let all = view.fold(monoid, item);
        drop(view);
        Ok(all)
    }

    /// The map of the pairs that pass the test, of the map as it stands at one moment of the call. It has one owner,
    /// and shares its keys and values with this map.
    ///
    /// Cost: O(n), and memory for the nodes of these pairs; under all locks for the view alone. Refused: `NoMemory`, if
    /// memory runs out.
    pub fn filter<R: Wait, F: Fn(&K, &V) -> bool>(
        &self,
        rt: &R,
        test: F,
    ) -> Result<Version<K, V, S>, NoMemory>
        requires callable { F.IsAlwaysCallable test }
        ensures entries { IfOk result (λ made. (m : Map K V) × AllKeep K.cmp P.holds m × ((p : K → V → Bool) → Means (MayAnswer F.Fn test) p → made.entries ≡ passing p m) × (length made.entries ≤ length m)) }
        ensures limit { IfOk result (λ made. made.limit ≡ MOST_PAIRS) }
    {
        self.view(rt)?.filter(test)
    }

    /// The map of the same keys, each with what the closure makes of its pair, of the map as it stands at one moment of
    /// the call. It has one owner, and shares its keys with this map.
    ///
    /// Cost: O(n), and memory for the nodes and a value for each pair; under all locks for the view alone. Refused:
    /// `NoMemory`, if memory runs out.
    pub fn map_values<R: Wait, W: Drop, G: Fn(&K, &V) -> W>(
        &self,
        rt: &R,
        change: G,
    ) -> Result<Version<K, W, S>, NoMemory>
    where
        S: Slots<K, W>,
        <S as ValueSlots<W>>::Value: Drop,
        requires callable { G.IsAlwaysCallable change }
        ensures entries { IfOk result (λ made. (m : Map K V) × AllKeep K.cmp P.holds m × ((f : K → V → W) → Means (MayAnswer G.Fn change) f → made.entries ≡ changed f m) × (length made.entries ≤ length m)) }
        ensures limit { IfOk result (λ made. made.limit ≡ MOST_PAIRS) }
    {
        let view = self.view(rt)?;
        let made = view.map_values(change);
        drop(view);
        made
    }
}

/// A query is asked of a map whose keys and values lie behind handles, since its answer has such handles.
impl<K: PathKey + Drop, V: Drop, P: Keeps<K, V>, J: Naming> TrieMap<K, V, P, J> {
    /// The answer of the query for the map as it stands at one moment of the call, and the map that it makes where it
    /// has a target. It is worked over a view, so that nobody waits for it. The map that it is answered for is one
    /// whose pairs all keep the rule.
    ///
    /// Cost: O(n), or up to where its answer is settled; under all locks for the view alone. Refused: `NoMemory`, if
    /// memory runs out.
    pub fn query<R: Wait, Q: Asks<K, V>>(
        &self,
        rt: &R,
        query: &Q,
    ) -> Result<(Answer<K, V, Q::Item>, Option<Version<K, V>>), NoMemory>
        requires { Q.ready query.now }
        ensures { IfOk result (λ answer. IsAnsweredOfKept K.cmp P.holds (Q.answered query.now) (Q.target_of query.now) answer.0 answer.1) }
    {
        self.view(rt)?.query(query)
    }
}

impl<K: PathKey + Drop + Send + Sync, V: Drop + Send + Sync, P: Keeps<K, V>, J: Naming> TrieMap<
    K,
    V,
    P,
    J,
> {
    /// What `query` returns, of the map as it stands at one moment of the call, worked by a crew of threads over a
    /// view.
    ///
    /// What runs where is as for [`View::par_query`](map_view::View::par_query): a map with no more pairs than the
    /// crew's grain is worked by the caller alone.
    ///
    /// Cost: O(n), shared out; under all locks for the view alone, and none while the crew works. Refused: `NoMemory`,
    /// if memory runs out.
    pub fn par_query<R, Q>(
        &self,
        rt: &R,
        query: &Q,
        crew: Crew,
    ) -> Result<(Answer<K, V, Q::Item>, Option<Version<K, V>>), NoMemory>
    where
        R: Threads + Wait + Sync,
        Q: Asks<K, V> + Sync,
        Q::Part: Send,
        requires { Q.ready query.now }
        ensures { IfOk result (λ answer. IsAnsweredOfKept K.cmp P.holds (Q.answered query.now) (Q.target_of query.now) answer.0 answer.1) }
    {
        self.view(rt)?.par_query(rt, query, crew)
    }
}
