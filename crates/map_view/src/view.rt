//! A map as it stood at one moment.
ghost use Rattle.std.specs.Prelude.{◌≡◌, ◌↔◌, ◌≤◌, [], All, IfOk, IfSome, IsPermutation, IsTrue, is_some, length, map, option_map};
ghost use Rattle.bulk_work.specs.Summaries.{IsAnswered};
ghost use Rattle.stripe.specs.Rules.{AllKeep};
ghost use Rattle.trie_shape.specs.Order.{walked};
ghost use Rattle.versions.specs.Map.{IsMap, value_at};
ghost use Rattle.versions.specs.declared.version.TheConstants.{MOST_PAIRS};

mod equality;
mod making;
mod many;
mod together;
mod walking;

use crate::keys_and_values::{Keys, Values};
use bulk_work::{Answer, Asks, ask};
use combiner::BulkIn;
use hash_path::{PathKey, Sought};
use iter::Pairs;
use std::alloc::Global;
use std::marker::{Model, PhantomData};
use std::sync::Wait;
use std::thread::Threads;
use stripes::{Anything, Keeps};
use task_pool::{Crew, Free, ask_crew, run_crew_in};
use trie_node::{NoMemory, Shared, Slots, walk_lists_map};
use versions::Version;

/// A map that never changes, as it stood at one moment when nobody wrote it. It is read with no lock, by any number of
/// threads.
///
/// <!-- quoted from crates/example_leases/src/main.rt -->
/// ```rust
/// let view = leases.view(rt)?;
/// let secure = view.par_count(rt, |_, lease| lease.port == 443, Crew::of(4))?;
/// let sum = view.fold(&Sum, |_, lease| i128::from(lease.port));
/// ```
///
/// n is the number of pairs, and O(log n) the way down the trie. No call takes a lock of the map that the view was
/// taken of. It keeps the nodes of its moment until it and all its handles are dropped.
#[derive(Drop)]
pub struct View<K: PathKey, V, P: Keeps<K, V> = Anything, S: Slots<K, V> = Shared> {
    alloc: Global,
    // What the calls read.
    plain: versions::View<K, V, S>,
    // The same root as a map, which `TrieMap::restore` parts: a plain view does not know the newest stamp of its nodes.
    whole: Version<K, V, S>,
    rule: PhantomData<P>,
}

impl<K: PathKey, V, P: Keeps<K, V>, S: Slots<K, V>> Model for View<K, V, P, S> {
    ghost use Rattle.std.specs.Prelude.{◌≡◌};
    ghost use Rattle.stripe.specs.Rules.{AllKeep};
    ghost use Rattle.versions.specs.Map.{Map};

    ghost Value = { Map K V };

    ghost view = { λ v. v.plain };

    ghost invariant = { λ v. AllKeep K.cmp P.holds v.plain × (v.whole.entries ≡ v.plain) };
}

impl<K: PathKey, V, P: Keeps<K, V>, S: Slots<K, V>> View<K, V, P, S>
where
    S::Key: Drop,
    S::Value: Drop,
{
    /// The view of a map whose pairs keep the rule.
    ///
    /// Cost: O(1), no lock. Refused: `NoMemory`, where the handle on the map cannot be cloned.
    pub fn of(alloc: Global, whole: Version<K, V, S>) -> Result<View<K, V, P, S>, NoMemory>
        requires { AllKeep K.cmp P.holds whole.entries }
        ensures { IfOk result (λ view. view ≡ whole.entries) }
    {
        Ok(View {
            alloc,
            plain: whole.view()?,
            whole,
            rule: PhantomData,
        })
    }

    /// The value of the key, or none.
    ///
    /// Cost: O(log n), no lock. Refused: never.
    pub fn get<Q: Sought<K>>(&self, key: Q) -> Option<&S::Value>
        ensures value { option_map (λ value. S.value_of value.now) result ≡ value_at K.cmp self.now (Q.key_of key) }
        ensures kept { IfSome result (λ value. P.holds (Q.key_of key) (S.value_of value.now)) }
    {
        self.plain.get(key)
    }

    /// Whether the key has a value.
    ///
    /// Cost: O(log n), no lock. Refused: never.
    pub fn contains_key<Q: Sought<K>>(&self, key: Q) -> bool
        ensures { result ≡ is_some (value_at K.cmp self.now (Q.key_of key)) }
    {
        self.plain.contains_key(key)
    }

    /// How many pairs there are.
    ///
    /// Cost: O(1), no lock. Refused: never.
    pub fn len(&self) -> u64
        ensures count { result ≡ length self.now }
        ensures few { length self.now ≤ MOST_PAIRS }
        ensures sorted { IsMap K.cmp self.now }
    {
        self.plain.len()
    }

    /// Whether there is no pair.
    ///
    /// Cost: O(1), no lock. Refused: never.
    pub fn is_empty(&self) -> bool
        ensures { IsTrue result ↔ (self.now ≡ []) }
    {
        self.plain.is_empty()
    }

    /// A walk over all pairs, each once, in order of position and, within one position, of key. Each of them keeps the
    /// rule.
    ///
    /// Cost: O(1), no lock, and O(n) for the walk. Refused: never.
    pub fn pairs(&self) -> Pairs<'_, K, V, S>
        ensures rest { result.rest ≡ walked K.cmp K.path_of self.now }
        ensures once { IsPermutation self.now result.rest }
        ensures kept { All (λ pair. P.holds pair.0 pair.1) result.rest }
    {
        self.iter()
    }

    /// A walk over all keys, each once, in the order of `pairs`.
    ///
    /// Cost: O(1), no lock, and O(n) for the walk. Refused: never.
    pub fn keys(&self) -> Keys<'_, K, V, S>
        ensures rest { result ≡ map (λ pair. pair.0) (walked K.cmp K.path_of self.now) }
        ensures once { IsPermutation (map (λ pair. pair.0) self.now) result }
    {
        Keys::of(self.pairs())
    }

    /// A walk over the values of all keys, in the order of `pairs`.
    ///
    /// Cost: O(1), no lock, and O(n) for the walk. Refused: never.
    pub fn values(&self) -> Values<'_, K, V, S>
        ensures rest { result ≡ map (λ pair. pair.1) (walked K.cmp K.path_of self.now) }
        ensures once { IsPermutation (map (λ pair. pair.1) self.now) result }
    {
        Values::of(self.pairs())
    }

    /// What each pair of the view keeps: the rule, at its key and on a walk, which has each pair once. It does nothing.
    pub fn law(&self)
        ensures at_key { AllKeep K.cmp P.holds self.now }
        ensures walked { All (λ pair. P.holds pair.0 pair.1) (walked K.cmp K.path_of self.now) }
        ensures once { IsPermutation self.now (walked K.cmp K.path_of self.now) }
    {
        walk_lists_map::<K, V>();
        self.plain.len();
    }

    /// The same view with no word of the rule, for calls that take one, as those of walks and pieces.
    ///
    /// Cost: O(1), no lock. Refused: never.
    pub fn plain(&self) -> &versions::View<K, V, S>
        ensures map { result.now ≡ self.now }
    {
        &self.plain
    }

    /// Another handle on the same view.
    ///
    /// Cost: O(1), no lock and no request for memory. Refused: `NoMemory`, where the handle cannot be cloned.
    pub fn try_clone(&self) -> Result<View<K, V, P, S>, NoMemory>
        ensures { IfOk result (λ view. view ≡ self.now) }
    {
        View::of(self.alloc, shared(&self.whole)?)
    }

    /// The same view as a map of one owner, for calls that put its pairs into another map with the nodes that they have.
    ///
    /// Cost: O(1), no lock. Refused: never.
    pub fn whole(&self) -> &Version<K, V, S>
        ensures entries { result.now.entries ≡ self.now }
        ensures kept { AllKeep K.cmp P.holds result.now.entries }
    {
        &self.whole
    }
}

/// A query is asked of a view whose keys and values lie behind handles, since its answer has such handles.
impl<K: PathKey + Drop, V: Drop, P: Keeps<K, V>> View<K, V, P> {
    /// The answer of the query for the whole view, and the map that it makes where it has a target. It is worked on the
    /// caller's thread.
    ///
    /// Cost: O(n), or up to where its answer is settled, no lock. Refused: `NoMemory`, if memory runs out.
    pub fn query<Q: Asks<K, V>>(
        &self,
        query: &Q,
    ) -> Result<(Answer<K, V, Q::Item>, Option<Version<K, V>>), NoMemory>
        requires { Q.ready query.now }
        ensures { IfOk result (λ answer. IsAnswered (Q.answered query.now self.now) (Q.target_of query.now) answer.0 answer.1) }
    {
        ask(self.alloc, self.plain.try_clone()?, query)
    }
}

/// The same by a crew.
impl<K: PathKey + Drop + Send + Sync, V: Drop + Send + Sync, P: Keeps<K, V>> View<K, V, P> {
    /// What `query` returns, worked by a crew: the view is cut into pieces, which the threads of the crew take from one
    /// another, and the caller works what they leave.
    ///
    /// The closures of the query run on these threads, several at once: who writes the map that the view was taken of
    /// goes on. The threads have ended when the call returns. A view with no more pairs than the crew's grain is worked
    /// by the caller alone. Where a number of the crew is beyond its limits, the nearest within them is taken.
    ///
    /// Cost: O(n), shared out, no lock. Refused: `NoMemory`, if memory runs out. A thread that cannot be started is no
    /// error: the others, or the caller, work its pieces.
    pub fn par_query<R, Q>(
        &self,
        rt: &R,
        query: &Q,
        crew: Crew,
    ) -> Result<(Answer<K, V, Q::Item>, Option<Version<K, V>>), NoMemory>
    where
        R: Threads + Wait + Sync,
        Q: Asks<K, V> + Sync,
        Q::Part: Send,
        requires { Q.ready query.now }
        ensures { IfOk result (λ answer. IsAnswered (Q.answered query.now self.now) (Q.target_of query.now) answer.0 answer.1) }
    {
        let view = self.plain.try_clone()?;
        ask_crew(rt, self.alloc, view, query, crew.within_limits())
    }
}

// Another handle on the same map.
fn shared<K: PathKey, V, S: Slots<K, V>>(
    whole: &Version<K, V, S>,
) -> Result<Version<K, V, S>, NoMemory>
where
    S::Key: Drop,
    S::Value: Drop,
    ensures { IfOk result (λ map. map.entries ≡ whole.now.entries) }
{
    whole.len();
    let root = whole.root().try_clone()?;
    Ok(Version::from_root(root, whole.limit(), whole.stamp()))
}

impl<K: PathKey + Send + Sync, V: Send + Sync, P: Keeps<K, V>, S: Slots<K, V> + Send + Sync> View<
    K,
    V,
    P,
    S,
>
where
    S::Key: Drop + Send + Sync,
    S::Value: Drop + Send + Sync,
{
    /// The part of all pairs, worked by a crew as `par_query` works a query, for any operation on maps.
    pub(crate) fn worked_by<R, B>(&self, rt: &R, bulk: &B, crew: Crew) -> Result<B::Part, NoMemory>
    where
        R: Threads + Wait + Sync,
        B: BulkIn<K, V, S> + Sync,
        B::Part: Send,
        requires { B.ready bulk.now }
        ensures { IfOk result (λ part. B.answers bulk.now self.now part) }
    {
        let crew = crew.within_limits();
        let report = run_crew_in(rt, self.alloc, &self.plain, bulk, crew, &Free)?;
        Ok(report.part)
    }
}

impl<K: PathKey, V: Copy, P: Keeps<K, V>, S: Slots<K, V>> View<K, V, P, S>
where
    S::Key: Drop,
    S::Value: Drop,
{
    /// A copy of the value of the key, or none.
    ///
    /// Cost: O(log n), no lock. Refused: never.
    pub fn get_copied<Q: Sought<K>>(&self, key: Q) -> Option<V>
        ensures value { result ≡ value_at K.cmp self.now (Q.key_of key) }
        ensures kept { IfSome result (λ value. P.holds (Q.key_of key) value) }
    {
        match self.get(key) {
            Some(value) => Some(*S::lend_value(value)),
            None => None,
        }
    }
}
