//! The map with a limit.
ghost use Rattle.std.specs.Prelude.{◌≡◌, ◌≤◌, IfOk, IfSome, IsTrue};
ghost use Rattle.stripe.specs.Rules.{AllKeep};
ghost use Rattle.versions.specs.declared.version.TheConstants.{MOST_PAIRS};

mod deciding;
mod putting;
mod removing;

use crate::places::Places;
use hash_path::{PathKey, Sought};
use map_view::View;
use std::alloc::Global;
use std::sync::Wait;
use trie_map::{Anything, Keeps, NoMemory, TrieMap};
use trie_node::{Shared, Slots};
use write_history::Unnamed;

/// A [`TrieMap`] that never has more pairs than its limit, so that a service bounds its memory: a put of a new key
/// beyond that is refused as `Full`.
///
/// <!-- quoted from crates/tests_trie_map/src/tests/bounded.rt -->
/// ```rust
/// let sessions: BoundedMap<u64, u64> = BoundedMap::with_limit(&rt, 2).expect(&rt, "no map");
/// sessions.put(&rt, 1, 10).expect(&rt, "not put");
/// ```
///
/// # Why there are never more
///
/// A call that puts a new pair has taken one of `limit` places before the pair is there. A place is free again only
/// once its pair is gone from the map, or its call has put no new pair. So at each moment each pair has a place of its
/// own, and there are no more pairs than places.
///
/// # When a put is full
///
/// A put is refused as `Full` where its key was absent and no place was free: each was that of a pair, or in the hands of
/// another call that was under way. Such a call is a put of a new key, a `put_shared`, a `put_if_absent` or a
/// `get_or_else_update` whose key was absent when it looked, or a removal whose pair was gone. So one thread alone is
/// refused exactly where there are `limit` pairs. A `put` or an `update` of a key that is present takes no place, and
/// sees at one moment that the key is absent and no place is free; `put_if_absent` and `get_or_else_update` look for the
/// key first, and `put_shared` for a place.
///
/// A stripe of the map is full at 524,288 pairs, as that of a `TrieMap`: then a new key is refused as `Full` too.
///
/// What a call costs is what that of the `TrieMap` costs, and a step on a number that all threads share where a pair
/// comes or goes. What runs under a lock is said there. Contracts say of what a call returns that it keeps the rule; that
/// pairs are counted right, tests show. Questions are asked of a [`view`](BoundedMap::view), of which
/// `TrieMap::from_view` makes a map with no limit.
#[derive(Drop)]
pub struct BoundedMap<K: PathKey, V, P: Keeps<K, V> = Anything, S: Slots<K, V> = Shared> {
    alloc: Global,
    map: TrieMap<K, V, P, Unnamed, S>,
    places: Places,
    // The view of a map with no pairs, which `clear` puts in the place of all.
    empty: View<K, V, P, S>,
}

impl<K: PathKey + Drop, V: Drop, P: Keeps<K, V>, S: Slots<K, V>> BoundedMap<K, V, P, S>
where
    S::Key: Drop,
    S::Value: Drop,
{
    /// A map with no pairs, which is to have no more than `limit`.
    ///
    /// Cost: O(1), under the locks of the new map. Refused: `NoMemory`, if memory runs out.
    pub fn with_limit<R: AllocGlobal + Wait>(
        rt: &R,
        limit: u64,
    ) -> Result<BoundedMap<K, V, P, S>, NoMemory>
        ensures { IfOk result (λ map. map.places.limit ≡ limit) }
    {
        let map = TrieMap::new(rt)?;
        let empty = map.view(rt)?;
        Ok(BoundedMap {
            alloc: rt.alloc(),
            map,
            places: Places::new(limit),
            empty,
        })
    }

    /// The most pairs that the map may have.
    ///
    /// Cost: O(1), no lock. Refused: never.
    pub fn limit(&self) -> u64
        ensures { result ≡ self.now.places.limit }
    {
        self.places.limit()
    }

    /// The value of the key, or none.
    ///
    /// Cost: O(log n), under the lock of the key's stripe. Refused: `NoMemory`, where the handle on the value cannot be
    /// cloned.
    pub fn get<R: Wait, Q: Sought<K>>(&self, rt: &R, key: Q) -> Result<Option<S::Value>, NoMemory>
        ensures kept { IfOk result (λ found. IfSome found (λ value. P.holds (Q.key_of key) (S.value_of value))) }
    {
        self.map.get(rt, key)
    }

    /// Whether the key has a value.
    ///
    /// Cost: O(log n), under the lock of the key's stripe. Refused: never.
    pub fn contains_key<R: Wait, Q: Sought<K>>(&self, rt: &R, key: Q) -> bool
        ensures kept { IsTrue result → (value : V) × P.holds (Q.key_of key) value }
    {
        self.map.contains_key(rt, key)
    }

    /// How many pairs there are at one moment of the call.
    ///
    /// Cost: O(1), under all locks. Refused: never.
    pub fn len<R: Wait>(&self, rt: &R) -> u64
        ensures { result ≤ MOST_PAIRS }
    {
        self.map.len(rt)
    }

    /// Whether there is no pair at one moment of the call.
    ///
    /// Cost: O(1), under all locks. Refused: never.
    pub fn is_empty<R: Wait>(&self, rt: &R) -> bool {
        self.map.is_empty(rt)
    }

    /// The map as it stands at one moment of the call, to be read and asked with no lock.
    ///
    /// Cost: O(1), under all locks. Refused: `NoMemory`, if memory runs out.
    pub fn view<R: Wait>(&self, rt: &R) -> Result<View<K, V, P, S>, NoMemory>
        ensures { IfOk result (λ view. AllKeep K.cmp P.holds view) }
    {
        self.map.view(rt)
    }
}

impl<K: PathKey + Drop, V: Copy + Drop, P: Keeps<K, V>, S: Slots<K, V>> BoundedMap<K, V, P, S>
where
    S::Key: Drop,
    S::Value: Drop,
{
    /// A copy of the value of the key, or none.
    ///
    /// Cost: O(log n), under the lock of the key's stripe. Refused: never.
    pub fn get_copied<R: Wait, Q: Sought<K>>(&self, rt: &R, key: Q) -> Option<V>
        ensures kept { IfSome result (λ value. P.holds (Q.key_of key) value) }
    {
        self.map.get_copied(rt, key)
    }
}
