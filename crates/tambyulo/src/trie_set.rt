//! A set of keys that threads share.
use hash_path::{PathKey, Sought};
use std::sync::Wait;
use trie_map::{NoMemory, PutError, TrieMap, View};

/// A set of keys that threads share by reference, over a [`TrieMap`](trie_map::TrieMap) whose values are `()`.
///
/// <!-- quoted from crates/tests_trie_map/src/tests/sets.rt -->
/// ```rust
/// let seen: TrieSet<u64> = TrieSet::new(&rt).expect(&rt, "no set");
/// let first = seen.insert(&rt, 7).expect(&rt, "not inserted");
/// ```
///
/// What a call costs, locks and may be refused for is as of the map's call that it names. What others have put there no
/// clause can name: tests show it. Two sets are put together by their views: `union`, `intersection` and `difference` of
/// a view make a map, and `restore_version` puts that in the place of a set's content.
#[derive(Drop)]
pub struct TrieSet<K: PathKey> {
    map: TrieMap<K, ()>,
}

impl<K: PathKey + Drop> TrieSet<K> {
    /// A set with no keys.
    ///
    /// Cost: O(1), no lock. Refused: `NoMemory`, if memory runs out.
    pub fn new<R: AllocGlobal>(rt: &R) -> Result<TrieSet<K>, NoMemory> {
        Ok(TrieSet {
            map: TrieMap::new(rt)?,
        })
    }

    /// Inserts the key, and returns whether it was absent.
    ///
    /// Cost: O(log n) for n keys, under the lock of the key's stripe. Refused: as `TrieMap::put`.
    pub fn insert<R: Wait>(&self, rt: &R, key: K) -> Result<bool, PutError> {
        Ok(self.map.put_if_absent(rt, key, ())?.is_none())
    }

    /// Removes the key, and returns whether it was there.
    ///
    /// Cost: O(log n), under the lock of the key's stripe. Refused: `NoMemory`, if memory runs out.
    pub fn remove<R: Wait, Q: Sought<K>>(&self, rt: &R, key: Q) -> Result<bool, NoMemory> {
        Ok(self.map.remove(rt, key)?.is_some())
    }

    /// Whether the key is there.
    ///
    /// Cost: O(log n), under the lock of the key's stripe. Refused: never.
    pub fn contains<R: Wait, Q: Sought<K>>(&self, rt: &R, key: Q) -> bool {
        self.map.contains_key(rt, key)
    }

    /// How many keys there are at one moment of the call.
    ///
    /// Cost: O(1), under all locks. Refused: never.
    pub fn len<R: Wait>(&self, rt: &R) -> u64 {
        self.map.len(rt)
    }

    /// Whether there is no key at one moment of the call.
    ///
    /// Cost: O(1), under all locks. Refused: never.
    pub fn is_empty<R: Wait>(&self, rt: &R) -> bool {
        self.map.is_empty(rt)
    }

    /// Removes all keys at one moment of the call.
    ///
    /// Cost: O(1), under all locks. Refused: `NoMemory`, if memory runs out.
    pub fn clear<R: Wait>(&self, rt: &R) -> Result<(), NoMemory> {
        self.map.clear(rt)
    }

    /// The set as it stands at one moment of the call, to be read and walked with no lock: `keys` walks over it.
    ///
    /// Cost: O(1), under all locks. Refused: `NoMemory`, if memory runs out.
    pub fn view<R: Wait>(&self, rt: &R) -> Result<View<K, ()>, NoMemory> {
        self.map.view(rt)
    }

    /// The map of the keys, for its other calls.
    ///
    /// Cost: O(1), no lock. Refused: never.
    pub fn as_map(&self) -> &TrieMap<K, ()> {
        &self.map
    }
}
