//! Removals. A place is free again once its pair is gone.
ghost use Rattle.std.specs.Prelude.{◌≡◌, ◌≤◌, IfOk, IfSome, Option, Some, is_some, length, true};
ghost use Rattle.stripe.specs.Rules.{AllKeep};
ghost use Rattle.stripe.specs.Updates.{MayPass};
ghost use Rattle.versions.specs.Map.{Map};

use super::BoundedMap;
use hash_path::{PathKey, Sought};
use map_view::View;
use std::sync::Wait;
use trie_map::{Keeps, NoMemory};
use trie_node::Slots;

impl<K: PathKey + Drop, V: Drop, P: Keeps<K, V>, S: Slots<K, V>> BoundedMap<K, V, P, S>
where
    S::Key: Drop,
    S::Value: Drop,
{
    /// Removes the key, and returns the value before, or none.
    ///
    /// Cost: O(log n), under the lock of the key's stripe. Refused: `NoMemory`, if memory runs out.
    pub fn remove<R: Wait, Q: Sought<K>>(
        &self,
        rt: &R,
        key: Q,
    ) -> Result<Option<S::Value>, NoMemory>
        ensures kept { IfOk result (λ before. IfSome before (λ found. P.holds (Q.key_of key) (S.value_of found))) }
    {
        let before = self.map.remove(rt, key)?;
        self.places.give_back(u64::from(before.is_some()));
        Ok(before)
    }

    /// Removes the key where it has a value of which the test holds, as one step, and returns the value that was
    /// removed, or none.
    ///
    /// Cost: O(log n), under the lock of the key's stripe, where the test runs at most once. Refused: `NoMemory`, if
    /// memory runs out; the test has then run, and the map is as before.
    pub fn remove_where<R: Wait, Q: Sought<K>, F: FnOnce(&V) -> bool>(
        &self,
        rt: &R,
        key: Q,
        test: F,
    ) -> Result<Option<S::Value>, NoMemory>
        requires callable { (value : _) → P.holds (Q.key_of key) value.now → F.pre test value }
        ensures tested { IfOk result (λ removed. (found : Option V) × IfSome found (P.holds (Q.key_of key)) × MayPass F.FnOnce test found (is_some removed)) }
        ensures removed { IfOk result (λ removed. IfSome removed (λ value. MayPass F.FnOnce test (Some (S.value_of value)) true)) }
        ensures kept { IfOk result (λ removed. IfSome removed (λ value. P.holds (Q.key_of key) (S.value_of value))) }
    {
        let removed = self.map.remove_where(rt, key, test)?;
        self.places.give_back(u64::from(removed.is_some()));
        Ok(removed)
    }

    /// Removes the pairs that fail the test, and returns how many it removed.
    ///
    /// A view is taken and walked, as by `TrieMap::retain`: the test runs with no lock held, and once more before a
    /// removal, under the lock of the key's stripe. The place of each pair is free once it is gone.
    ///
    /// Cost: O(n), and O(log n) for each pair that fails, under all locks for the view and one lock for each of these.
    /// Refused: `NoMemory`, if memory runs out; what is removed by then is gone.
    pub fn retain<R: Wait, F: Fn(&K, &V) -> bool>(&self, rt: &R, test: F) -> Result<u64, NoMemory>
        requires callable { F.IsAlwaysCallable test }
        ensures few { IfOk result (λ removed. (m : Map K V) × AllKeep K.cmp P.holds m × (removed ≤ length m)) }
    {
        let view = self.map.view(rt)?;
        self.remove_all_failing(rt, &view, &test)
    }

    /// Removes all pairs at one moment of the call. Their places are free right after it.
    ///
    /// Cost: O(1), under all locks; then what the drops take. Refused: `NoMemory`, if memory runs out.
    pub fn clear<R: Wait>(&self, rt: &R) -> Result<(), NoMemory> {
        match self.map.restore(rt, &self.empty) {
            Ok(before) => {
                self.places.give_back(before.len());
                Ok(())
            }
            // It is never full, since what it puts in the place of all has no pair.
            Err(_) => Err(NoMemory),
        }
    }

    // Removes the pairs of the view that fail the test, where those that their keys have now fail too. Returns how many
    // they are.
    fn remove_all_failing<R: Wait, F: Fn(&K, &V) -> bool>(
        &self,
        rt: &R,
        view: &View<K, V, P, S>,
        test: &F,
    ) -> Result<u64, NoMemory>
        requires callable { F.IsAlwaysCallable test.now }
        ensures few { IfOk result (λ removed. removed ≤ length view.now) }
    {
        view.len();
        let mut removed = 0u64;
        for (key, value) in view.bunched() {
            let gone = self.remove_failing(rt, key, value, test)?;
            removed += u64::from(gone);
        }
        Ok(removed)
    }

    // Removes the key where the value that was seen fails the test and so does the one that it has now. Returns whether
    // it did.
    fn remove_failing<R: Wait, F: Fn(&K, &V) -> bool>(
        &self,
        rt: &R,
        key: &S::Key,
        seen: &S::Value,
        test: &F,
    ) -> Result<bool, NoMemory>
        requires callable { F.IsAlwaysCallable test.now }
    {
        let lent = S::lend_key(key);
        if test(lent, S::lend_value(seen)) {
            return Ok(false);
        }
        let removed = self.remove_where(rt, lent, |value| !test(lent, value))?;
        Ok(removed.is_some())
    }
}

impl<K: PathKey + Drop, V: Eq + Drop, P: Keeps<K, V>, S: Slots<K, V>> BoundedMap<K, V, P, S>
where
    S::Key: Drop,
    S::Value: Drop,
{
    /// Removes the key where it is mapped to a value equal to `value`, and returns whether it was.
    ///
    /// Cost: O(log n), under the lock of the key's stripe, where `V::eq` runs. Refused: `NoMemory`, if memory runs out.
    pub fn remove_if<R: Wait, Q: Sought<K>>(
        &self,
        rt: &R,
        key: Q,
        value: &V,
    ) -> Result<bool, NoMemory> {
        let removed = self.map.remove_if(rt, key, value)?;
        self.places.give_back(u64::from(removed));
        Ok(removed)
    }
}
