//! Writes of a map that a closure decides on, under the lock of the key's stripe.
ghost use Rattle.std.specs.Prelude.{◌≡◌, Err, IfErr, IfOk, IfSome, None, Ok, Option, Some, is_some, option_map, true};
ghost use Rattle.stripe.specs.Updates.{MayMake, MayPass};

use super::TrieMap;
use hash_path::{PathKey, Sought};
use map_session::PutError;
use std::sync::Wait;
use stripes::Keeps;
use trie_node::{NoMemory, Slots};
use write_history::{Author, Naming};

impl<K: PathKey + Drop, V: Drop, P: Keeps<K, V>, J: Naming, S: Slots<K, V>> TrieMap<K, V, P, J, S>
where
    S::Key: Drop,
    S::Value: Drop,
{
    /// Calls `change` at the value that the key has, or at none, and stores what it makes of it, as one step: no other
    /// call writes the key between the two. Where it makes none, the key is removed, or stays absent. It returns the
    /// value before, at which `change` was called, or none.
    ///
    /// So a counter for each key loses no call: `counts.update(rt, word, |old| Some(old.map_or(1, |n|
    /// n.saturating_add(1))))?`.
    ///
    /// `change` runs once, under the lock: calls of keys of that stripe wait for it, and it must not call the map,
    /// since the thread would wait for itself. It may rest on the rule for the value that it is given, and what it
    /// makes has to keep it. What it makes is dropped under the lock where it cannot be stored.
    ///
    /// Cost: O(log n), under the lock of the key's stripe. Refused: as `put`; `change` has then run, or not, and the
    /// map is as before. `Full` only where `change` was called at none, and made a value.
    pub fn update<R: Wait, F: FnOnce(Option<&V>) -> Option<V>>(
        &self,
        rt: &R,
        key: K,
        change: F,
    ) -> Result<Option<S::Value>, PutError>
        requires callable { (old : _) → IfSome old (λ value. P.holds key value.now) → F.pre change old }
        requires rule { (old : _) (made : _) → IfSome old (λ value. P.holds key value.now) → F.post change old made → IfSome made (P.holds key) }
        ensures made { IfOk result (λ before. (made : Option V) × MayMake F.FnOnce change (option_map S.value_of before) made) }
        ensures full { result ≡ Err PutError.Full → (value : V) × MayMake F.FnOnce change None (Some value) }
        ensures kept { IfOk result (λ before. IfSome before (λ found. P.holds key (S.value_of found))) }
    {
        let path = key.path();
        let mut stripe = self.row.stripe_at(rt, path);
        match stripe.update(self.alloc, key, path, change, &mut Author::nobody()) {
            Ok(before) => Ok(before),
            Err(refusal) => Err(PutError::of(refusal)),
        }
    }

    /// What `update` does, where `change` returns something beside what it makes: that is returned. The value before is
    /// dropped when the lock is free again.
    ///
    /// So a number is drawn from a counter: `counts.update_with(rt, word, |old| { let n = old.map_or(1, |n|
    /// n.saturating_add(1)); (Some(n), n) })?`.
    ///
    /// Cost: O(log n), under the lock of the key's stripe, where `change` runs. Refused: as `update`.
    pub fn update_with<R: Wait, T: Drop, F: FnOnce(Option<&V>) -> (Option<V>, T)>(
        &self,
        rt: &R,
        key: K,
        change: F,
    ) -> Result<T, PutError>
        requires callable { (old : _) → IfSome old (λ value. P.holds key value.now) → F.pre change old }
        requires rule { (old : _) (made : _) → IfSome old (λ value. P.holds key value.now) → F.post change old made → IfSome made.0 (P.holds key) }
        ensures made { IfOk result (λ answer. (old : Option V) × (made : Option V) × IfSome old (P.holds key) × MayMake F.FnOnce change old (made, answer)) }
        ensures full { result ≡ Err PutError.Full → (value : V) × (answer : T) × MayMake F.FnOnce change None (Some value, answer) }
    {
        let path = key.path();
        let mut stripe = self.row.stripe_at(rt, path);
        let done = stripe.update_with(self.alloc, key, path, change, &mut Author::nobody());
        drop(stripe);
        match done {
            Ok((_, answer)) => Ok(answer),
            Err(refusal) => Err(PutError::of(refusal)),
        }
    }

    /// What `update` does, where `change` may fail: the map is then as before, and the error of `change` is returned.
    ///
    /// Cost: O(log n), under the lock of the key's stripe, where `change` runs. Refused: as `update`, which is the
    /// outer error; the inner one is that of `change`.
    pub fn try_update<R: Wait, E, F: FnOnce(Option<&V>) -> Result<Option<V>, E>>(
        &self,
        rt: &R,
        key: K,
        change: F,
    ) -> Result<Result<Option<S::Value>, E>, PutError>
        requires callable { (old : _) → IfSome old (λ value. P.holds key value.now) → F.pre change old }
        requires rule { (old : _) (made : _) → IfSome old (λ value. P.holds key value.now) → F.post change old made → IfOk made (λ new. IfSome new (P.holds key)) }
        ensures made { IfOk result (λ done. IfOk done (λ before. (made : Option V) × MayMake F.FnOnce change (option_map S.value_of before) (Ok made))) }
        ensures failed { IfOk result (λ done. IfErr done (λ error. (old : Option V) × IfSome old (P.holds key) × MayMake F.FnOnce change old (Err error))) }
        ensures full { result ≡ Err PutError.Full → (value : V) × MayMake F.FnOnce change None (Ok (Some value)) }
        ensures kept { IfOk result (λ done. IfOk done (λ before. IfSome before (λ found. P.holds key (S.value_of found)))) }
    {
        let path = key.path();
        let mut stripe = self.row.stripe_at(rt, path);
        stripe.law();
        match stripe.try_update(self.alloc, key, path, change, &mut Author::nobody()) {
            Ok(done) => Ok(done),
            Err(refusal) => Err(PutError::of(refusal)),
        }
    }

    /// Removes the key where it has a value of which the test holds, as one step, and returns the value that was
    /// removed, or none.
    ///
    /// Cost: O(log n), under the lock of the key's stripe, where the test runs at most once, as `change` does in
    /// `update`. Refused: `NoMemory`, if memory runs out; the test has then run, and the map is as before.
    pub fn remove_where<R: Wait, Q: Sought<K>, F: FnOnce(&V) -> bool>(
        &self,
        rt: &R,
        key: Q,
        test: F,
    ) -> Result<Option<S::Value>, NoMemory>
        requires callable { (value : _) → P.holds (Q.key_of key) value.now → F.pre test value }
        ensures tested { IfOk result (λ removed. (found : Option V) × IfSome found (P.holds (Q.key_of key)) × MayPass F.FnOnce test found (is_some removed)) }
        ensures removed { IfOk result (λ removed. IfSome removed (λ value. MayPass F.FnOnce test (Some (S.value_of value)) true)) }
        ensures kept { IfOk result (λ removed. IfSome removed (λ value. P.holds (Q.key_of key) (S.value_of value))) }
    {
        let path = key.path_sought();
        let mut stripe = self.row.stripe_at(rt, path);
        stripe.law();
        stripe.remove_passing(self.alloc, key, path, test, &mut Author::nobody())
    }
}
