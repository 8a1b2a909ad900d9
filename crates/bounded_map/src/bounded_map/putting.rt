//! Puts that take a place before they put, and writes of keys that are present.
ghost use Rattle.std.specs.Prelude.{◌≡◌, IfOk, IfSome};

use super::BoundedMap;
use hash_path::PathKey;
use std::sync::Wait;
use trie_map::{Keeps, NoMemory, PutError};
use trie_node::Slots;

impl<K: PathKey + Drop, V: Drop, P: Keeps<K, V>, S: Slots<K, V>> BoundedMap<K, V, P, S>
where
    S::Key: Drop,
    S::Value: Drop,
{
    /// Maps the key to a value that is shared already, and returns the value before, or none. It holds a place for as
    /// long as it runs, also where the key is present; where none is free, it replaces a value that is there.
    ///
    /// Cost: O(log n), under the lock of the key's stripe. Refused: as `put`.
    pub fn put_shared<R: Wait>(
        &self,
        rt: &R,
        key: K,
        value: S::Value,
    ) -> Result<Option<S::Value>, PutError>
        requires { P.holds key (S.value_of value) }
        ensures kept { IfOk result (λ before. IfSome before (λ found. P.holds key (S.value_of found))) }
    {
        let Some(place) = self.places.take() else {
            return match self.map.replace_shared(rt, key, value)? {
                Some(before) => Ok(Some(before)),
                None => Err(PutError::Full),
            };
        };
        let before = self.map.put_shared(rt, key, value)?;
        if before.is_none() {
            place.keep();
        }
        Ok(before)
    }

    /// Maps the key to the value where the key is absent, and returns the value that is there, or none.
    ///
    /// Cost: O(log n), one lock for a look-up, and one for the put where that finds none. Refused: as `put`, and by
    /// `NoMemory` where the handle on the value cannot be cloned.
    pub fn put_if_absent<R: Wait>(
        &self,
        rt: &R,
        key: K,
        value: V,
    ) -> Result<Option<S::Value>, PutError>
        requires { P.holds key value }
        ensures kept { IfOk result (λ before. IfSome before (λ found. P.holds key (S.value_of found))) }
    {
        if let Some(found) = self.map.get(rt, &key)? {
            return Ok(Some(found));
        }
        let Some(place) = self.places.take() else {
            return Err(PutError::Full);
        };
        let before = self.map.put_if_absent(rt, key, value)?;
        if before.is_none() {
            place.keep();
        }
        Ok(before)
    }

    /// The value that the key has then: the one that it had, else the one that `make` made.
    ///
    /// `make` is called where the key was absent when the call looked and a place was free, and no lock is held
    /// meanwhile. Where another thread has put the key by then, its value is returned, and the one that was made is
    /// dropped.
    ///
    /// Cost: O(log n), one lock for the look-up and one for the put. Refused: as `put_if_absent`; where that is `Full`
    /// for want of a place, `make` has not run.
    pub fn get_or_else_update<R: Wait, F: FnOnce() -> V>(
        &self,
        rt: &R,
        key: K,
        make: F,
    ) -> Result<S::Value, PutError>
        requires callable { F.pre make }
        requires rule { (value : V) → F.post make value → P.holds key value }
        ensures kept { IfOk result (λ value. P.holds key (S.value_of value)) }
    {
        if let Some(found) = self.map.get(rt, &key)? {
            return Ok(found);
        }
        let Some(place) = self.places.take() else {
            return Err(PutError::Full);
        };
        let made = S::new_value(self.alloc, make())?;
        let answer = S::another_value(&made)?;
        match self.map.put_shared_if_absent(rt, key, made)? {
            Some(found) => Ok(found),
            None => {
                place.keep();
                Ok(answer)
            }
        }
    }

    /// Maps the key to the value where the key is present, and returns the value before, or none.
    ///
    /// Cost: O(log n), under the lock of the key's stripe. Refused: `NoMemory`, if memory runs out.
    pub fn replace<R: Wait>(&self, rt: &R, key: K, value: V) -> Result<Option<S::Value>, NoMemory>
        requires { P.holds key value }
        ensures kept { IfOk result (λ before. IfSome before (λ found. P.holds key (S.value_of found))) }
    {
        self.map.replace(rt, key, value)
    }
}

impl<K: PathKey + Drop, V: Eq + Drop, P: Keeps<K, V>, S: Slots<K, V>> BoundedMap<K, V, P, S>
where
    S::Key: Drop,
    S::Value: Drop,
{
    /// Maps the key to the value where it is mapped to a value equal to `old`, and returns whether it was.
    ///
    /// Cost: O(log n), under the lock of the key's stripe, where `V::eq` runs. Refused: `NoMemory`, if memory runs out.
    pub fn replace_if<R: Wait>(&self, rt: &R, key: K, old: &V, value: V) -> Result<bool, NoMemory>
        requires { P.holds key value }
    {
        self.map.replace_if(rt, key, old, value)
    }
}
