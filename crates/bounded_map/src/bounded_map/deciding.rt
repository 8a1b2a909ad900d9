//! Writes that a closure decides on, and the puts that are such writes.
ghost use Rattle.std.specs.Prelude.{◌≡◌, Err, IfErr, IfOk, IfSome, None, Option, Some, option_map};
ghost use Rattle.stripe.specs.Updates.{MayMake};

use super::BoundedMap;
use crate::places::Step;
use hash_path::PathKey;
use std::sync::Wait;
use trie_map::{Keeps, PutError};
use trie_node::Slots;

impl<K: PathKey + Drop, V: Drop, P: Keeps<K, V>, S: Slots<K, V>> BoundedMap<K, V, P, S>
where
    S::Key: Drop,
    S::Value: Drop,
{
    /// Maps the key to the value, and returns the value before, or none. It is one step, in which a new key takes a
    /// place under the lock of its stripe.
    ///
    /// Cost: O(log n), under the lock of the key's stripe. Refused: `Full`, where the key is new and no place is free, or
    /// its stripe is full; `NoMemory`, if memory runs out.
    pub fn put<R: Wait>(&self, rt: &R, key: K, value: V) -> Result<Option<S::Value>, PutError>
        requires { P.holds key value }
        ensures kept { IfOk result (λ before. IfSome before (λ found. P.holds key (S.value_of found))) }
    {
        self.update(rt, key, move |_| Some(value))
    }

    /// Calls `change` at the value that the key has, or at none, and stores what it makes of it, as one step. Where it
    /// makes none, the key is removed, or stays absent. It returns the value before, or none.
    ///
    /// `change` runs once, under the lock, and must not call the map.
    ///
    /// Cost: O(log n), under the lock of the key's stripe, where `change` runs. Refused: as `put`; `change` has then run,
    /// or not, and the map is as before. `Full` only where `change` was called at none, and made a value.
    pub fn update<R: Wait, F: FnOnce(Option<&V>) -> Option<V>>(
        &self,
        rt: &R,
        key: K,
        change: F,
    ) -> Result<Option<S::Value>, PutError>
        requires callable { (old : _) → IfSome old (λ value. P.holds key value.now) → F.pre change old }
        requires rule { (old : _) (made : _) → IfSome old (λ value. P.holds key value.now) → F.post change old made → IfSome made (P.holds key) }
        ensures made { IfOk result (λ before. (made : Option V) × MayMake F.FnOnce change (option_map S.value_of before) made) }
        ensures full { result ≡ Err PutError.Full → (value : V) × MayMake F.FnOnce change None (Some value) }
        ensures kept { IfOk result (λ before. IfSome before (λ found. P.holds key (S.value_of found))) }
    {
        let mut step = Step::Same;
        let decide = |old: Option<&V>| -> Result<Option<V>, V>
            requires { F.pre change old }
            ensures admitted { IfOk result (λ made. F.post change old.entry made) }
            ensures refused { IfErr result (λ value. (old.entry ≡ None) × F.post change old.entry (Some value)) }
        {
            let had = old.is_some();
            self.places.admit(had, change(old), &mut step)
        };
        let done = self.map.try_update(rt, key, decide);
        self.places.settle(step, done.is_ok());
        match done {
            Ok(tried) => match tried {
                Ok(before) => Ok(before),
                Err(_value) => Err(PutError::Full),
            },
            Err(error) => Err(error),
        }
    }
}
