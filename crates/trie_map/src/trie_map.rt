//! The map that threads share.
ghost use Rattle.std.specs.Prelude.{◌≡◌, Err, IfErr, IfOk, IfSome, IsTrue, None, false};

mod all_locked;
mod asking;
mod counting;
mod deciding;
mod filling;
mod many;
mod reading;
mod reading_hot;
mod replacing;
mod restoring;
mod retaining;
mod sessions;

use crate::origin::{Origin, found_or_made, found_or_tried};
use hash_path::{Path, PathKey, Sought};
use map_session::PutError;
use std::alloc::Global;
use std::sync::Wait;
use stripes::{Anything, Keeps, Stripes, empties};
use trie_node::{Always, Condition, IfAbsent, IfEqual, InPlace, NoMemory, Shared, Slots};
use versions::{Change, Refusal};
use write_history::{Author, Naming, Unnamed};

/// A map that threads share by reference, for as long as a service runs.
///
/// <!-- quoted from crates/example_leases/src/main.rt -->
/// ```rust
/// let leases: Leases = TrieMap::new(rt)?;
/// serve_all(rt, &leases)?;
/// leases.put(rt, 5, Lease { port: 8_443 })?;
/// let port = leases.get(rt, &5)?.map_or(0, |lease| lease.port);
/// ```
///
/// It has 32 stripes, each under a lock of its own: the pairs whose path words begin with the same digit. Calls of keys
/// in different stripes do not wait for one another. What a call finds is what other threads left, so a clause says of
/// it only that its pairs keep the rule. `is_empty`, `len` and `contains_key` return what is there, `clear` removes it,
/// and `view`, `snapshot` and `query` take all stripes as they stand at one moment. The code and tests show that; of a
/// map that has a history, `J`, the clauses of a [`Session`] say it. A call that is refused has changed nothing;
/// `extend` and `retain`, and calls whose closure has run, say more.
///
/// # What runs under a lock
///
/// `K::cmp`, `K::path` and `V::eq` run while the stripe of the key is locked, and of a look-up or a removal
/// `Sought::compare_with`. So do the drops of a key that is replaced or removed, and of a key and a value that are not
/// written. They must not call the map: the thread would wait for itself. A value that is replaced or removed is handed
/// out, and dropped by whoever has it last; what `clear` removes is dropped once all locks are free. Each call says
/// whether its closure runs under the lock.
///
/// # Between two calls
///
/// Between a `get` and a `put` of one thread another may write the key, and its write is then lost. `put_if_absent`,
/// `replace_if`, `remove_if`, `remove_where`, `get_or_else_update` and `update` decide and write as one step: `update`
/// makes the new value of the one that is there. Where that takes long, write with `replace_if` what was made of the
/// value that `get` found, and begin again where it returns false.
///
/// # What it costs
///
/// n is the number of pairs, and O(log n) the way down the trie: at most thirteen steps, and then a search by halves
/// among the keys that have the key's whole path word. A write copies these, so n keys of one word cost n² steps to
/// put, and all calls on that stripe wait meanwhile. A stripe holds 524,288 pairs at most
/// ([`MOST_PAIRS_OF_STRIPE`](crate::MOST_PAIRS_OF_STRIPE)), so keys whose words begin alike fill one stripe while the
/// map has room elsewhere. A call under all locks holds the 32 stripes at one moment, for short steps: all other
/// calls wait for these. A view or a snapshot keeps the nodes of its moment, so a write copies those of its way, and
/// memory grows with what is written meanwhile.
#[derive(Drop)]
pub struct TrieMap<
    K: PathKey,
    V,
    P: Keeps<K, V> = Anything,
    J: Naming = Unnamed,
    S: Slots<K, V> = Shared,
> {
    alloc: Global,
    row: Stripes<K, V, P, J, S>,
}

/// A map whose keys and values lie in the rows of its trie, with no block of memory for each. Both are `Inline`: numbers,
/// short texts, small structs. What a call hands out is the value itself, as `Option<V>` of `get`.
///
/// A view or a snapshot shares the rows, and the write that copies a row then makes another of each key and value in it.
pub type InPlaceMap<K, V, P = Anything> = TrieMap<K, V, P, Unnamed, InPlace>;

impl<K: PathKey + Drop, V: Drop, P: Keeps<K, V>, S: Slots<K, V>> TrieMap<K, V, P, Unnamed, S>
where
    S::Key: Drop,
    S::Value: Drop,
{
    /// A map with no pairs. It keeps the runtime's allocator for all calls.
    ///
    /// Cost: O(1), no lock. Refused: `NoMemory`, if memory runs out.
    pub fn new<R: AllocGlobal>(rt: &R) -> Result<TrieMap<K, V, P, Unnamed, S>, NoMemory> {
        let alloc = rt.alloc();
        Ok(TrieMap {
            alloc,
            row: Stripes::new(alloc, empties(alloc)?)?,
        })
    }
}

impl<K: PathKey + Drop, V: Drop, P: Keeps<K, V>, J: Naming, S: Slots<K, V>> TrieMap<K, V, P, J, S>
where
    S::Key: Drop,
    S::Value: Drop,
{
    /// The value of the key, or none.
    ///
    /// Cost: O(log n), under the lock of the key's stripe. It makes no request for memory, but for another of a long text
    /// that lies in place. Refused: `NoMemory`, where that is refused, or the handle on the value cannot be cloned.
    pub fn get<R: Wait, Q: Sought<K>>(&self, rt: &R, key: Q) -> Result<Option<S::Value>, NoMemory>
        ensures kept { IfOk result (λ found. IfSome found (λ value. P.holds (Q.key_of key) (S.value_of value))) }
    {
        self.found(rt, key, key.path_sought())
    }

    /// Whether the key has a value.
    ///
    /// Cost: O(log n), under the lock of the key's stripe. Refused: never.
    pub fn contains_key<R: Wait, Q: Sought<K>>(&self, rt: &R, key: Q) -> bool
        ensures kept { IsTrue result → (value : V) × P.holds (Q.key_of key) value }
    {
        let path = key.path_sought();
        self.row.stripe_at(rt, path).get(key, path).is_some()
    }

    /// Maps the key to the value, and returns the value before, or none.
    ///
    /// Cost: O(log n), under the lock of the key's stripe. Refused: `Full`, where the key is new and its stripe has
    /// 524,288 pairs; `NoMemory`, if memory runs out.
    pub fn put<R: Wait>(&self, rt: &R, key: K, value: V) -> Result<Option<S::Value>, PutError>
        requires { P.holds key value }
        ensures kept { IfOk result (λ before. IfSome before (λ found. P.holds key (S.value_of found))) }
    {
        let value = S::new_value(self.alloc, value)?;
        self.put_shared(rt, key, value)
    }

    /// Maps the key to the value where the key is absent, and returns the value that is there, or none.
    ///
    /// Cost: O(log n), under the lock of the key's stripe. Refused: as `put`.
    pub fn put_if_absent<R: Wait>(
        &self,
        rt: &R,
        key: K,
        value: V,
    ) -> Result<Option<S::Value>, PutError>
        requires { P.holds key value }
        ensures kept { IfOk result (λ before. IfSome before (λ found. P.holds key (S.value_of found))) }
    {
        let value = S::new_value(self.alloc, value)?;
        self.put_shared_if_absent(rt, key, value)
    }

    /// Maps the key to the value where the key is present, and returns the value before, or none.
    ///
    /// Cost: O(log n), under the lock of the key's stripe. Refused: `NoMemory`, if memory runs out.
    pub fn replace<R: Wait>(&self, rt: &R, key: K, value: V) -> Result<Option<S::Value>, NoMemory>
        requires { P.holds key value }
        ensures kept { IfOk result (λ before. IfSome before (λ found. P.holds key (S.value_of found))) }
    {
        let value = S::new_value(self.alloc, value)?;
        self.replace_shared(rt, key, value)
    }

    /// Removes the key, and returns the value before, or none.
    ///
    /// Cost: O(log n), under the lock of the key's stripe. Refused: `NoMemory`, if memory runs out.
    pub fn remove<R: Wait, Q: Sought<K>>(
        &self,
        rt: &R,
        key: Q,
    ) -> Result<Option<S::Value>, NoMemory>
        ensures kept { IfOk result (λ before. IfSome before (λ found. P.holds (Q.key_of key) (S.value_of found))) }
    {
        Ok(self.removal(rt, key, &Always)?.previous)
    }

    /// The value that the key has then: the one that it had, else the one that `make` made.
    ///
    /// `make` is called where the key was absent when the call looked, and no lock is held meanwhile. Where another
    /// thread has put the key by then, its value is returned, and the one that was made is dropped.
    ///
    /// Cost: O(log n), one lock for the look-up and one for the put, that of the key's stripe. Refused: as `put`.
    pub fn get_or_else_update<R: Wait, F: FnOnce() -> V>(
        &self,
        rt: &R,
        key: K,
        make: F,
    ) -> Result<S::Value, PutError>
        requires callable { F.pre make }
        requires rule { (value : V) → F.post make value → P.holds key value }
        ensures kept { IfOk result (λ value. P.holds key (S.value_of value)) }
    {
        let path = key.path();
        let made = match found_or_made::<V, S, F>(self.found(rt, &key, path)?, make) {
            Origin::Found(found) => return Ok(found),
            Origin::Made(made) => S::new_value(self.alloc, made)?,
        };
        let answer = S::another_value(&made)?;
        match self.put_absent(rt, key, path, made)? {
            Some(found) => Ok(found),
            None => Ok(answer),
        }
    }

    /// What `get_or_else_update` does, where `make` may fail: nothing is put then, and the error of `make` is returned.
    ///
    /// Cost: O(log n), one lock for the look-up and one for the put. Refused: as `put`, which is the outer error; the
    /// inner one is that of `make`.
    pub fn try_get_or_else_update<R: Wait, E, F: FnOnce() -> Result<V, E>>(
        &self,
        rt: &R,
        key: K,
        make: F,
    ) -> Result<Result<S::Value, E>, PutError>
        requires callable { F.pre make }
        requires rule { (made : _) → F.post make made → IfOk made (P.holds key) }
        ensures kept { IfOk result (λ done. IfOk done (λ value. P.holds key (S.value_of value))) }
        ensures failed { IfOk result (λ done. IfErr done (λ error. F.post make (Err error))) }
    {
        let path = key.path();
        let made = match found_or_tried::<V, S, E, F>(self.found(rt, &key, path)?, make) {
            Ok(Origin::Found(found)) => return Ok(Ok(found)),
            Ok(Origin::Made(made)) => S::new_value(self.alloc, made)?,
            Err(error) => return Ok(Err(error)),
        };
        let answer = S::another_value(&made)?;
        match self.put_absent(rt, key, path, made)? {
            Some(found) => Ok(Ok(found)),
            None => Ok(Ok(answer)),
        }
    }

    // The value of the key, or none.
    fn found<R: Wait, Q: Sought<K>>(
        &self,
        rt: &R,
        key: Q,
        path: Path,
    ) -> Result<Option<S::Value>, NoMemory>
        requires { path.0 ≡ K.path_of (Q.key_of key) }
        ensures kept { IfOk result (λ found. IfSome found (λ value. P.holds (Q.key_of key) (S.value_of value))) }
    {
        let stripe = self.row.stripe_at(rt, path);
        match stripe.get(key, path) {
            Some(value) => Ok(Some(S::another_value(value)?)),
            None => Ok(None),
        }
    }

    // Maps the key to the value where it is absent, and returns the value that is there, or none.
    fn put_absent<R: Wait>(
        &self,
        rt: &R,
        key: K,
        path: Path,
        value: S::Value,
    ) -> Result<Option<S::Value>, PutError>
        requires rule { P.holds key (S.value_of value) }
        requires path { path.0 ≡ K.path_of key }
        ensures kept { IfOk result (λ before. IfSome before (λ found. P.holds key (S.value_of found))) }
    {
        let key = S::new_key(self.alloc, key)?;
        let mut stripe = self.row.stripe_at(rt, path);
        match stripe.put_where(
            self.alloc,
            key,
            path,
            value,
            &IfAbsent,
            &mut Author::nobody(),
        ) {
            Ok(change) => Ok(change.previous),
            Err(refusal) => Err(PutError::of(refusal)),
        }
    }

    // Maps the key to the value where the condition holds, which it never does of an absent key. So no stripe is too full
    // for it.
    fn replace_where<R: Wait, C: Condition<V>>(
        &self,
        rt: &R,
        key: K,
        value: S::Value,
        condition: &C,
    ) -> Result<Change<V, S>, NoMemory>
        requires rule { P.holds key (S.value_of value) }
        requires present { C.holds condition.now None ≡ false }
        ensures kept { IfOk result (λ change. IfSome change.previous (λ found. P.holds key (S.value_of found))) }
    {
        let path = key.path();
        let mut stripe = self.row.stripe_at(rt, path);
        match stripe.put_key_where(
            self.alloc,
            key,
            path,
            value,
            condition,
            &mut Author::nobody(),
        ) {
            Ok(change) => Ok(change),
            Err(Refusal::NoMemory) => Err(NoMemory),
            Err(_) => unreachable!(),
        }
    }

    // A removal of a key, where the condition holds of its value. The lock is free again when the call returns.
    fn removal<R: Wait, Q: Sought<K>, C: Condition<V>>(
        &self,
        rt: &R,
        key: Q,
        condition: &C,
    ) -> Result<Change<V, S>, NoMemory>
        ensures kept { IfOk result (λ change. IfSome change.previous (λ found. P.holds (Q.key_of key) (S.value_of found))) }
    {
        let path = key.path_sought();
        let mut stripe = self.row.stripe_at(rt, path);
        stripe.remove_where(self.alloc, key, path, condition, &mut Author::nobody())
    }
}

impl<K: PathKey + Drop, V: Eq + Drop, P: Keeps<K, V>, J: Naming, S: Slots<K, V>> TrieMap<
    K,
    V,
    P,
    J,
    S,
>
where
    S::Key: Drop,
    S::Value: Drop,
{
    /// Maps the key to the value where it is mapped to a value equal to `old`, and returns whether it was.
    ///
    /// Cost: O(log n), under the lock of the key's stripe, where `V::eq` runs. Refused: `NoMemory`, if memory runs out.
    pub fn replace_if<R: Wait>(&self, rt: &R, key: K, old: &V, value: V) -> Result<bool, NoMemory>
        requires { P.holds key value }
    {
        let value = S::new_value(self.alloc, value)?;
        Ok(self.replace_where(rt, key, value, &IfEqual(old))?.written)
    }

    /// Removes the key where it is mapped to a value equal to `value`, and returns whether it was.
    ///
    /// Cost: O(log n), under the lock of the key's stripe, where `V::eq` runs. Refused: `NoMemory`, if memory runs out.
    pub fn remove_if<R: Wait, Q: Sought<K>>(
        &self,
        rt: &R,
        key: Q,
        value: &V,
    ) -> Result<bool, NoMemory> {
        Ok(self.removal(rt, key, &IfEqual(value))?.written)
    }
}
