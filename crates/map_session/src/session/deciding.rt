//! Writes that a closure decides on, under the lock of the key's stripe, each an entry behind what was seen.
ghost use Rattle.std.specs.Prelude.{◌≡◌, ◌&&◌, ◌||◌, Err, IfErr, IfOk, IfSome, Ok, OnErr, Option, Result, Some, is_some, option_map};
ghost use mathlib.Core.List.{IsPrefix};
ghost use Rattle.stripe.specs.Rules.{first_digit};
ghost use Rattle.stripe.specs.Told.{Finds};
ghost use Rattle.stripe.specs.Updates.{MayMake, MayPass, made_of, write_of};
ghost use Rattle.map_session.specs.Fullness.{SaysFull};
ghost use Rattle.versions.specs.Commands.{is_full_for};
ghost use Rattle.versions.specs.Map.{value_at};
ghost use Rattle.write_history.specs.declared.entry.Write.TheVariants.{Remove};
ghost use Rattle.write_history.specs.Signers.{Read, WroteIf, signed_if};

use super::Session;
use crate::put_error::PutError;
use hash_path::{PathKey, Sought};
use std::sync::Wait;
use stripes::{Keeps, MOST_PAIRS_OF_STRIPE};
use trie_node::{NoMemory, Slots};
use write_history::Naming;

/// What the closures may do is as for the calls of the map: each runs once, under the lock, and must not call the map.
impl<'m, K: PathKey + Drop, V: Drop, P: Keeps<K, V>, J: Naming, S: Slots<K, V>> Session<
    'm,
    K,
    V,
    P,
    J,
    S,
>
where
    S::Key: Drop,
    S::Value: Drop,
{
    /// Calls `change` at the value that the key has, or at none, and stores what it makes of it, as one step. It returns
    /// the value before, or none: the one that the history up to this write leaves the key. Where it made a value, that
    /// is put, and where it made none and there was one, the key is removed. Else nothing is written.
    ///
    /// Cost: O(log n), under the lock of the key's stripe, where `change` runs. Refused: as `put`. Nothing was written or
    /// seen then, but `change` may have run.
    pub fn update<R: Wait, F: FnOnce(Option<&V>) -> Option<V>>(
        &mut self,
        rt: &R,
        key: K,
        change: F,
    ) -> Result<Option<S::Value>, PutError>
        requires callable { (old : _) → IfSome old (λ value. P.holds key value.now) → F.pre change old }
        requires rule { (old : _) (made : _) → IfSome old (λ value. P.holds key value.now) → F.post change old made → IfSome made (P.holds key) }
        ensures wrote { IfOk result (λ before. (made : Option V) × MayMake F.FnOnce change (option_map S.value_of before) made × WroteIf K.cmp K.path_of (is_some made || is_some before) (write_of key made) key (option_map S.value_of before) self.old.signer self.old.log self.new.log × (self.new.signer ≡ signed_if (is_some made || is_some before) self.old.signer)) }
        ensures kept { IfOk result (λ before. IfSome before (λ found. P.holds key (S.value_of found))) }
        ensures full { SaysFull result (λ full. (made : Option V) × Finds K.cmp K.path_of (first_digit K.path_of key) self.old.log (λ pairs. MayMake F.FnOnce change (value_at K.cmp pairs key) made × (is_some made && is_full_for K.cmp MOST_PAIRS_OF_STRIPE pairs key ≡ full))) }
        ensures refused { OnErr result (self.new ≡ self.old) }
    {
        let path = key.path();
        let mut stripe = self.row.stripe_at(rt, path);
        match stripe.update_behind(
            self.alloc,
            key,
            path,
            change,
            &mut self.front,
            &mut self.author,
        ) {
            Ok(before) => Ok(before),
            Err(refusal) => Err(PutError::of(refusal)),
        }
    }

    /// What `update` does, where `change` returns something beside what it makes: that is returned. The value before is
    /// dropped when the lock is free again.
    ///
    /// Cost: O(log n), under the lock of the key's stripe, where `change` runs. Refused: as `update`.
    pub fn update_with<R: Wait, T: Drop, F: FnOnce(Option<&V>) -> (Option<V>, T)>(
        &mut self,
        rt: &R,
        key: K,
        change: F,
    ) -> Result<T, PutError>
        requires callable { (old : _) → IfSome old (λ value. P.holds key value.now) → F.pre change old }
        requires rule { (old : _) (made : _) → IfSome old (λ value. P.holds key value.now) → F.post change old made → IfSome made.0 (P.holds key) }
        ensures wrote { IfOk result (λ answer. (before : Option V) × (made : Option V) × MayMake F.FnOnce change before (made, answer) × WroteIf K.cmp K.path_of (is_some made || is_some before) (write_of key made) key before self.old.signer self.old.log self.new.log × (self.new.signer ≡ signed_if (is_some made || is_some before) self.old.signer)) }
        ensures full { SaysFull result (λ full. (made : Option V) × (answer : T) × Finds K.cmp K.path_of (first_digit K.path_of key) self.old.log (λ pairs. MayMake F.FnOnce change (value_at K.cmp pairs key) (made, answer) × (is_some made && is_full_for K.cmp MOST_PAIRS_OF_STRIPE pairs key ≡ full))) }
        ensures refused { OnErr result (self.new ≡ self.old) }
    {
        let path = key.path();
        let mut stripe = self.row.stripe_at(rt, path);
        let done = stripe.update_with_behind(
            self.alloc,
            key,
            path,
            change,
            &mut self.front,
            &mut self.author,
        );
        drop(stripe);
        match done {
            Ok((_, answer)) => Ok(answer),
            Err(refusal) => Err(PutError::of(refusal)),
        }
    }

    /// What `update` does, where `change` may fail: its error is returned then, nothing is written, and the value at
    /// which it failed is the one that the key has in the history which is then seen.
    ///
    /// Cost: O(log n), under the lock of the key's stripe, where `change` runs. Refused: as `update`, which is the outer
    /// error; the inner one is that of `change`.
    pub fn try_update<R: Wait, E, F: FnOnce(Option<&V>) -> Result<Option<V>, E>>(
        &mut self,
        rt: &R,
        key: K,
        change: F,
    ) -> Result<Result<Option<S::Value>, E>, PutError>
        requires callable { (old : _) → IfSome old (λ value. P.holds key value.now) → F.pre change old }
        requires rule { (old : _) (made : _) → IfSome old (λ value. P.holds key value.now) → F.post change old made → IfOk made (λ new. IfSome new (P.holds key)) }
        ensures wrote { IfOk result (λ done. IfOk done (λ before. (made : Option V) × MayMake F.FnOnce change (option_map S.value_of before) (Ok made) × WroteIf K.cmp K.path_of (is_some made || is_some before) (write_of key made) key (option_map S.value_of before) self.old.signer self.old.log self.new.log × (self.new.signer ≡ signed_if (is_some made || is_some before) self.old.signer))) }
        ensures failed { IfOk result (λ done. IfErr done (λ error. (found : Option V) × Read K.cmp K.path_of key found self.old.log self.new.log × MayMake F.FnOnce change found (Err error) × (self.new.signer ≡ self.old.signer))) }
        ensures kept { IfOk result (λ done. IfOk done (λ before. IfSome before (λ found. P.holds key (S.value_of found)))) }
        ensures full { SaysFull result (λ full. (made : Result (Option V) E) × Finds K.cmp K.path_of (first_digit K.path_of key) self.old.log (λ pairs. MayMake F.FnOnce change (value_at K.cmp pairs key) made × (is_some (made_of made) && is_full_for K.cmp MOST_PAIRS_OF_STRIPE pairs key ≡ full))) }
        ensures refused { OnErr result (self.new ≡ self.old) }
    {
        let path = key.path();
        let mut stripe = self.row.stripe_at(rt, path);
        match stripe.try_update_behind(
            self.alloc,
            key,
            path,
            change,
            &mut self.front,
            &mut self.author,
        ) {
            Ok(done) => Ok(done),
            Err(refusal) => Err(PutError::of(refusal)),
        }
    }

    /// Removes the key where it has a value of which the test holds, as one step, and returns the value that was
    /// removed, or none. The value that was tested is the one that the history up to that leaves the key.
    ///
    /// Cost: O(log n), under the lock of the key's stripe, where the test runs. Refused: `NoMemory`, if memory runs out.
    /// Nothing was written or seen then, but the test may have run.
    pub fn remove_where<R: Wait, Q: Sought<K>, F: FnOnce(&V) -> bool>(
        &mut self,
        rt: &R,
        key: Q,
        test: F,
    ) -> Result<Option<S::Value>, NoMemory>
        requires callable { (value : _) → P.holds (Q.key_of key) value.now → F.pre test value }
        ensures wrote { IfOk result (λ removed. (found : Option V) × WroteIf K.cmp K.path_of (is_some removed) (Remove (Q.key_of key)) (Q.key_of key) found self.old.signer self.old.log self.new.log × MayPass F.FnOnce test found (is_some removed) × IfSome removed (λ value. found ≡ Some (S.value_of value))) }
        ensures signer { IfOk result (λ removed. self.new.signer ≡ signed_if (is_some removed) self.old.signer) }
        ensures kept { IfOk result (λ removed. IfSome removed (λ value. P.holds (Q.key_of key) (S.value_of value))) }
        ensures refused { OnErr result (self.new ≡ self.old) }
    {
        let path = key.path_sought();
        let mut stripe = self.row.stripe_at(rt, path);
        stripe.remove_passing_behind(
            self.alloc,
            key,
            path,
            test,
            &mut self.front,
            &mut self.author,
        )
    }
}
