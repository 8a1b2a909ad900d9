//! Writes of one key, each an entry behind what was seen.
ghost use Rattle.std.specs.Prelude.{◌≡◌, ◌&&◌, IfOk, IfSome, None, OnErr, OnOk, Option, false, is_none, is_some, option_map, true};
ghost use Rattle.stripe.specs.Rules.{first_digit};
ghost use Rattle.stripe.specs.Told.{Finds};
ghost use Rattle.map_session.specs.Fullness.{SaysFull};
ghost use Rattle.trie_shape.specs.Conditions.{some_and};
ghost use Rattle.versions.specs.Commands.{is_full_for};
ghost use Rattle.write_history.specs.declared.entry.Write.TheVariants.{Put, Remove};
ghost use Rattle.write_history.specs.Signers.{WroteIf, signed_if, signed_once};

use super::Session;
use crate::put_error::PutError;
use hash_path::{Path, PathKey, Sought};
use std::sync::Wait;
use stripes::{Keeps, MOST_PAIRS_OF_STRIPE};
use trie_node::{Always, Condition, IfAbsent, IfEqual, IfPresent, NoMemory, Slots};
use versions::{Change, Refusal};
use write_history::Naming;

impl<'m, K: PathKey + Drop, V: Drop, P: Keeps<K, V>, J: Naming, S: Slots<K, V>> Session<
    'm,
    K,
    V,
    P,
    J,
    S,
>
where
    S::Key: Drop,
    S::Value: Drop,
{
    /// Maps the key to the value, and returns the value before, or none: the one that the history up to this write
    /// leaves the key. The write is then the last entry that was seen.
    ///
    /// Cost: O(log n), under the lock of the key's stripe. Refused: `Full`, where the key is new and its stripe has
    /// 524,288 pairs; `NoMemory`, if memory runs out. Nothing was written or seen then.
    pub fn put<R: Wait>(&mut self, rt: &R, key: K, value: V) -> Result<Option<S::Value>, PutError>
        requires { P.holds key value }
        ensures wrote { IfOk result (λ before. WroteIf K.cmp K.path_of true (Put key value) key (option_map S.value_of before) self.old.signer self.old.log self.new.log) }
        ensures signer { OnOk result (self.new.signer ≡ signed_once self.old.signer) }
        ensures kept { IfOk result (λ before. IfSome before (λ found. P.holds key (S.value_of found))) }
        ensures full { SaysFull result (λ full. Finds K.cmp K.path_of (first_digit K.path_of key) self.old.log (λ pairs. is_full_for K.cmp MOST_PAIRS_OF_STRIPE pairs key ≡ full)) }
        ensures refused { OnErr result (self.new ≡ self.old) }
    {
        let value = S::new_value(self.alloc, value)?;
        self.put_shared(rt, key, value)
    }

    /// Maps the key to a value that is shared already, which is not copied. The rest is as of `put`.
    ///
    /// Cost: O(log n), under the lock of the key's stripe. Refused: as `put`.
    pub fn put_shared<R: Wait>(
        &mut self,
        rt: &R,
        key: K,
        value: S::Value,
    ) -> Result<Option<S::Value>, PutError>
        requires { P.holds key (S.value_of value) }
        ensures wrote { IfOk result (λ before. WroteIf K.cmp K.path_of true (Put key (S.value_of value)) key (option_map S.value_of before) self.old.signer self.old.log self.new.log) }
        ensures signer { OnOk result (self.new.signer ≡ signed_once self.old.signer) }
        ensures kept { IfOk result (λ before. IfSome before (λ found. P.holds key (S.value_of found))) }
        ensures full { SaysFull result (λ full. Finds K.cmp K.path_of (first_digit K.path_of key) self.old.log (λ pairs. is_full_for K.cmp MOST_PAIRS_OF_STRIPE pairs key ≡ full)) }
        ensures refused { OnErr result (self.new ≡ self.old) }
    {
        let path = key.path();
        let mut stripe = self.row.stripe_at(rt, path);
        match stripe.put_key_behind(
            self.alloc,
            key,
            path,
            value,
            &Always,
            &mut self.front,
            &mut self.author,
        ) {
            Ok(change) => Ok(change.previous),
            Err(refusal) => Err(PutError::of(refusal)),
        }
    }

    /// Maps the key to the value where the key is absent, and returns the value that is there, or none. Only where there
    /// was none was it written.
    ///
    /// Cost: O(log n), under the lock of the key's stripe. Refused: as `put`.
    pub fn put_if_absent<R: Wait>(
        &mut self,
        rt: &R,
        key: K,
        value: V,
    ) -> Result<Option<S::Value>, PutError>
        requires { P.holds key value }
        ensures wrote { IfOk result (λ before. WroteIf K.cmp K.path_of (is_none before) (Put key value) key (option_map S.value_of before) self.old.signer self.old.log self.new.log) }
        ensures signer { IfOk result (λ before. self.new.signer ≡ signed_if (is_none before) self.old.signer) }
        ensures kept { IfOk result (λ before. IfSome before (λ found. P.holds key (S.value_of found))) }
        ensures full { SaysFull result (λ full. Finds K.cmp K.path_of (first_digit K.path_of key) self.old.log (λ pairs. is_full_for K.cmp MOST_PAIRS_OF_STRIPE pairs key ≡ full)) }
        ensures refused { OnErr result (self.new ≡ self.old) }
    {
        let path = key.path();
        let key = S::new_key(self.alloc, key)?;
        let value = S::new_value(self.alloc, value)?;
        Ok(self.write(rt, key, path, value, &IfAbsent)?.previous)
    }

    /// Maps the key to the value where the key is present, and returns the value before, or none. Only where there was
    /// one was it written.
    ///
    /// Cost: O(log n), under the lock of the key's stripe. Refused: `NoMemory`, if memory runs out. Nothing was written
    /// or seen then.
    pub fn replace<R: Wait>(
        &mut self,
        rt: &R,
        key: K,
        value: V,
    ) -> Result<Option<S::Value>, NoMemory>
        requires { P.holds key value }
        ensures wrote { IfOk result (λ before. WroteIf K.cmp K.path_of (is_some before) (Put key value) key (option_map S.value_of before) self.old.signer self.old.log self.new.log) }
        ensures signer { IfOk result (λ before. self.new.signer ≡ signed_if (is_some before) self.old.signer) }
        ensures kept { IfOk result (λ before. IfSome before (λ found. P.holds key (S.value_of found))) }
        ensures refused { OnErr result (self.new ≡ self.old) }
    {
        let value = S::new_value(self.alloc, value)?;
        Ok(self.replace_where(rt, key, value, &IfPresent)?.previous)
    }

    /// Removes the key, and returns the value before, or none: the one that the history up to this removal leaves it.
    /// Only where there was one was it written.
    ///
    /// Cost: O(log n), under the lock of the key's stripe. Refused: `NoMemory`, if memory runs out. Nothing was written
    /// or seen then.
    pub fn remove<R: Wait, Q: Sought<K>>(
        &mut self,
        rt: &R,
        key: Q,
    ) -> Result<Option<S::Value>, NoMemory>
        ensures wrote { IfOk result (λ before. WroteIf K.cmp K.path_of (is_some before) (Remove (Q.key_of key)) (Q.key_of key) (option_map S.value_of before) self.old.signer self.old.log self.new.log) }
        ensures signer { IfOk result (λ before. self.new.signer ≡ signed_if (is_some before) self.old.signer) }
        ensures kept { IfOk result (λ before. IfSome before (λ found. P.holds (Q.key_of key) (S.value_of found))) }
        ensures refused { OnErr result (self.new ≡ self.old) }
    {
        Ok(self.removal(rt, key, &Always)?.previous)
    }

    // A write of a pair that keeps the rule, where the condition holds.
    pub(super) fn write<R: Wait, C: Condition<V>>(
        &mut self,
        rt: &R,
        key: S::Key,
        path: Path,
        value: S::Value,
        condition: &C,
    ) -> Result<Change<V, S>, PutError>
        requires rule { P.holds (S.key_of key) (S.value_of value) }
        requires path { path.0 ≡ K.path_of (S.key_of key) }
        ensures wrote { IfOk result (λ change. WroteIf K.cmp K.path_of change.written (Put (S.key_of key) (S.value_of value)) (S.key_of key) (option_map S.value_of change.previous) self.old.signer self.old.log self.new.log) }
        ensures written { IfOk result (λ change. change.written ≡ C.holds condition.now (option_map S.value_of change.previous)) }
        ensures signer { IfOk result (λ change. self.new.signer ≡ signed_if change.written self.old.signer) }
        ensures kept { IfOk result (λ change. IfSome change.previous (λ found. P.holds (S.key_of key) (S.value_of found))) }
        ensures full { SaysFull result (λ full. Finds K.cmp K.path_of (first_digit K.path_of (S.key_of key)) self.old.log (λ pairs. C.holds condition.now None && is_full_for K.cmp MOST_PAIRS_OF_STRIPE pairs (S.key_of key) ≡ full)) }
        ensures refused { OnErr result (self.new ≡ self.old) }
    {
        let mut stripe = self.row.stripe_at(rt, path);
        match stripe.put_behind(
            self.alloc,
            key,
            path,
            value,
            condition,
            &mut self.front,
            &mut self.author,
        ) {
            Ok(change) => Ok(change),
            Err(refusal) => Err(PutError::of(refusal)),
        }
    }

    // Maps the key to the value where the condition holds, which it never does of an absent key. So no stripe is too full
    // for it.
    fn replace_where<R: Wait, C: Condition<V>>(
        &mut self,
        rt: &R,
        key: K,
        value: S::Value,
        condition: &C,
    ) -> Result<Change<V, S>, NoMemory>
        requires rule { P.holds key (S.value_of value) }
        requires present { C.holds condition.now None ≡ false }
        ensures wrote { IfOk result (λ change. WroteIf K.cmp K.path_of change.written (Put key (S.value_of value)) key (option_map S.value_of change.previous) self.old.signer self.old.log self.new.log) }
        ensures written { IfOk result (λ change. change.written ≡ C.holds condition.now (option_map S.value_of change.previous)) }
        ensures signer { IfOk result (λ change. self.new.signer ≡ signed_if change.written self.old.signer) }
        ensures kept { IfOk result (λ change. IfSome change.previous (λ found. P.holds key (S.value_of found))) }
        ensures refused { OnErr result (self.new ≡ self.old) }
    {
        let path = key.path();
        let mut stripe = self.row.stripe_at(rt, path);
        match stripe.put_key_behind(
            self.alloc,
            key,
            path,
            value,
            condition,
            &mut self.front,
            &mut self.author,
        ) {
            Ok(change) => Ok(change),
            Err(Refusal::NoMemory) => Err(NoMemory),
            Err(_) => unreachable!(),
        }
    }

    // A removal of a key, where it has a value of which the condition holds.
    fn removal<R: Wait, Q: Sought<K>, C: Condition<V>>(
        &mut self,
        rt: &R,
        key: Q,
        condition: &C,
    ) -> Result<Change<V, S>, NoMemory>
        ensures wrote { IfOk result (λ change. WroteIf K.cmp K.path_of change.written (Remove (Q.key_of key)) (Q.key_of key) (option_map S.value_of change.previous) self.old.signer self.old.log self.new.log) }
        ensures written { IfOk result (λ change. change.written ≡ (is_some change.previous && C.holds condition.now (option_map S.value_of change.previous))) }
        ensures signer { IfOk result (λ change. self.new.signer ≡ signed_if change.written self.old.signer) }
        ensures kept { IfOk result (λ change. IfSome change.previous (λ found. P.holds (Q.key_of key) (S.value_of found))) }
        ensures refused { OnErr result (self.new ≡ self.old) }
    {
        let path = key.path_sought();
        let mut stripe = self.row.stripe_at(rt, path);
        stripe.remove_behind(
            self.alloc,
            key,
            path,
            condition,
            &mut self.front,
            &mut self.author,
        )
    }
}

impl<'m, K: PathKey + Drop, V: Eq + Drop, P: Keeps<K, V>, J: Naming, S: Slots<K, V>> Session<
    'm,
    K,
    V,
    P,
    J,
    S,
>
where
    S::Key: Drop,
    S::Value: Drop,
{
    /// Maps the key to the value where it is mapped to a value equal to `old`, and returns whether it was. Only then was
    /// it written: the value before is the one that the history up to that leaves the key.
    ///
    /// Cost: O(log n), under the lock of the key's stripe, where `V::eq` runs. Refused: `NoMemory`, if memory runs out.
    /// Nothing was written or seen then.
    pub fn replace_if<R: Wait>(
        &mut self,
        rt: &R,
        key: K,
        old: &V,
        value: V,
    ) -> Result<bool, NoMemory>
        requires { P.holds key value }
        ensures wrote { IfOk result (λ done. (before : Option V) × WroteIf K.cmp K.path_of done (Put key value) key before self.old.signer self.old.log self.new.log × (done ≡ some_and (λ found. V.eq found old.now) before)) }
        ensures signer { IfOk result (λ done. self.new.signer ≡ signed_if done self.old.signer) }
        ensures refused { OnErr result (self.new ≡ self.old) }
    {
        let value = S::new_value(self.alloc, value)?;
        Ok(self.replace_where(rt, key, value, &IfEqual(old))?.written)
    }

    /// Removes the key where it is mapped to a value equal to `value`, and returns whether it was. Only then was it
    /// written: the value before is the one that the history up to that leaves the key.
    ///
    /// Cost: O(log n), under the lock of the key's stripe, where `V::eq` runs. Refused: as `replace_if`.
    pub fn remove_if<R: Wait, Q: Sought<K>>(
        &mut self,
        rt: &R,
        key: Q,
        value: &V,
    ) -> Result<bool, NoMemory>
        ensures wrote { IfOk result (λ done. (before : Option V) × WroteIf K.cmp K.path_of done (Remove (Q.key_of key)) (Q.key_of key) before self.old.signer self.old.log self.new.log × (done ≡ some_and (λ found. V.eq found value.now) before)) }
        ensures signer { IfOk result (λ done. self.new.signer ≡ signed_if done self.old.signer) }
        ensures refused { OnErr result (self.new ≡ self.old) }
    {
        Ok(self.removal(rt, key, &IfEqual(value))?.written)
    }
}
