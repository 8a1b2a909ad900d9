//! Values that are made for keys which have none.
ghost use Rattle.std.specs.Prelude.{◌≡◌, Bool, Err, IfErr, IfOk, IsTrue, None, Ok, OnErr, Some, if◌then◌else◌};
ghost use mathlib.Core.List.{IsPrefix};
ghost use Rattle.stripe.specs.Rules.{first_digit};
ghost use Rattle.stripe.specs.Told.{Finds};
ghost use Rattle.versions.specs.Commands.{is_full_for};
ghost use Rattle.write_history.specs.declared.entry.Write.TheVariants.{Put};
ghost use Rattle.write_history.specs.Histories.{value_in};
ghost use Rattle.write_history.specs.Signers.{Read, WroteIf, signed_if};

use super::Session;
use crate::put_error::PutError;
use hash_path::{Path, PathKey};
use std::sync::Wait;
use stripes::{Keeps, MOST_PAIRS_OF_STRIPE};
use trie_node::{IfAbsent, Slots};
use write_history::Naming;

impl<'m, K: PathKey + Drop, V: Drop, P: Keeps<K, V>, J: Naming, S: Slots<K, V>> Session<
    'm,
    K,
    V,
    P,
    J,
    S,
>
where
    S::Key: Drop,
    S::Value: Drop,
{
    /// The value that the key has in the history which is then seen: the one that it had, else the one that `make` made.
    /// Only where that was put is there an entry of it, and it is the last that was seen.
    ///
    /// `make` is called where the key was absent when the call looked, and no lock is held meanwhile. Where another
    /// thread has put the key by then, its value is returned, and the one that was made is dropped.
    ///
    /// Cost: O(log n), one lock for the look-up and one for the put, that of the key's stripe. Refused: as `put`; the
    /// history may have been seen up to the look-up.
    pub fn get_or_else_update<R: Wait, F: FnOnce() -> V>(
        &mut self,
        rt: &R,
        key: K,
        make: F,
    ) -> Result<S::Value, PutError>
        requires callable { F.pre make }
        requires rule { (value : V) → F.post make value → P.holds key value }
        ensures read { IfOk result (λ value. value_in K.cmp K.path_of self.new.log key ≡ Some (S.value_of value)) }
        ensures wrote { IfOk result (λ value. (put : Bool) × WroteIf K.cmp K.path_of put (Put key (S.value_of value)) key (if put then None else Some (S.value_of value)) self.old.signer self.old.log self.new.log × (self.new.signer ≡ signed_if put self.old.signer) × (IsTrue put → F.post make (S.value_of value))) }
        ensures kept { IfOk result (λ value. P.holds key (S.value_of value)) }
        ensures full { result ≡ Err PutError.Full → Finds K.cmp K.path_of (first_digit K.path_of key) self.old.log (λ pairs. IsTrue (is_full_for K.cmp MOST_PAIRS_OF_STRIPE pairs key)) }
        ensures seen { IsPrefix self.old.log self.new.log }
        ensures unsigned { OnErr result (self.new.signer ≡ self.old.signer) }
    {
        let path = key.path();
        match self.found(rt, &key, path)? {
            Some(found) => Ok(found),
            None => self.put_made(rt, key, path, make()),
        }
    }

    /// What `get_or_else_update` does, where `make` may fail: nothing is put then, and the error of `make` is returned.
    /// The key has no value in the history which is then seen.
    ///
    /// Cost: O(log n), one lock for the look-up and one for the put. Refused: as `get_or_else_update`, which is the outer
    /// error; the inner one is that of `make`.
    pub fn try_get_or_else_update<R: Wait, E, F: FnOnce() -> Result<V, E>>(
        &mut self,
        rt: &R,
        key: K,
        make: F,
    ) -> Result<Result<S::Value, E>, PutError>
        requires callable { F.pre make }
        requires rule { (made : _) → F.post make made → IfOk made (P.holds key) }
        ensures read { IfOk result (λ done. IfOk done (λ value. value_in K.cmp K.path_of self.new.log key ≡ Some (S.value_of value))) }
        ensures wrote { IfOk result (λ done. IfOk done (λ value. (put : Bool) × WroteIf K.cmp K.path_of put (Put key (S.value_of value)) key (if put then None else Some (S.value_of value)) self.old.signer self.old.log self.new.log × (self.new.signer ≡ signed_if put self.old.signer) × (IsTrue put → F.post make (Ok (S.value_of value))))) }
        ensures failed { IfOk result (λ done. IfErr done (λ error. F.post make (Err error) × Read K.cmp K.path_of key None self.old.log self.new.log × (self.new.signer ≡ self.old.signer))) }
        ensures kept { IfOk result (λ done. IfOk done (λ value. P.holds key (S.value_of value))) }
        ensures full { result ≡ Err PutError.Full → Finds K.cmp K.path_of (first_digit K.path_of key) self.old.log (λ pairs. IsTrue (is_full_for K.cmp MOST_PAIRS_OF_STRIPE pairs key)) }
        ensures seen { IsPrefix self.old.log self.new.log }
        ensures unsigned { OnErr result (self.new.signer ≡ self.old.signer) }
    {
        let path = key.path();
        match self.found(rt, &key, path)? {
            Some(found) => Ok(Ok(found)),
            None => match make() {
                Ok(made) => Ok(Ok(self.put_made(rt, key, path, made)?)),
                Err(error) => Ok(Err(error)),
            },
        }
    }

    // Puts a value that was made where the key has none by then, and returns the value that it has.
    fn put_made<R: Wait>(
        &mut self,
        rt: &R,
        key: K,
        path: Path,
        made: V,
    ) -> Result<S::Value, PutError>
        requires rule { P.holds key made }
        requires path { path.0 ≡ K.path_of key }
        ensures read { IfOk result (λ value. value_in K.cmp K.path_of self.new.log key ≡ Some (S.value_of value)) }
        ensures wrote { IfOk result (λ value. (put : Bool) × WroteIf K.cmp K.path_of put (Put key (S.value_of value)) key (if put then None else Some (S.value_of value)) self.old.signer self.old.log self.new.log × (self.new.signer ≡ signed_if put self.old.signer) × (IsTrue put → S.value_of value ≡ made)) }
        ensures kept { IfOk result (λ value. P.holds key (S.value_of value)) }
        ensures full { result ≡ Err PutError.Full → Finds K.cmp K.path_of (first_digit K.path_of key) self.old.log (λ pairs. IsTrue (is_full_for K.cmp MOST_PAIRS_OF_STRIPE pairs key)) }
        ensures seen { IsPrefix self.old.log self.new.log }
        ensures refused { OnErr result (self.new ≡ self.old) }
    {
        let made = S::new_value(self.alloc, made)?;
        let answer = S::another_value(&made)?;
        let key = S::new_key(self.alloc, key)?;
        let before = self.write(rt, key, path, made, &IfAbsent)?.previous;
        match before {
            Some(found) => Ok(found),
            None => Ok(answer),
        }
    }
}
