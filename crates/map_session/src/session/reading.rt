//! Reads of one key, by the history that is then seen.
ghost use Rattle.std.specs.Prelude.{◌≡◌, IfOk, IfSome, is_some, option_map};
ghost use mathlib.Core.List.{IsPrefix};
ghost use Rattle.write_history.specs.Histories.{value_in};
ghost use Rattle.write_history.specs.Signers.{Read};

use super::Session;
use hash_path::{Path, PathKey, Sought};
use std::sync::Wait;
use stripes::Keeps;
use trie_node::{NoMemory, Slots};
use write_history::Naming;

impl<'m, K: PathKey + Drop, V: Drop, P: Keeps<K, V>, J: Naming, S: Slots<K, V>> Session<
    'm,
    K,
    V,
    P,
    J,
    S,
>
where
    S::Key: Drop,
    S::Value: Drop,
{
    /// The value of the key, or none: the one that it has in the history which is then seen.
    ///
    /// Cost: O(log n), under the lock of the key's stripe. Refused: `NoMemory`, where the handle on the value cannot be cloned.
    pub fn get<R: Wait, Q: Sought<K>>(
        &mut self,
        rt: &R,
        key: Q,
    ) -> Result<Option<S::Value>, NoMemory>
        ensures read { IfOk result (λ found. Read K.cmp K.path_of (Q.key_of key) (option_map S.value_of found) self.old.log self.new.log) }
        ensures kept { IfOk result (λ found. IfSome found (λ value. P.holds (Q.key_of key) (S.value_of value))) }
        ensures seen { IsPrefix self.old.log self.new.log }
        ensures signer { self.new.signer ≡ self.old.signer }
    {
        self.found(rt, key, key.path_sought())
    }

    /// Whether the key has a value in the history which is then seen.
    ///
    /// Cost: O(log n), under the lock of the key's stripe. Refused: never.
    pub fn contains_key<R: Wait, Q: Sought<K>>(&mut self, rt: &R, key: Q) -> bool
        ensures read { IsPrefix self.old.log self.new.log × (result ≡ is_some (value_in K.cmp K.path_of self.new.log (Q.key_of key))) }
        ensures signer { self.new.signer ≡ self.old.signer }
    {
        let path = key.path_sought();
        let mut stripe = self.row.stripe_at(rt, path);
        stripe.see(&mut self.front);
        stripe.get(key, path).is_some()
    }

    /// What `look` returns of the value of the key, or of none: the one that it has in the history which is then seen.
    /// No handle is cloned, so it costs less than `get`.
    ///
    /// `look` runs once, under the lock, and must not call the map, as in the map's `read`.
    ///
    /// Cost: O(log n), under the lock of the key's stripe. Refused: never.
    pub fn read<R: Wait, T, Q: Sought<K>, F: FnOnce(Option<&V>) -> T>(
        &mut self,
        rt: &R,
        key: Q,
        look: F,
    ) -> T
        requires callable { (found : _) → IfSome found (λ value. P.holds (Q.key_of key) value.now) → F.pre look found }
        ensures read { (found : _) × Read K.cmp K.path_of (Q.key_of key) (option_map (λ value. value.now) found) self.old.log self.new.log × IfSome found (λ value. P.holds (Q.key_of key) value.now) × F.post look found result }
        ensures signer { self.new.signer ≡ self.old.signer }
    {
        let path = key.path_sought();
        let mut stripe = self.row.stripe_at(rt, path);
        stripe.see(&mut self.front);
        stripe.read(key, path, look)
    }

    // The value of the key, or none, as `get` returns it.
    pub(super) fn found<R: Wait, Q: Sought<K>>(
        &mut self,
        rt: &R,
        key: Q,
        path: Path,
    ) -> Result<Option<S::Value>, NoMemory>
        requires { path.0 ≡ K.path_of (Q.key_of key) }
        ensures read { IfOk result (λ found. Read K.cmp K.path_of (Q.key_of key) (option_map S.value_of found) self.old.log self.new.log) }
        ensures kept { IfOk result (λ found. IfSome found (λ value. P.holds (Q.key_of key) (S.value_of value))) }
        ensures seen { IsPrefix self.old.log self.new.log }
        ensures signer { self.new.signer ≡ self.old.signer }
    {
        let mut stripe = self.row.stripe_at(rt, path);
        stripe.see(&mut self.front);
        match stripe.get(key, path) {
            Some(value) => Ok(Some(S::another_value(value)?)),
            None => Ok(None),
        }
    }
}

impl<'m, K: PathKey + Drop, V: Copy + Drop, P: Keeps<K, V>, J: Naming, S: Slots<K, V>> Session<
    'm,
    K,
    V,
    P,
    J,
    S,
>
where
    S::Key: Drop,
    S::Value: Drop,
{
    /// A copy of the value of the key, or none: the one that it has in the history which is then seen. No handle on it
    /// is cloned, so it costs less than `get`.
    ///
    /// Cost: O(log n), under the lock of the key's stripe. Refused: never.
    pub fn get_copied<R: Wait, Q: Sought<K>>(&mut self, rt: &R, key: Q) -> Option<V>
        ensures read { Read K.cmp K.path_of (Q.key_of key) result self.old.log self.new.log }
        ensures kept { IfSome result (λ value. P.holds (Q.key_of key) value) }
        ensures signer { self.new.signer ≡ self.old.signer }
    {
        let path = key.path_sought();
        let mut stripe = self.row.stripe_at(rt, path);
        stripe.see(&mut self.front);
        match stripe.get(key, path) {
            Some(value) => Some(*S::lend_value(value)),
            None => None,
        }
    }
}
