//! Writes of a stripe that a closure decides on.
ghost use Rattle.std.specs.Prelude.{◌≡◌, ◌||◌, Bool, IfOk, IfSome, OnErr, OnOk, Option, Result, if◌then◌else◌, is_some, option_map, true};
ghost use Rattle.stripe.specs.Rules.{first_digit as digit_of};
ghost use Rattle.stripe.specs.Updates.{MayMake, MayPass, Sets, TriesToSet, made_of, value_if, write_of};
ghost use Rattle.versions.specs.Commands.{is_full_for};
ghost use Rattle.versions.specs.Map.{value_at, with_pair, without};
ghost use Rattle.versions.specs.Puts.{FullExactly};
ghost use Rattle.write_history.specs.declared.entry.Write.TheVariants.{Put, Remove};
ghost use Rattle.write_history.specs.Rules.{HasHistory};
ghost use Rattle.write_history.specs.Signers.{WroteIf, signed_if};

use super::{MOST_PAIRS_OF_STRIPE, Stripe};
use crate::keeps::Keeps;
use hash_path::{Path, PathKey, Sought};
use std::alloc::Global;
use trie_node::{NoMemory, Slots};
use versions::Refusal;
use write_history::{Author, Naming};

impl<K: PathKey + Drop, V: Drop, P: Keeps<K, V>, J: Naming, S: Slots<K, V>> Stripe<K, V, P, J, S>
where
    S::Key: Drop,
    S::Value: Drop,
{
    /// Calls `change` at the value that the key has, or at none. The key has then what it made: a value is stored, and
    /// for none the key is removed. It returns the value before, or none.
    ///
    /// It is refused as a put is: as `Full` exactly where a value was made, the key is new and there are as many pairs
    /// as there may be. `change` has run then, and the stripe is as before.
    pub fn update<F: FnOnce(Option<&V>) -> Option<V>>(
        &mut self,
        alloc: Global,
        key: K,
        path: Path,
        change: F,
        author: &mut Author<J>,
    ) -> Result<Option<S::Value>, Refusal>
        requires path { path.0 ≡ K.path_of key }
        requires place { digit_of K.path_of key ≡ self.old.digit }
        requires callable { (old : _) → IfSome old (λ value. P.holds key value.now) → F.pre change old }
        requires rule { (old : _) (made : _) → IfSome old (λ value. P.holds key value.now) → F.post change old made → IfSome made (P.holds key) }
        ensures before { IfOk result (λ before. option_map S.value_of before ≡ value_at K.cmp self.old.entries key) }
        ensures made { (made : Option V) × MayMake F.FnOnce change (value_at K.cmp self.old.entries key) made × Sets K.cmp self.old.entries key made result self.new.entries × (HasHistory J.book → IfOk result (λ before. WroteIf K.cmp K.path_of (is_some made || is_some before) (write_of key made) key (option_map S.value_of before) author.old self.old.log self.new.log)) × IfOk result (λ before. author.new ≡ signed_if (is_some made || is_some before) author.old) }
        ensures digit { self.new.digit ≡ self.old.digit }
        ensures err { OnErr result (self.new ≡ self.old) }
        ensures unsigned { OnErr result (author.new ≡ author.old) }
        ensures kept { IfOk result (λ before. IfSome before (λ value. P.holds key (S.value_of value))) }
    {
        let made = self.read(&key, path, change);
        self.set(alloc, key, path, made, author)
    }

    /// What `update` does, where `change` returns something beside what it made: that is returned.
    pub fn update_with<T: Drop, F: FnOnce(Option<&V>) -> (Option<V>, T)>(
        &mut self,
        alloc: Global,
        key: K,
        path: Path,
        change: F,
        author: &mut Author<J>,
    ) -> Result<(Option<S::Value>, T), Refusal>
        requires path { path.0 ≡ K.path_of key }
        requires place { digit_of K.path_of key ≡ self.old.digit }
        requires callable { (old : _) → IfSome old (λ value. P.holds key value.now) → F.pre change old }
        requires rule { (old : _) (made : _) → IfSome old (λ value. P.holds key value.now) → F.post change old made → IfSome made.0 (P.holds key) }
        ensures before { IfOk result (λ both. option_map S.value_of both.0 ≡ value_at K.cmp self.old.entries key) }
        ensures made { (made : Option V) × (answer : T) × MayMake F.FnOnce change (value_at K.cmp self.old.entries key) (made, answer) × Sets K.cmp self.old.entries key made result self.new.entries × IfOk result (λ both. both.1 ≡ answer) × (HasHistory J.book → IfOk result (λ both. WroteIf K.cmp K.path_of (is_some made || is_some both.0) (write_of key made) key (option_map S.value_of both.0) author.old self.old.log self.new.log)) × IfOk result (λ both. author.new ≡ signed_if (is_some made || is_some both.0) author.old) }
        ensures digit { self.new.digit ≡ self.old.digit }
        ensures err { OnErr result (self.new ≡ self.old) }
        ensures unsigned { OnErr result (author.new ≡ author.old) }
        ensures kept { IfOk result (λ both. IfSome both.0 (λ value. P.holds key (S.value_of value))) }
    {
        let (made, answer) = self.read(&key, path, change);
        match self.set(alloc, key, path, made, author) {
            Ok(before) => Ok((before, answer)),
            Err(refusal) => Err(refusal),
        }
    }

    /// What `update` does, where `change` may fail: its error is handed out, and the stripe is as before.
    pub fn try_update<E, F: FnOnce(Option<&V>) -> Result<Option<V>, E>>(
        &mut self,
        alloc: Global,
        key: K,
        path: Path,
        change: F,
        author: &mut Author<J>,
    ) -> Result<Result<Option<S::Value>, E>, Refusal>
        requires path { path.0 ≡ K.path_of key }
        requires place { digit_of K.path_of key ≡ self.old.digit }
        requires callable { (old : _) → IfSome old (λ value. P.holds key value.now) → F.pre change old }
        requires rule { (old : _) (made : _) → IfSome old (λ value. P.holds key value.now) → F.post change old made → IfOk made (λ new. IfSome new (P.holds key)) }
        ensures before { IfOk result (λ done. IfOk done (λ before. option_map S.value_of before ≡ value_at K.cmp self.old.entries key)) }
        ensures made { (made : Result (Option V) E) × MayMake F.FnOnce change (value_at K.cmp self.old.entries key) made × TriesToSet K.cmp self.old.entries key made result self.new.entries × (HasHistory J.book → IfOk result (λ done. IfOk done (λ before. WroteIf K.cmp K.path_of (is_some (made_of made) || is_some before) (write_of key (made_of made)) key (option_map S.value_of before) author.old self.old.log self.new.log))) × IfOk result (λ done. IfOk done (λ before. author.new ≡ signed_if (is_some (made_of made) || is_some before) author.old)) }
        ensures failed { IfOk result (λ done. OnErr done ((self.new ≡ self.old) × (author.new ≡ author.old))) }
        ensures digit { self.new.digit ≡ self.old.digit }
        ensures err { OnErr result (self.new ≡ self.old) }
        ensures unsigned { OnErr result (author.new ≡ author.old) }
        ensures kept { IfOk result (λ done. IfOk done (λ before. IfSome before (λ value. P.holds key (S.value_of value)))) }
    {
        match self.read(&key, path, change) {
            Ok(made) => Ok(Ok(self.set(alloc, key, path, made, author)?)),
            Err(error) => Ok(Err(error)),
        }
    }

    /// Removes the key where it has a value of which the test holds, and returns the value that was removed, or none.
    ///
    /// The only error is `NoMemory`, if memory runs out. The test has run then, and the stripe is as before.
    pub fn remove_passing<Q: Sought<K>, F: FnOnce(&V) -> bool>(
        &mut self,
        alloc: Global,
        key: Q,
        path: Path,
        test: F,
        author: &mut Author<J>,
    ) -> Result<Option<S::Value>, NoMemory>
        requires path { path.0 ≡ K.path_of (Q.key_of key) }
        requires place { digit_of K.path_of (Q.key_of key) ≡ self.old.digit }
        requires callable { (value : _) → P.holds (Q.key_of key) value.now → F.pre test value }
        ensures removed { (passes : Bool) × MayPass F.FnOnce test (value_at K.cmp self.old.entries (Q.key_of key)) passes × OnOk result (self.new.entries ≡ (if passes then without K.cmp self.old.entries (Q.key_of key) else self.old.entries)) × IfOk result (λ removed. option_map S.value_of removed ≡ value_if K.cmp passes self.old.entries (Q.key_of key)) }
        ensures tested { IfOk result (λ removed. MayPass F.FnOnce test (value_at K.cmp self.old.entries (Q.key_of key)) (is_some removed)) }
        ensures wrote { HasHistory J.book → IfOk result (λ removed. WroteIf K.cmp K.path_of (is_some removed) (Remove (Q.key_of key)) (Q.key_of key) (value_at K.cmp self.old.entries (Q.key_of key)) author.old self.old.log self.new.log) }
        ensures author { IfOk result (λ removed. author.new ≡ signed_if (is_some removed) author.old) }
        ensures digit { self.new.digit ≡ self.old.digit }
        ensures err { OnErr result (self.new ≡ self.old) }
        ensures unsigned { OnErr result (author.new ≡ author.old) }
        ensures kept { IfOk result (λ removed. IfSome removed (λ value. P.holds (Q.key_of key) (S.value_of value))) }
    {
        self.law();
        if self.passes(key, path, test) {
            self.remove(alloc, key, path, author)
        } else {
            Ok(None)
        }
    }

    // Maps the key to the value, or removes it for none, and returns the value before, or none.
    fn set(
        &mut self,
        alloc: Global,
        key: K,
        path: Path,
        made: Option<V>,
        author: &mut Author<J>,
    ) -> Result<Option<S::Value>, Refusal>
        requires rule { IfSome made (P.holds key) }
        requires path { path.0 ≡ K.path_of key }
        requires place { digit_of K.path_of key ≡ self.old.digit }
        ensures before { IfOk result (λ before. option_map S.value_of before ≡ value_at K.cmp self.old.entries key) }
        ensures sets { Sets K.cmp self.old.entries key made result self.new.entries }
        ensures wrote { HasHistory J.book → IfOk result (λ before. WroteIf K.cmp K.path_of (is_some made || is_some before) (write_of key made) key (option_map S.value_of before) author.old self.old.log self.new.log) }
        ensures author { IfOk result (λ before. author.new ≡ signed_if (is_some made || is_some before) author.old) }
        ensures digit { self.new.digit ≡ self.old.digit }
        ensures err { OnErr result (self.new ≡ self.old) }
        ensures unsigned { OnErr result (author.new ≡ author.old) }
        ensures kept { IfOk result (λ before. IfSome before (λ value. P.holds key (S.value_of value))) }
    {
        match made {
            Some(value) => self.store(alloc, key, path, value, author),
            None => Ok(self.remove(alloc, &key, path, author)?),
        }
    }

    // What `put` does with a value that is not shared yet. A full stripe is looked for first, so that `Full` is
    // returned whatever the memory.
    fn store(
        &mut self,
        alloc: Global,
        key: K,
        path: Path,
        value: V,
        author: &mut Author<J>,
    ) -> Result<Option<S::Value>, Refusal>
        requires rule { P.holds key value }
        requires path { path.0 ≡ K.path_of key }
        requires place { digit_of K.path_of key ≡ self.old.digit }
        ensures before { IfOk result (λ before. option_map S.value_of before ≡ value_at K.cmp self.old.entries key) }
        ensures entries { OnOk result (self.new.entries ≡ with_pair K.cmp self.old.entries key value) }
        ensures digit { self.new.digit ≡ self.old.digit }
        ensures full { FullExactly result (is_full_for K.cmp MOST_PAIRS_OF_STRIPE self.old.entries key) }
        ensures wrote { HasHistory J.book → IfOk result (λ before. WroteIf K.cmp K.path_of true (Put key value) key (option_map S.value_of before) author.old self.old.log self.new.log) }
        ensures author { OnOk result (author.new ≡ signed_if true author.old) }
        ensures err { OnErr result (self.new ≡ self.old) }
        ensures unsigned { OnErr result (author.new ≡ author.old) }
        ensures kept { IfOk result (λ before. IfSome before (λ value. P.holds key (S.value_of value))) }
    {
        if self.is_full_for(&key, path) {
            return Err(Refusal::Full);
        }
        let value = S::new_value(alloc, value)?;
        self.put(alloc, key, path, value, author)
    }

    // Whether the key is new and there are as many pairs as there may be.
    fn is_full_for(&self, key: &K, path: Path) -> bool
        requires path { path.0 ≡ K.path_of key.now }
        requires place { digit_of K.path_of key.now ≡ self.now.digit }
        ensures { result ≡ is_full_for K.cmp MOST_PAIRS_OF_STRIPE self.now.entries key.now }
    {
        self.len() == MOST_PAIRS_OF_STRIPE && self.get(key, path).is_none()
    }
}
