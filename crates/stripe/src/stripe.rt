//! The part of a map that one lock keeps.
ghost use Rattle.std.specs.Prelude.{◌≡◌, ◌<◌, ◌≤◌, ◌&&◌, [], None, Some, IfOk, IfSome, OnErr, OnOk, if◌then◌else◌, is_some, length, option_map, true};
ghost use Rattle.hash_path.specs.Digits.{fan_out};
ghost use Rattle.stripe.specs.Rules.{AllKeep, Belongs, first_digit as digit_of};
ghost use Rattle.stripe.specs.Told.{Tells};
ghost use Rattle.versions.specs.Commands.{is_full_for};
ghost use Rattle.versions.specs.Map.{IsMap, value_at, with_pair, without};
ghost use Rattle.versions.specs.Puts.{FullExactly};
ghost use Rattle.versions.specs.declared.version.TheConstants.{MOST_PAIRS};
ghost use Rattle.write_history.specs.declared.entry.Write.TheVariants.{Put, Remove};
ghost use Rattle.write_history.specs.Rules.{HasHistory};
ghost use Rattle.write_history.specs.Signers.{WroteIf, signed_if};

mod clearing;
mod deciding;
mod deciding_behind;
mod following;
mod marking;
mod parting;
mod reading;
mod seeing;

use crate::keeps::{Anything, Keeps};
use crate::marks::{Marks, mark};
use hash_path::{FAN_OUT, Path, PathKey, Sought};
use std::alloc::Global;
use std::marker::{Model, PhantomData};
use std::sync::Arc;
use trie_node::{Always, Condition, NoMemory, Shared, Slots, Stamp, empty_root};
use versions::{Change, MOST_PAIRS, Refusal, Version, law_of_put, law_of_removal};
use write_history::{Author, Naming, Part, Unnamed};

/// How many stripes a map has: one for each first digit of a path word.
pub const STRIPES: u32 = FAN_OUT;

/// The most pairs that one stripe may hold.
pub const MOST_PAIRS_OF_STRIPE: u64 = 524_288;

/// The pairs of a map whose keys' path words have one first digit. Each pair keeps the rule, and where the map has a
/// history, each key of the digit has the value that the history leaves it.
///
/// A call on a key is given the key's path word, by which its stripe was chosen: the key is hashed once.
///
/// Where it has `Marks`, a call that has written sets the bit of its path word before it returns. No clause sees them.
#[derive(Drop)]
pub struct Stripe<
    K: PathKey,
    V,
    P: Keeps<K, V> = Anything,
    J: Naming = Unnamed,
    S: Slots<K, V> = Shared,
> {
    version: Version<K, V, S>,
    first_digit: u32,
    marks: Option<Arc<Marks>>,
    rule: PhantomData<P>,
    part: Part<K, V, J>,
}

impl<K: PathKey, V, P: Keeps<K, V>, J: Naming, S: Slots<K, V>> Model for Stripe<K, V, P, J, S> {
    ghost use Rattle.stripe.specs.Rules.{IsStripe};
    ghost use Rattle.stripe.specs.Contents.{Content};

    ghost Value = { Content K V };

    ghost view = { λ s. record { entries = s.version.entries; digit = s.first_digit; log = s.part.log } };

    ghost invariant = { λ s. IsStripe K.cmp K.path_of P.holds J.book s.first_digit s.version s.part };
}

impl<K: PathKey + Drop, V: Drop, P: Keeps<K, V>, J: Naming, S: Slots<K, V>> Stripe<K, V, P, J, S>
where
    S::Key: Drop,
    S::Value: Drop,
{
    /// The stripe of a first digit, with no pairs, where the history has no write yet, if there is one.
    pub fn empty(
        alloc: Global,
        first_digit: u32,
        part: Part<K, V, J>,
    ) -> Result<Stripe<K, V, P, J, S>, NoMemory>
        requires { HasHistory J.book → (first_digit < fan_out) × (part.digit ≡ Some first_digit) × (part.log ≡ []) }
        ensures entries { IfOk result (λ stripe. stripe.entries ≡ []) }
        ensures digit { IfOk result (λ stripe. stripe.digit ≡ first_digit) }
    {
        Ok(Stripe {
            version: Version::from_root(
                empty_root(alloc, Stamp::LOOSE)?,
                MOST_PAIRS_OF_STRIPE,
                Stamp::LOOSE,
            ),
            first_digit,
            marks: None,
            rule: PhantomData,
            part,
        })
    }

    /// The first digit of the path words of the stripe's keys.
    pub fn first_digit(&self) -> u32
        ensures { result ≡ self.now.digit }
    {
        self.first_digit
    }

    /// The value of the key, or none.
    pub fn get<Q: Sought<K>>(&self, key: Q, path: Path) -> Option<&S::Value>
        requires path { path.0 ≡ K.path_of (Q.key_of key) }
        requires place { digit_of K.path_of (Q.key_of key) ≡ self.now.digit }
        ensures value { option_map (λ value. S.value_of value.now) result ≡ value_at K.cmp self.now.entries (Q.key_of key) }
        ensures kept { IfSome result (λ value. P.holds (Q.key_of key) (S.value_of value.now)) }
    {
        self.version.get_along(key, path)
    }

    /// How many pairs there are.
    pub fn len(&self) -> u64
        ensures count { result ≡ length self.now.entries }
        ensures few { length self.now.entries ≤ MOST_PAIRS_OF_STRIPE }
        ensures sorted { IsMap K.cmp self.now.entries }
    {
        self.version.len()
    }

    /// Maps the key to the value where the condition holds of the value that the key has, and returns that value and
    /// whether the stripe was written. It is for a key that handles are on already.
    ///
    /// The error is `Full` where the condition holds, the key is new and there are as many pairs as there may be, and
    /// `NoMemory` if memory runs out. The stripe is then as before.
    pub fn put_where<C: Condition<V>>(
        &mut self,
        alloc: Global,
        key: S::Key,
        path: Path,
        value: S::Value,
        condition: &C,
        author: &mut Author<J>,
    ) -> Result<Change<V, S>, Refusal>
        requires rule { P.holds (S.key_of key) (S.value_of value) }
        requires path { path.0 ≡ K.path_of (S.key_of key) }
        requires place { digit_of K.path_of (S.key_of key) ≡ self.old.digit }
        ensures before { IfOk result (λ change. option_map S.value_of change.previous ≡ value_at K.cmp self.old.entries (S.key_of key)) }
        ensures written { IfOk result (λ change. change.written ≡ C.holds condition.now (value_at K.cmp self.old.entries (S.key_of key))) }
        ensures entries { IfOk result (λ change. self.new.entries ≡ (if change.written then with_pair K.cmp self.old.entries (S.key_of key) (S.value_of value) else self.old.entries)) }
        ensures digit { self.new.digit ≡ self.old.digit }
        ensures full { FullExactly result (C.holds condition.now None && is_full_for K.cmp MOST_PAIRS_OF_STRIPE self.old.entries (S.key_of key)) }
        ensures err { OnErr result (self.new ≡ self.old) }
        ensures kept { IfOk result (λ change. IfSome change.previous (λ value. P.holds (S.key_of key) (S.value_of value))) }
        ensures wrote { HasHistory J.book → IfOk result (λ change. WroteIf K.cmp K.path_of change.written (Put (S.key_of key) (S.value_of value)) (S.key_of key) (option_map S.value_of change.previous) author.old self.old.log self.new.log) }
        ensures author { IfOk result (λ change. author.new ≡ signed_if change.written author.old) }
        ensures unsigned { OnErr result (author.new ≡ author.old) }
    {
        law_of_put::<K, V>();
        let intent = self
            .part
            .putting(author, S::lend_key(&key), S::lend_value(&value));
        let change = self
            .version
            .put_where_along(alloc, key, path, value, condition)?;
        mark(&self.marks, path, change.written);
        if change.written {
            self.part.write(&intent, author);
        }
        Ok(change)
    }

    /// What `put_where` does with a key that no handle is on. Where it is there, and nobody else holds a node of its way,
    /// the values are exchanged, with no request for memory.
    pub fn put_key_where<C: Condition<V>>(
        &mut self,
        alloc: Global,
        key: K,
        path: Path,
        value: S::Value,
        condition: &C,
        author: &mut Author<J>,
    ) -> Result<Change<V, S>, Refusal>
        requires rule { P.holds key (S.value_of value) }
        requires path { path.0 ≡ K.path_of key }
        requires place { digit_of K.path_of key ≡ self.old.digit }
        ensures before { IfOk result (λ change. option_map S.value_of change.previous ≡ value_at K.cmp self.old.entries key) }
        ensures written { IfOk result (λ change. change.written ≡ C.holds condition.now (value_at K.cmp self.old.entries key)) }
        ensures entries { IfOk result (λ change. self.new.entries ≡ (if change.written then with_pair K.cmp self.old.entries key (S.value_of value) else self.old.entries)) }
        ensures digit { self.new.digit ≡ self.old.digit }
        ensures full { FullExactly result (C.holds condition.now None && is_full_for K.cmp MOST_PAIRS_OF_STRIPE self.old.entries key) }
        ensures err { OnErr result (self.new ≡ self.old) }
        ensures kept { IfOk result (λ change. IfSome change.previous (λ value. P.holds key (S.value_of value))) }
        ensures wrote { HasHistory J.book → IfOk result (λ change. WroteIf K.cmp K.path_of change.written (Put key (S.value_of value)) key (option_map S.value_of change.previous) author.old self.old.log self.new.log) }
        ensures author { IfOk result (λ change. author.new ≡ signed_if change.written author.old) }
        ensures unsigned { OnErr result (author.new ≡ author.old) }
    {
        law_of_put::<K, V>();
        let intent = self.part.putting(author, &key, S::lend_value(&value));
        let change = self
            .version
            .put_key_where_along(alloc, key, path, value, condition)?;
        mark(&self.marks, path, change.written);
        if change.written {
            self.part.write(&intent, author);
        }
        Ok(change)
    }

    /// Removes the key where it is there and the condition holds of its value, and returns the value that it had and
    /// whether the stripe was written.
    ///
    /// The only error is `NoMemory`, if memory runs out. The stripe is then as before.
    pub fn remove_where<Q: Sought<K>, C: Condition<V>>(
        &mut self,
        alloc: Global,
        key: Q,
        path: Path,
        condition: &C,
        author: &mut Author<J>,
    ) -> Result<Change<V, S>, NoMemory>
        requires path { path.0 ≡ K.path_of (Q.key_of key) }
        requires place { digit_of K.path_of (Q.key_of key) ≡ self.old.digit }
        ensures before { IfOk result (λ change. option_map S.value_of change.previous ≡ value_at K.cmp self.old.entries (Q.key_of key)) }
        ensures written { IfOk result (λ change. change.written ≡ (is_some (value_at K.cmp self.old.entries (Q.key_of key)) && C.holds condition.now (value_at K.cmp self.old.entries (Q.key_of key)))) }
        ensures entries { IfOk result (λ change. self.new.entries ≡ (if change.written then without K.cmp self.old.entries (Q.key_of key) else self.old.entries)) }
        ensures digit { self.new.digit ≡ self.old.digit }
        ensures err { OnErr result (self.new ≡ self.old) }
        ensures kept { IfOk result (λ change. IfSome change.previous (λ value. P.holds (Q.key_of key) (S.value_of value))) }
        ensures wrote { HasHistory J.book → IfOk result (λ change. WroteIf K.cmp K.path_of change.written (Remove (Q.key_of key)) (Q.key_of key) (option_map S.value_of change.previous) author.old self.old.log self.new.log) }
        ensures author { IfOk result (λ change. author.new ≡ signed_if change.written author.old) }
        ensures unsigned { OnErr result (author.new ≡ author.old) }
    {
        law_of_removal::<K, V>();
        let intent = self.part.removing(author, &key);
        let change = self
            .version
            .remove_where_along(alloc, key, path, condition)?;
        mark(&self.marks, path, change.written);
        if change.written {
            self.part.write(&intent, author);
        }
        Ok(change)
    }

    /// Maps the key to the value, as `put_key_where`, and returns the value before, or none. It is refused as that is, and
    /// the stripe is then as before.
    pub fn put(
        &mut self,
        alloc: Global,
        key: K,
        path: Path,
        value: S::Value,
        author: &mut Author<J>,
    ) -> Result<Option<S::Value>, Refusal>
        requires rule { P.holds key (S.value_of value) }
        requires path { path.0 ≡ K.path_of key }
        requires place { digit_of K.path_of key ≡ self.old.digit }
        ensures before { IfOk result (λ before. option_map S.value_of before ≡ value_at K.cmp self.old.entries key) }
        ensures entries { OnOk result (self.new.entries ≡ with_pair K.cmp self.old.entries key (S.value_of value)) }
        ensures digit { self.new.digit ≡ self.old.digit }
        ensures full { FullExactly result (is_full_for K.cmp MOST_PAIRS_OF_STRIPE self.old.entries key) }
        ensures err { OnErr result (self.new ≡ self.old) }
        ensures kept { IfOk result (λ before. IfSome before (λ value. P.holds key (S.value_of value))) }
        ensures wrote { HasHistory J.book → IfOk result (λ before. WroteIf K.cmp K.path_of true (Put key (S.value_of value)) key (option_map S.value_of before) author.old self.old.log self.new.log) }
        ensures author { OnOk result (author.new ≡ signed_if true author.old) }
        ensures unsigned { OnErr result (author.new ≡ author.old) }
    {
        Ok(
            self.put_key_where(alloc, key, path, value, &Always, author)?
                .previous,
        )
    }

    /// Removes the key, and returns the value before, or none. The only error is `NoMemory`, if memory runs out. The
    /// stripe is then as before.
    pub fn remove<Q: Sought<K>>(
        &mut self,
        alloc: Global,
        key: Q,
        path: Path,
        author: &mut Author<J>,
    ) -> Result<Option<S::Value>, NoMemory>
        requires path { path.0 ≡ K.path_of (Q.key_of key) }
        requires place { digit_of K.path_of (Q.key_of key) ≡ self.old.digit }
        ensures before { IfOk result (λ before. option_map S.value_of before ≡ value_at K.cmp self.old.entries (Q.key_of key)) }
        ensures entries { OnOk result (self.new.entries ≡ without K.cmp self.old.entries (Q.key_of key)) }
        ensures digit { self.new.digit ≡ self.old.digit }
        ensures err { OnErr result (self.new ≡ self.old) }
        ensures kept { IfOk result (λ before. IfSome before (λ value. P.holds (Q.key_of key) (S.value_of value))) }
        ensures wrote { HasHistory J.book → IfOk result (λ before. WroteIf K.cmp K.path_of (is_some before) (Remove (Q.key_of key)) (Q.key_of key) (option_map S.value_of before) author.old self.old.log self.new.log) }
        ensures author { IfOk result (λ before. author.new ≡ signed_if (is_some before) author.old) }
        ensures unsigned { OnErr result (author.new ≡ author.old) }
    {
        law_of_removal::<K, V>();
        let intent = self.part.removing(author, &key);
        let before = self.version.remove_along(alloc, key, path)?;
        let written = before.is_some();
        mark(&self.marks, path, written);
        if written {
            self.part.write(&intent, author);
        }
        Ok(before)
    }

    /// What each pair of the stripe keeps: the rule, and the stripe's first digit; and that each key of the digit has the
    /// value that the history leaves it, if there is one. It does nothing.
    pub fn law(&self)
        ensures pairs { AllKeep K.cmp (Belongs K.path_of P.holds self.now.digit) self.now.entries }
        ensures tells { HasHistory J.book → Tells K.cmp K.path_of self.now.digit self.now.entries self.now.log }
    {
        let _ = &self.version;
    }

    /// Another stripe with the same pairs, no marks and no history, which shares every node. It makes no request for
    /// memory, but the clone of a handle may be refused.
    pub fn fork(&self) -> Result<Stripe<K, V, P, Unnamed, S>, NoMemory>
        ensures entries { IfOk result (λ fork. fork.entries ≡ self.now.entries) }
        ensures digit { IfOk result (λ fork. fork.digit ≡ self.now.digit) }
    {
        self.len();
        Ok(Stripe {
            version: shared(&self.version, MOST_PAIRS_OF_STRIPE)?,
            first_digit: self.first_digit,
            marks: None,
            rule: PhantomData,
            part: Part::idle(),
        })
    }

    /// The map that it keeps.
    pub fn whole(&self) -> &Version<K, V, S>
        ensures { result.now.entries ≡ self.now.entries }
    {
        &self.version
    }
}

// Another map with the same pairs, which shares every node, and may hold up to `limit` of them.
fn shared<K: PathKey + Drop, V: Drop, S: Slots<K, V>>(
    version: &Version<K, V, S>,
    limit: u64,
) -> Result<Version<K, V, S>, NoMemory>
where
    S::Key: Drop,
    S::Value: Drop,
    requires fits { length version.now.entries ≤ limit }
    requires least { 1 ≤ limit }
    requires most { limit ≤ MOST_PAIRS }
    ensures entries { IfOk result (λ map. map.entries ≡ version.now.entries) }
    ensures limit { IfOk result (λ map. map.limit ≡ limit) }
{
    let root = version.root().try_clone()?;
    Ok(Version::from_root(root, limit, version.stamp()))
}
