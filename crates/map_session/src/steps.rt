//! Steps on a locked stripe, which the map's own calls take too.
ghost use Rattle.std.specs.Prelude.{◌≡◌, IfOk, IfSome, OnErr, Some, false, is_some, option_map};
ghost use Rattle.bulk_ops.specs.Meanings.{MayAnswer};
ghost use Rattle.stripe.specs.Rules.{first_digit as digit_of};
ghost use Rattle.versions.specs.Map.{value_at};
ghost use Rattle.write_history.specs.Rules.{HasHistory};
ghost use Rattle.write_history.specs.Signers.{WroteIf, signed_if};
ghost use Rattle.write_history.specs.declared.entry.Write.TheVariants.{Put};

use closure_ops::answer_in;
use hash_path::{Path, PathKey};
use std::alloc::Global;
use stripes::{Keeps, Stripe};
use trie_node::{IfPresent, NoMemory, Slots};
use versions::Refusal;
use write_history::{Author, Naming};

/// Whether the key is absent, or its value passes the test.
pub fn passes<
    K: PathKey + Drop,
    V: Drop,
    P: Keeps<K, V>,
    J: Naming,
    S: Slots<K, V>,
    F: Fn(&K, &V) -> bool,
>(stripe: &Stripe<K, V, P, J, S>, key: &S::Key, path: Path, test: &F) -> bool
where
    S::Key: Drop,
    S::Value: Drop,
    requires callable { F.IsAlwaysCallable test.now }
    requires path { path.0 ≡ K.path_of (S.key_of key.now) }
    requires place { digit_of K.path_of (S.key_of key.now) ≡ stripe.now.digit }
    ensures fails { result ≡ false → (value : V) × (value_at K.cmp stripe.now.entries (S.key_of key.now) ≡ Some value) × MayAnswer F.Fn test.now (S.key_of key.now) value false }
{
    match stripe.get(S::lend_key(key), path) {
        Some(value) => answer_in::<K, V, S, _, _>(test, key, value),
        None => true,
    }
}

/// What the closure makes of the value of the key, or none where the key is absent. The pair that it makes keeps the rule.
pub fn made_at<
    K: PathKey + Drop,
    V: Drop,
    P: Keeps<K, V>,
    J: Naming,
    S: Slots<K, V>,
    F: Fn(&K, &V) -> V,
>(stripe: &Stripe<K, V, P, J, S>, key: &S::Key, path: Path, change: &F) -> Option<V>
where
    S::Key: Drop,
    S::Value: Drop,
    requires callable { F.IsAlwaysCallable change.now }
    requires rule { (key : K) (old made : V) → P.holds key old → MayAnswer F.Fn change.now key old made → P.holds key made }
    requires path { path.0 ≡ K.path_of (S.key_of key.now) }
    requires place { digit_of K.path_of (S.key_of key.now) ≡ stripe.now.digit }
    ensures kept { IfSome result (P.holds (S.key_of key.now)) }
    ensures made { IfSome result (λ made. (old : V) × (value_at K.cmp stripe.now.entries (S.key_of key.now) ≡ Some old) × MayAnswer F.Fn change.now (S.key_of key.now) old made) }
{
    let old = stripe.get(S::lend_key(key), path)?;
    Some(answer_in::<K, V, S, _, _>(change, key, old))
}

/// Maps the key to the value where it is present, and returns the value before, or none. No stripe is too full for that.
pub fn put_present<K: PathKey + Drop, V: Drop, P: Keeps<K, V>, J: Naming, S: Slots<K, V>>(
    alloc: Global,
    stripe: &mut Stripe<K, V, P, J, S>,
    key: S::Key,
    path: Path,
    value: S::Value,
    author: &mut Author<J>,
) -> Result<Option<S::Value>, NoMemory>
where
    S::Key: Drop,
    S::Value: Drop,
    requires rule { P.holds (S.key_of key) (S.value_of value) }
    requires path { path.0 ≡ K.path_of (S.key_of key) }
    requires place { digit_of K.path_of (S.key_of key) ≡ stripe.old.digit }
    ensures before { IfOk result (λ before. option_map S.value_of before ≡ value_at K.cmp stripe.old.entries (S.key_of key)) }
    ensures wrote { HasHistory J.book → IfOk result (λ before. WroteIf K.cmp K.path_of (is_some before) (Put (S.key_of key) (S.value_of value)) (S.key_of key) (option_map S.value_of before) author.old stripe.old.log stripe.new.log) }
    ensures author { IfOk result (λ before. author.new ≡ signed_if (is_some before) author.old) }
    ensures kept { IfOk result (λ before. IfSome before (λ found. P.holds (S.key_of key) (S.value_of found))) }
    ensures unsigned { OnErr result (author.new ≡ author.old) }
    ensures digit { stripe.new.digit ≡ stripe.old.digit }
{
    match stripe.put_where(alloc, key, path, value, &IfPresent, author) {
        Ok(change) => Ok(change.previous),
        Err(Refusal::NoMemory) => Err(NoMemory),
        Err(_) => unreachable!(),
    }
}
