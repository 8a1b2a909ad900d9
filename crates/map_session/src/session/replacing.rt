//! New values for all keys, each an entry behind what was seen.
ghost use Rattle.std.specs.Prelude.{◌≡◌, IfOk, List, OnErr, is_some, length};
ghost use Rattle.bulk_ops.specs.Meanings.{MayAnswer};
ghost use Rattle.stripe.specs.Rules.{first_digit as digit_of};
ghost use Rattle.map_session.specs.Sessions.{InTurn, Replaces, ReplacesIf};

use super::Session;
use crate::steps::{made_at, put_present};
use hash_path::{Path, PathKey};
use map_view::View;
use std::alloc::Global;
use std::sync::Wait;
use stripes::{Keeps, Stripe};
use trie_node::{NoMemory, Slots};
use write_history::{Author, Front, Naming};

impl<'m, K: PathKey + Drop, V: Drop, P: Keeps<K, V>, J: Naming, S: Slots<K, V>> Session<
    'm,
    K,
    V,
    P,
    J,
    S,
>
where
    S::Key: Drop,
    S::Value: Drop,
{
    /// Gives each key the value that the closure makes of its pair, each as an entry of its own, and returns how many
    /// keys it gave one. What the closure was called at is the value that the history leaves the key up to that.
    ///
    /// As in the map's `replace_all`, a view is taken and walked. A key that was removed meanwhile is left out, and one
    /// that was put meanwhile may be. The closure runs once for each key, under the lock of the key's stripe: it must not
    /// call the map.
    ///
    /// Cost: O(n log n), under all locks for the view and one lock for each key. Refused: `NoMemory`, if memory runs
    /// out; the values that were given by then stay.
    pub fn replace_all<R: Wait, F: Fn(&K, &V) -> V>(
        &mut self,
        rt: &R,
        change: F,
    ) -> Result<u64, NoMemory>
        requires callable { F.IsAlwaysCallable change }
        requires rule { (key : K) (old made : V) → P.holds key old → MayAnswer F.Fn change key old made → P.holds key made }
        ensures wrote { (given : List (K × V × V)) × InTurn (Replaces K.cmp K.path_of (λ key old made. MayAnswer F.Fn change key old made)) given self.old self.new × IfOk result (λ count. count ≡ length given) }
    {
        let view = self.view(rt)?;
        let given = self.replace_each(rt, &view, &change);
        drop(view);
        given
    }

    // Gives each key of the view a new value, and returns how many it gave one.
    fn replace_each<R: Wait, F: Fn(&K, &V) -> V>(
        &mut self,
        rt: &R,
        view: &View<K, V, P, S>,
        change: &F,
    ) -> Result<u64, NoMemory>
        requires callable { F.IsAlwaysCallable change.now }
        requires rule { (key : K) (old made : V) → P.holds key old → MayAnswer F.Fn change.now key old made → P.holds key made }
        ensures wrote { (given : List (K × V × V)) × InTurn (Replaces K.cmp K.path_of (λ key old made. MayAnswer F.Fn change.now key old made)) given self.old self.new × IfOk result (λ count. count ≡ length given) }
    {
        view.len();
        let mut given = 0u64;
        for (key, _) in view.bunched() {
            let before = self.replace_by(rt, key, change)?;
            given += u64::from(before.is_some());
        }
        Ok(given)
    }

    // Gives the key a new value where it has one, and returns that, which is dropped with no lock held.
    fn replace_by<R: Wait, F: Fn(&K, &V) -> V>(
        &mut self,
        rt: &R,
        key: &S::Key,
        change: &F,
    ) -> Result<Option<S::Value>, NoMemory>
        requires callable { F.IsAlwaysCallable change.now }
        requires rule { (key : K) (old made : V) → P.holds key old → MayAnswer F.Fn change.now key old made → P.holds key made }
        ensures wrote { IfOk result (λ before. ReplacesIf K.cmp K.path_of (is_some before) (S.key_of key.now) (λ key old made. MayAnswer F.Fn change.now key old made) self.old self.new) }
        ensures refused { OnErr result (self.new ≡ self.old) }
    {
        let path = S::lend_key(key).path();
        let mut stripe = self.row.stripe_at(rt, path);
        replace_behind(
            self.alloc,
            &mut stripe,
            key,
            path,
            change,
            &mut self.front,
            &mut self.author,
        )
    }
}

// Gives the key a new value where it has one in its stripe, behind what the front had seen, and returns the value before.
fn replace_behind<
    K: PathKey + Drop,
    V: Drop,
    P: Keeps<K, V>,
    J: Naming,
    S: Slots<K, V>,
    F: Fn(&K, &V) -> V,
>(
    alloc: Global,
    stripe: &mut Stripe<K, V, P, J, S>,
    key: &S::Key,
    path: Path,
    change: &F,
    front: &mut Front<K, V, J>,
    author: &mut Author<J>,
) -> Result<Option<S::Value>, NoMemory>
where
    S::Key: Drop,
    S::Value: Drop,
    requires callable { F.IsAlwaysCallable change.now }
    requires rule { (key : K) (old made : V) → P.holds key old → MayAnswer F.Fn change.now key old made → P.holds key made }
    requires path { path.0 ≡ K.path_of (S.key_of key.now) }
    requires place { digit_of K.path_of (S.key_of key.now) ≡ stripe.old.digit }
    ensures wrote { IfOk result (λ before. ReplacesIf K.cmp K.path_of (is_some before) (S.key_of key.now) (λ key old made. MayAnswer F.Fn change.now key old made) (record { log = front.old; signer = author.old }) (record { log = front.new; signer = author.new })) }
    ensures front { OnErr result (front.new ≡ front.old) }
    ensures unsigned { OnErr result (author.new ≡ author.old) }
    ensures digit { stripe.new.digit ≡ stripe.old.digit }
{
    front.law();
    stripe.meet(front);
    let Some(made) = made_at(stripe, key, path, change) else {
        return Ok(None);
    };
    let made = S::new_value(alloc, made)?;
    let before = put_present(alloc, stripe, S::another_key(key)?, path, made, author)?;
    stripe.tell(front);
    Ok(before)
}
