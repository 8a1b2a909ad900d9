//! Writes of many keys, one behind another.
ghost use Rattle.std.specs.Prelude.{◌≡◌, ◌++◌, All, IfOk, List, OnErr, OnOk, false, is_some, length};
ghost use Rattle.bulk_ops.specs.Meanings.{MayAnswer};
ghost use Rattle.stripe.specs.Rules.{first_digit as digit_of};
ghost use Rattle.map_session.specs.Iterables.{CameFirst, EachKeeps, IsAtEnd};
ghost use Rattle.std.specs.Iterator.{IsFiniteIterable};
ghost use Rattle.map_session.specs.Sessions.{InTurn, Puts, Removes, RemovesIf};
ghost use Rattle.versions.specs.Map.{Map};

use super::Session;
use crate::put_error::PutError;
use crate::steps::passes;
use closure_ops::answer_in;
use hash_path::{Path, PathKey};
use map_view::View;
use std::alloc::Global;
use std::sync::Wait;
use stripes::{Keeps, Stripe};
use trie_node::{NoMemory, Slots};
use write_history::{Author, Front, Naming};

impl<'m, K: PathKey + Drop, V: Drop, P: Keeps<K, V>, J: Naming, S: Slots<K, V>> Session<
    'm,
    K,
    V,
    P,
    J,
    S,
>
where
    S::Key: Drop,
    S::Value: Drop,
{
    /// Puts each of the pairs, in order, each as an entry of its own. Where one is refused, those before it are in the
    /// map and in the history.
    ///
    /// Cost: O(k log n) for k pairs, a lock each. Refused: as `put`.
    pub fn extend<R: Wait>(&mut self, rt: &R, pairs: Vec<(K, V)>) -> Result<(), PutError>
        requires { All (λ pair. P.holds pair.0 pair.1) pairs.items }
        ensures wrote { (done : List (K × V)) × (rest : List (K × V)) × (pairs.items ≡ done ++ rest) × InTurn (Puts K.cmp K.path_of) done self.old self.new × OnOk result (length rest ≡ 0) }
    {
        for (key, value) in pairs {
            self.put(rt, key, value)?;
        }
        Ok(())
    }

    /// Puts each pair that an iterator gives, in order, each as an entry of its own. Where one is refused, those before it
    /// are in the map and in the history. The iterator has to end, and runs with no lock held.
    ///
    /// Cost: O(k log n) for k pairs, a lock each. Refused: as `put`.
    pub fn extend_from<R: Wait, I: IntoIterator<Item = (K, V)>>(
        &mut self,
        rt: &R,
        pairs: I,
    ) -> Result<(), PutError>
        requires ends { IsFiniteIterable I.into_iter_gives I.IntoIter.can_next I.IntoIter.remaining pairs }
        requires rule { EachKeeps P.holds I.into_iter_gives I.IntoIter.next_gives pairs }
        ensures wrote { (done : List (K × V)) × CameFirst I.into_iter_gives I.IntoIter.next_gives pairs done (λ left. OnOk result (IsAtEnd I.IntoIter.next_gives left)) × InTurn (Puts K.cmp K.path_of) done self.old self.new }
    {
        for (key, value) in pairs {
            self.put(rt, key, value)?;
        }
        Ok(())
    }

    /// Removes the pairs that fail the test, each as an entry of its own, and returns how many it removed. The value
    /// that the history leaves a key up to its removal fails the test.
    ///
    /// As in the map's `retain`, a view is taken and walked, and one that was put after the moment of the view may stay,
    /// though it fails. The test runs on the walk with no lock held, and once more before a
    /// removal, under the lock of the key's stripe: there it must not call the map.
    ///
    /// Cost: O(n), and O(log n) for each pair that fails, under all locks for the view and one lock for each of these.
    /// Refused: `NoMemory`, if memory runs out; what is removed by then is gone.
    pub fn retain<R: Wait, F: Fn(&K, &V) -> bool>(
        &mut self,
        rt: &R,
        test: F,
    ) -> Result<u64, NoMemory>
        requires callable { F.IsAlwaysCallable test }
        ensures wrote { (gone : Map K V) × InTurn (Removes K.cmp K.path_of) gone self.old self.new × All (λ pair. P.holds pair.0 pair.1 × MayAnswer F.Fn test pair.0 pair.1 false) gone × IfOk result (λ removed. removed ≡ length gone) }
    {
        let view = self.view(rt)?;
        let removed = self.remove_all_failing(rt, &view, &test);
        drop(view);
        removed
    }

    // Removes the pairs of the view that fail the test, where those that their keys have now fail too. Returns how many
    // they are.
    fn remove_all_failing<R: Wait, F: Fn(&K, &V) -> bool>(
        &mut self,
        rt: &R,
        view: &View<K, V, P, S>,
        test: &F,
    ) -> Result<u64, NoMemory>
        requires callable { F.IsAlwaysCallable test.now }
        ensures wrote { (gone : Map K V) × InTurn (Removes K.cmp K.path_of) gone self.old self.new × All (λ pair. P.holds pair.0 pair.1 × MayAnswer F.Fn test.now pair.0 pair.1 false) gone × IfOk result (λ removed. removed ≡ length gone) }
    {
        view.len();
        let mut removed = 0u64;
        for (key, value) in view.bunched() {
            let gone = self.remove_if_both_fail(rt, key, value, test)?;
            removed += u64::from(gone);
        }
        Ok(removed)
    }

    // Removes the key where the value that was seen fails the test and so does the one that it has now. Returns whether
    // it did.
    fn remove_if_both_fail<R: Wait, F: Fn(&K, &V) -> bool>(
        &mut self,
        rt: &R,
        key: &S::Key,
        seen: &S::Value,
        test: &F,
    ) -> Result<bool, NoMemory>
        requires { F.IsAlwaysCallable test.now }
        ensures wrote { IfOk result (λ removed. RemovesIf K.cmp K.path_of removed (S.key_of key.now) (λ value. P.holds (S.key_of key.now) value × MayAnswer F.Fn test.now (S.key_of key.now) value false) self.old self.new) }
        ensures refused { OnErr result (self.new ≡ self.old) }
    {
        if answer_in::<K, V, S, _, _>(test, key, seen) {
            return Ok(false);
        }
        Ok(self.remove_failing(rt, key, test)?.is_some())
    }

    // Removes the key where its value fails the test, and returns what was removed, which is dropped with no lock held.
    fn remove_failing<R: Wait, F: Fn(&K, &V) -> bool>(
        &mut self,
        rt: &R,
        key: &S::Key,
        test: &F,
    ) -> Result<Option<S::Value>, NoMemory>
        requires { F.IsAlwaysCallable test.now }
        ensures wrote { IfOk result (λ removed. RemovesIf K.cmp K.path_of (is_some removed) (S.key_of key.now) (λ value. P.holds (S.key_of key.now) value × MayAnswer F.Fn test.now (S.key_of key.now) value false) self.old self.new) }
        ensures refused { OnErr result (self.new ≡ self.old) }
    {
        let path = S::lend_key(key).path();
        let mut stripe = self.row.stripe_at(rt, path);
        remove_behind(
            self.alloc,
            &mut stripe,
            key,
            path,
            test,
            &mut self.front,
            &mut self.author,
        )
    }
}

// Removes the key from its stripe where its value fails the test, behind what the front had seen, and returns the value
// that was removed, or none.
fn remove_behind<
    K: PathKey + Drop,
    V: Drop,
    P: Keeps<K, V>,
    J: Naming,
    S: Slots<K, V>,
    F: Fn(&K, &V) -> bool,
>(
    alloc: Global,
    stripe: &mut Stripe<K, V, P, J, S>,
    key: &S::Key,
    path: Path,
    test: &F,
    front: &mut Front<K, V, J>,
    author: &mut Author<J>,
) -> Result<Option<S::Value>, NoMemory>
where
    S::Key: Drop,
    S::Value: Drop,
    requires callable { F.IsAlwaysCallable test.now }
    requires path { path.0 ≡ K.path_of (S.key_of key.now) }
    requires place { digit_of K.path_of (S.key_of key.now) ≡ stripe.old.digit }
    ensures wrote { IfOk result (λ removed. RemovesIf K.cmp K.path_of (is_some removed) (S.key_of key.now) (λ value. P.holds (S.key_of key.now) value × MayAnswer F.Fn test.now (S.key_of key.now) value false) (record { log = front.old; signer = author.old }) (record { log = front.new; signer = author.new })) }
    ensures front { OnErr result (front.new ≡ front.old) }
    ensures unsigned { OnErr result (author.new ≡ author.old) }
    ensures digit { stripe.new.digit ≡ stripe.old.digit }
{
    front.law();
    stripe.meet(front);
    if passes(stripe, key, path, test) {
        return Ok(None);
    }
    let removed = stripe.remove(alloc, S::lend_key(key), path, author)?;
    stripe.tell(front);
    Ok(removed)
}
