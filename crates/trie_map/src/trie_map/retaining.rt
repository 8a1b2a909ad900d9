//! The removal of the pairs that fail a test.
ghost use Rattle.std.specs.Prelude.{◌≡◌, ◌≢◌, ◌≤◌, All, AllPairs, Bool, IfOk, IfSome, IsTrue, OnErr, false, if◌then◌else◌, is_some, length};
ghost use Rattle.bulk_ops.specs.Meanings.{MayAnswer, Means};
ghost use Rattle.stripe.specs.Rules.{AllKeep, first_digit as digit_of};
ghost use Rattle.map_view.specs.Questions.{failing};
ghost use Rattle.versions.specs.Map.{Map, without};

use super::TrieMap;
use closure_ops::answer_in;
use hash_path::{Path, PathKey};
use map_session::passes;
use map_view::View;
use std::alloc::Global;
use std::sync::Wait;
use stripes::{Keeps, Stripe};
use trie_node::{NoMemory, Slots};
use write_history::{Author, Naming};

impl<K: PathKey + Drop, V: Drop, P: Keeps<K, V>, J: Naming, S: Slots<K, V>> TrieMap<K, V, P, J, S>
where
    S::Key: Drop,
    S::Value: Drop,
{
    /// Removes the pairs that fail the test, and returns how many it removed.
    ///
    /// A view is taken and walked, so that nobody waits for the walk. Where a pair of the view fails the test, the
    /// stripe of its key is locked, and the pair that the key has by then is removed if that fails too. So each pair
    /// that is removed fails the test at that moment, and one that was put after the moment of the view may stay,
    /// though it fails.
    ///
    /// The test runs on the walk with no lock held, and once more before a removal, under the lock of the key's stripe:
    /// there it must not call the map.
    ///
    /// Cost: O(n), and O(log n) for each pair that fails, under all locks for the view and one lock for each of these.
    /// Refused: `NoMemory`, if memory runs out; what is removed by then is gone.
    pub fn retain<R: Wait, F: Fn(&K, &V) -> bool>(&self, rt: &R, test: F) -> Result<u64, NoMemory>
        requires callable { F.IsAlwaysCallable test }
        ensures few { IfOk result (λ removed. (m : Map K V) × AllKeep K.cmp P.holds m × ((p : K → V → Bool) → Means (MayAnswer F.Fn test) p → removed ≤ length (failing p m)) × (removed ≤ length m)) }
        ensures failed { IfOk result (λ removed. (gone : Map K V) × (length gone ≡ removed) × AllPairs (λ x y. x.0 ≢ y.0) gone × All (λ pair. P.holds pair.0 pair.1 × MayAnswer F.Fn test pair.0 pair.1 false) gone) }
    {
        let view = self.view(rt)?;
        let removed = self.remove_all_failing(rt, &view, &test);
        drop(view);
        removed
    }

    // Removes the pairs of the view that fail the test, where those that their keys have now fail too. Returns how many
    // they are.
    fn remove_all_failing<R: Wait, F: Fn(&K, &V) -> bool>(
        &self,
        rt: &R,
        view: &View<K, V, P, S>,
        test: &F,
    ) -> Result<u64, NoMemory>
        requires callable { F.IsAlwaysCallable test.now }
        ensures few { IfOk result (λ removed. removed ≤ length view.now) }
        ensures means { IfOk result (λ removed. (p : K → V → Bool) → Means (MayAnswer F.Fn test.now) p → removed ≤ length (failing p view.now)) }
        ensures failed { IfOk result (λ removed. (gone : Map K V) × (length gone ≡ removed) × AllPairs (λ x y. x.0 ≢ y.0) gone × All (λ pair. P.holds pair.0 pair.1 × MayAnswer F.Fn test.now pair.0 pair.1 false) gone) }
    {
        view.len();
        let mut removed = 0u64;
        for (key, value) in view.bunched() {
            let gone = self.remove_if_both_fail(rt, key, value, test)?;
            removed += u64::from(gone);
        }
        Ok(removed)
    }

    // Removes the key where the value that was seen fails the test and so does the one that it has now. Returns whether
    // it did.
    fn remove_if_both_fail<R: Wait, F: Fn(&K, &V) -> bool>(
        &self,
        rt: &R,
        key: &S::Key,
        seen: &S::Value,
        test: &F,
    ) -> Result<bool, NoMemory>
        requires { F.IsAlwaysCallable test.now }
        ensures seen { IfOk result (λ removed. IsTrue removed → MayAnswer F.Fn test.now (S.key_of key.now) (S.value_of seen.now) false) }
        ensures failed { IfOk result (λ removed. IsTrue removed → (value : V) × P.holds (S.key_of key.now) value × MayAnswer F.Fn test.now (S.key_of key.now) value false) }
    {
        if answer_in::<K, V, S, _, _>(test, key, seen) {
            return Ok(false);
        }
        Ok(self.remove_failing(rt, key, test)?.is_some())
    }

    // Removes the key where its value fails the test, and returns what was removed, which is dropped with no lock held.
    fn remove_failing<R: Wait, F: Fn(&K, &V) -> bool>(
        &self,
        rt: &R,
        key: &S::Key,
        test: &F,
    ) -> Result<Option<S::Value>, NoMemory>
        requires { F.IsAlwaysCallable test.now }
        ensures { IfOk result (λ removed. IfSome removed (λ value. P.holds (S.key_of key.now) (S.value_of value) × MayAnswer F.Fn test.now (S.key_of key.now) (S.value_of value) false)) }
    {
        let path = S::lend_key(key).path();
        let mut stripe = self.row.stripe_at(rt, path);
        remove_failing(self.alloc, &mut stripe, key, path, test)
    }
}

// Removes the key from its stripe where its value fails the test, and returns the value that was removed, or none. The
// only error is `NoMemory`, if memory runs out. The stripe is then as before.
fn remove_failing<
    K: PathKey + Drop,
    V: Drop,
    P: Keeps<K, V>,
    J: Naming,
    S: Slots<K, V>,
    F: Fn(&K, &V) -> bool,
>(
    alloc: Global,
    stripe: &mut Stripe<K, V, P, J, S>,
    key: &S::Key,
    path: Path,
    test: &F,
) -> Result<Option<S::Value>, NoMemory>
where
    S::Key: Drop,
    S::Value: Drop,
    requires callable { F.IsAlwaysCallable test.now }
    requires path { path.0 ≡ K.path_of (S.key_of key.now) }
    requires place { digit_of K.path_of (S.key_of key.now) ≡ stripe.old.digit }
    ensures kept { IfOk result (λ removed. IfSome removed (λ value. P.holds (S.key_of key.now) (S.value_of value))) }
    ensures removed { IfOk result (λ removed. IfSome removed (λ value. MayAnswer F.Fn test.now (S.key_of key.now) (S.value_of value) false)) }
    ensures entries { IfOk result (λ removed. stripe.new.entries ≡ (if is_some removed then without K.cmp stripe.old.entries (S.key_of key.now) else stripe.old.entries)) }
    ensures digit { stripe.new.digit ≡ stripe.old.digit }
    ensures err { OnErr result (stripe.new ≡ stripe.old) }
{
    if passes(stripe, key, path, test) {
        return Ok(None);
    }
    stripe.remove(alloc, S::lend_key(key), path, &mut Author::nobody())
}
