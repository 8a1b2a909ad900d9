//! Values that are put as they are shared, and new values for all keys.
ghost use Rattle.std.specs.Prelude.{◌≡◌, ◌≤◌, IfOk, IfSome, length};
ghost use Rattle.bulk_ops.specs.Meanings.{MayAnswer};
ghost use Rattle.stripe.specs.Rules.{AllKeep};
ghost use Rattle.versions.specs.Map.{Map};

use super::TrieMap;
use hash_path::PathKey;
use map_session::{PutError, made_at, put_present};
use map_view::View;
use std::sync::Wait;
use stripes::Keeps;
use trie_node::{IfPresent, NoMemory, Slots};
use write_history::{Author, Naming};

impl<K: PathKey + Drop, V: Drop, P: Keeps<K, V>, J: Naming, S: Slots<K, V>> TrieMap<K, V, P, J, S>
where
    S::Key: Drop,
    S::Value: Drop,
{
    /// Maps the key to a value that is shared already, as `get` and a view lend it, and returns the value before, or
    /// none. The value is not copied.
    ///
    /// Cost: O(log n), under the lock of the key's stripe. Refused: as `put`.
    pub fn put_shared<R: Wait>(
        &self,
        rt: &R,
        key: K,
        value: S::Value,
    ) -> Result<Option<S::Value>, PutError>
        requires { P.holds key (S.value_of value) }
        ensures kept { IfOk result (λ before. IfSome before (λ found. P.holds key (S.value_of found))) }
    {
        let path = key.path();
        let mut stripe = self.row.stripe_at(rt, path);
        match stripe.put(self.alloc, key, path, value, &mut Author::nobody()) {
            Ok(before) => Ok(before),
            Err(refusal) => Err(PutError::of(refusal)),
        }
    }

    /// What `put_if_absent` does with a value that is shared already.
    ///
    /// Cost: O(log n), under the lock of the key's stripe. Refused: as `put`.
    pub fn put_shared_if_absent<R: Wait>(
        &self,
        rt: &R,
        key: K,
        value: S::Value,
    ) -> Result<Option<S::Value>, PutError>
        requires { P.holds key (S.value_of value) }
        ensures kept { IfOk result (λ before. IfSome before (λ found. P.holds key (S.value_of found))) }
    {
        let path = key.path();
        self.put_absent(rt, key, path, value)
    }

    /// What `replace` does with a value that is shared already.
    ///
    /// Cost: O(log n), under the lock of the key's stripe. Refused: `NoMemory`, if memory runs out.
    pub fn replace_shared<R: Wait>(
        &self,
        rt: &R,
        key: K,
        value: S::Value,
    ) -> Result<Option<S::Value>, NoMemory>
        requires { P.holds key (S.value_of value) }
        ensures kept { IfOk result (λ before. IfSome before (λ found. P.holds key (S.value_of found))) }
    {
        Ok(self.replace_where(rt, key, value, &IfPresent)?.previous)
    }

    /// Gives each key the value that the closure makes of its pair, and returns how many keys it gave one.
    ///
    /// It is not one step, but one for each key: a view is taken and walked, and each of its keys is given what the
    /// closure makes of the value that it has by then. A key that was removed meanwhile is left out, and one that was
    /// put meanwhile may be. For one step take `map_values` and `restore_version`: what others write between these two
    /// is lost.
    ///
    /// The closure runs once for each key, under the lock of the key's stripe: it must not call the map.
    ///
    /// Cost: O(n log n), under all locks for the view and one lock for each key. Refused: `NoMemory`, if memory runs
    /// out; the values that were given by then stay.
    pub fn replace_all<R: Wait, F: Fn(&K, &V) -> V>(
        &self,
        rt: &R,
        change: F,
    ) -> Result<u64, NoMemory>
        requires callable { F.IsAlwaysCallable change }
        requires rule { (key : K) (old made : V) → P.holds key old → MayAnswer F.Fn change key old made → P.holds key made }
        ensures few { IfOk result (λ given. (m : Map K V) × AllKeep K.cmp P.holds m × (given ≤ length m)) }
    {
        let view = self.view(rt)?;
        let given = self.replace_each(rt, &view, &change);
        drop(view);
        given
    }

    // Gives each key of the view a new value, and returns how many it gave one.
    fn replace_each<R: Wait, F: Fn(&K, &V) -> V>(
        &self,
        rt: &R,
        view: &View<K, V, P, S>,
        change: &F,
    ) -> Result<u64, NoMemory>
        requires callable { F.IsAlwaysCallable change.now }
        requires rule { (key : K) (old made : V) → P.holds key old → MayAnswer F.Fn change.now key old made → P.holds key made }
        ensures few { IfOk result (λ given. given ≤ length view.now) }
    {
        view.len();
        let mut given = 0u64;
        for (key, _) in view.bunched() {
            let before = self.replace_by(rt, key, change)?;
            given += u64::from(before.is_some());
        }
        Ok(given)
    }

    // Gives the key a new value where it has one, and returns that, which is dropped with no lock held.
    fn replace_by<R: Wait, F: Fn(&K, &V) -> V>(
        &self,
        rt: &R,
        key: &S::Key,
        change: &F,
    ) -> Result<Option<S::Value>, NoMemory>
        requires callable { F.IsAlwaysCallable change.now }
        requires rule { (key : K) (old made : V) → P.holds key old → MayAnswer F.Fn change.now key old made → P.holds key made }
        ensures kept { IfOk result (λ before. IfSome before (λ found. P.holds (S.key_of key.now) (S.value_of found))) }
    {
        let path = S::lend_key(key).path();
        let mut stripe = self.row.stripe_at(rt, path);
        let Some(made) = made_at(&stripe, key, path, change) else {
            return Ok(None);
        };
        let made = S::new_value(self.alloc, made)?;
        put_present(
            self.alloc,
            &mut stripe,
            S::another_key(key)?,
            path,
            made,
            &mut Author::nobody(),
        )
    }
}
