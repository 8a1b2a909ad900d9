//! The values of several keys at one moment, and writes of many keys, stripe by stripe.
ghost use Rattle.std.specs.Prelude.{◌≡◌, All, IfErr, IfOk, IfSome, List, map, option_map};
ghost use Rattle.std.specs.List.{AllZip};
ghost use Rattle.many_writes.specs.Parts.{IsParted};
ghost use Rattle.stripe.specs.Rules.{AllKeep};
ghost use Rattle.versions.specs.Map.{Map, value_at};

use super::TrieMap;
use crate::refused::{PutsRefused, RemovalsRefused};
use hash_path::{PathKey, Sought};
use many_writes::{Unput, put_each, remove_each};
use map_session::{PutError, handles_in};
use std::sync::Wait;
use stripes::Keeps;
use trie_node::{NoMemory, Slots};
use write_history::{Author, Naming};

impl<K: PathKey + Drop, V: Drop, P: Keeps<K, V>, J: Naming, S: Slots<K, V>> TrieMap<K, V, P, J, S>
where
    S::Key: Drop,
    S::Value: Drop,
{
    /// The values of keys, in the order of the keys, of the map as it stands at one moment of the call: for each its
    /// value, or none. A view is taken and asked by its `get_many`, so nobody waits for the look-ups. So it is for more
    /// than a few keys, or where their values have to be of one moment; who has a view already asks that.
    ///
    /// Cost: O(k log n) for k keys, under all locks for the view alone, and memory for the list. Refused: `NoMemory`,
    /// if memory runs out, or a handle on a value cannot be cloned.
    pub fn get_many<R: Wait, Q: Sought<K>>(
        &self,
        rt: &R,
        keys: &[Q],
    ) -> Result<Vec<Option<S::Value>>, NoMemory>
        ensures { IfOk result (λ values. (m : Map K V) × AllKeep K.cmp P.holds m × (map (option_map (λ value. S.value_of value)) values.items ≡ map (λ key. value_at K.cmp m (Q.key_of key)) keys.now)) }
    {
        let view = self.view(rt)?;
        view.law();
        let values = handles_in(self.alloc, &view, keys);
        drop(view);
        values
    }

    /// Removes each of the keys, and returns for each, in the order of the list, the value before, or none.
    ///
    /// The keys of one stripe are removed at one moment, under one lock, and those of different stripes are not. Where
    /// one is refused, the call ends. What was removed is gone, and the error has it.
    ///
    /// Cost: O(k log n) for k keys, under the lock of one stripe after another, and memory for the list that is requested
    /// before the first. Refused: `RemovalsRefused`, if memory runs out.
    pub fn remove_many<R: Wait, Q: Sought<K>>(
        &self,
        rt: &R,
        keys: &[Q],
    ) -> Result<Vec<Option<S::Value>>, RemovalsRefused<V, S>>
        ensures kept { IfOk result (λ before. AllZip (λ key found. IfSome found (λ value. P.holds (Q.key_of key) (S.value_of value))) keys.now before.items) }
        ensures parted { IfErr result (λ refused. (left : List Q) × IsParted (λ key found. IfSome found (λ value. P.holds (Q.key_of key) (S.value_of value))) 0 keys.now refused.removed.items left) }
    {
        match remove_each(rt, self.alloc, &self.row, keys, &mut Author::nobody()) {
            Ok(before) => Ok(before),
            Err(removed) => Err(RemovalsRefused { removed }),
        }
    }

    /// Puts each of the pairs, and returns for each, in the order of the list, the value before, or none. Of several
    /// pairs with one key the last stays, and each has the value of the one before it.
    ///
    /// The pairs of one stripe are put at one moment, under one lock, and those of different stripes are not: another
    /// thread may see, or write, what lies between. No other thread's call comes between two pairs of one stripe, so a
    /// list takes fewer locks than puts one by one.
    ///
    /// Where a put is refused, the call ends. What was put stays, and the error has it with the values before, and gives
    /// back all other pairs: put its `rest` once there is room. As a `PutError` it converts by `?`, without these.
    ///
    /// Cost: O(k log n) for k pairs, under the lock of one stripe after another, and memory for the list that is requested
    /// before the first. Refused: as `put`.
    pub fn put_many<R: Wait>(
        &self,
        rt: &R,
        pairs: Vec<(K, V)>,
    ) -> Result<Vec<Option<S::Value>>, PutsRefused<K, V, S>>
        requires { All (λ pair. P.holds pair.0 pair.1) pairs.items }
        ensures kept { IfOk result (λ before. AllZip (λ pair found. IfSome found (λ value. P.holds pair.0 (S.value_of value))) pairs.items before.items) }
        ensures parted { IfErr result (λ refused. IsParted (λ pair found. IfSome found (λ value. P.holds pair.0 (S.value_of value))) 0 pairs.items refused.put.items refused.rest.items) }
    {
        match put_each(rt, self.alloc, &self.row, pairs, &mut Author::nobody()) {
            Ok(before) => Ok(before),
            Err(Unput { refusal, put, rest }) => Err(PutsRefused {
                error: PutError::of(refusal),
                put,
                rest,
            }),
        }
    }
}
