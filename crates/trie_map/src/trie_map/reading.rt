//! Reads of one key's value under its lock, which clone no handle.
ghost use Rattle.std.specs.Prelude.{IfSome};

use super::TrieMap;
use hash_path::{PathKey, Sought};
use std::sync::Wait;
use stripes::Keeps;
use trie_node::Slots;
use write_history::Naming;

impl<K: PathKey + Drop, V: Drop, P: Keeps<K, V>, J: Naming, S: Slots<K, V>> TrieMap<K, V, P, J, S>
where
    S::Key: Drop,
    S::Value: Drop,
{
    /// What `look` returns of the value of the key, or of none: a value is read where it is, and no handle on it is
    /// cloned. So it costs less than `get`.
    ///
    /// `look` runs once, under the lock: calls of keys of that stripe wait for it, and it must not call the map, since
    /// the thread would wait for itself. It may rest on the rule for the value that it is given.
    ///
    /// Cost: O(log n), under the lock of the key's stripe. Refused: never.
    pub fn read<R: Wait, T, Q: Sought<K>, F: FnOnce(Option<&V>) -> T>(
        &self,
        rt: &R,
        key: Q,
        look: F,
    ) -> T
        requires callable { (found : _) → IfSome found (λ value. P.holds (Q.key_of key) value.now) → F.pre look found }
        ensures kept { (found : _) × IfSome found (λ value. P.holds (Q.key_of key) value.now) × F.post look found result }
    {
        let path = key.path_sought();
        let stripe = self.row.stripe_at(rt, path);
        stripe.read(key, path, look)
    }
}

impl<K: PathKey + Drop, V: Copy + Drop, P: Keeps<K, V>, J: Naming, S: Slots<K, V>> TrieMap<
    K,
    V,
    P,
    J,
    S,
>
where
    S::Key: Drop,
    S::Value: Drop,
{
    /// A copy of the value of the key, or none. No handle on it is cloned, so it costs less than `get`.
    ///
    /// Cost: O(log n), under the lock of the key's stripe. Refused: never.
    pub fn get_copied<R: Wait, Q: Sought<K>>(&self, rt: &R, key: Q) -> Option<V>
        ensures kept { IfSome result (λ value. P.holds (Q.key_of key) value) }
    {
        let path = key.path_sought();
        let stripe = self.row.stripe_at(rt, path);
        match stripe.get(key, path) {
            Some(value) => Some(*S::lend_value(value)),
            None => None,
        }
    }
}
