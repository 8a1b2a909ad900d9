//! What a closure returns of a value that stays where it is.
ghost use Rattle.std.specs.Prelude.{◌≡◌, IfSome, option_map};
ghost use Rattle.stripe.specs.Rules.{first_digit as digit_of};
ghost use Rattle.stripe.specs.Updates.{MayPass};
ghost use Rattle.versions.specs.Map.{value_at};

use super::Stripe;
use crate::keeps::Keeps;
use hash_path::{Path, PathKey, Sought};
use trie_node::Slots;
use write_history::Naming;

impl<K: PathKey + Drop, V: Drop, P: Keeps<K, V>, J: Naming, S: Slots<K, V>> Stripe<K, V, P, J, S>
where
    S::Key: Drop,
    S::Value: Drop,
{
    /// What `look` returns of the value of the key, or of none. No handle is cloned.
    pub fn read<T, Q: Sought<K>, F: FnOnce(Option<&V>) -> T>(
        &self,
        key: Q,
        path: Path,
        look: F,
    ) -> T
        requires path { path.0 ≡ K.path_of (Q.key_of key) }
        requires place { digit_of K.path_of (Q.key_of key) ≡ self.now.digit }
        requires callable { (found : _) → IfSome found (λ value. P.holds (Q.key_of key) value.now) → F.pre look found }
        ensures { (found : _) × (option_map (λ value. value.now) found ≡ value_at K.cmp self.now.entries (Q.key_of key)) × IfSome found (λ value. P.holds (Q.key_of key) value.now) × F.post look found result }
    {
        look(self.value(key, path))
    }

    /// Whether the key has a value, and the test holds of it.
    pub fn passes<Q: Sought<K>, F: FnOnce(&V) -> bool>(&self, key: Q, path: Path, test: F) -> bool
        requires path { path.0 ≡ K.path_of (Q.key_of key) }
        requires place { digit_of K.path_of (Q.key_of key) ≡ self.now.digit }
        requires callable { (value : _) → P.holds (Q.key_of key) value.now → F.pre test value }
        ensures { MayPass F.FnOnce test (value_at K.cmp self.now.entries (Q.key_of key)) result }
    {
        match self.value(key, path) {
            Some(value) => test(value),
            None => false,
        }
    }

    // The value of the key, or none.
    fn value<Q: Sought<K>>(&self, key: Q, path: Path) -> Option<&V>
        requires path { path.0 ≡ K.path_of (Q.key_of key) }
        requires place { digit_of K.path_of (Q.key_of key) ≡ self.now.digit }
        ensures value { option_map (λ value. value.now) result ≡ value_at K.cmp self.now.entries (Q.key_of key) }
        ensures kept { IfSome result (λ value. P.holds (Q.key_of key) value.now) }
    {
        match self.get(key, path) {
            Some(value) => Some(S::lend_value(value)),
            None => None,
        }
    }
}
