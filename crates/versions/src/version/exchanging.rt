//! Puts of a key that is there, which exchange its value where it stands.
ghost use Rattle.std.specs.Prelude.{◌≡◌, ◌&&◌, None, Some, true};
ghost use Rattle.versions.specs.Commands.{is_full_for};
ghost use Rattle.versions.specs.Exchanges.{Exchanges};

use super::Version;
use hash_path::{Path, PathKey, Sought};
use trie_copy::holds_of_absent;
use trie_node::{
    Change, Condition, Exchange, Slots, ValueSlots, root_is_map, writes_keep_stamps_below,
};

impl<K: PathKey, V, S: Slots<K, V>> Version<K, V, S>
where
    S::Key: Drop,
    S::Value: Drop,
{
    /// Maps the key to the value, where the key is there, the condition holds of its value, and nobody else holds a
    /// node of its way. Where not, the value comes back, and the map is as before. No memory is requested.
    pub(super) fn exchange_along<Q: Sought<K>, C: Condition<V>>(
        &mut self,
        key: Q,
        path: Path,
        value: S::Value,
        condition: &C,
    ) -> Exchange<V, S>
        requires { path.0 ≡ K.path_of (Q.key_of key) }
        ensures { Exchanges S.value_of K.cmp K.path_of (Q.key_of key) value (C.holds condition.now) self.old result self.new }
    {
        root_is_map::<K, V>();
        writes_keep_stamps_below();
        let mut root = self.root.take();
        let exchange = trie_node::exchange_in_where_along(
            &mut root, key, path, value, self.stamp, condition,
        );
        self.root.put_back(root);
        exchange
    }

    /// Whether the condition holds, the key is new, and there are as many pairs as there may be.
    pub(super) fn is_full_at<Q: Sought<K>, C: Condition<V>>(
        &self,
        key: Q,
        path: Path,
        condition: &C,
    ) -> bool
        requires { path.0 ≡ K.path_of (Q.key_of key) }
        ensures { result ≡ (C.holds condition.now None && is_full_for K.cmp self.now.limit self.now.entries (Q.key_of key)) }
    {
        self.len() == self.limit
            && self.get_along(key, path).is_none()
            && holds_of_absent(condition)
    }
}

/// What a put did that found this value.
pub(super) fn exchanged<V, S: ValueSlots<V>>(previous: S::Value) -> Change<V, S>
    ensures previous { result.previous ≡ Some previous }
    ensures written { result.written ≡ true }
{
    Change {
        previous: Some(previous),
        written: true,
    }
}
