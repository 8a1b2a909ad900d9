//! Keys in the rows themselves, and values behind handles.

use crate::inline::Inline;
use crate::storage::{KeySlots, ValueSlots};
use std::alloc::{AllocError, AllocFailed, Global};
use std::sync::Arc;

/// Keys lie in the rows themselves, and values behind handles, which maps and callers share.
///
/// <!-- quoted from crates/tests_keys/src/tests/rows.rt -->
/// ```rust
/// let value = KeysInPlace::new_value(alloc, 10u64)?;
/// assert_eq!(rt; own_value::<u64, KeysInPlace>(value).ok(), Some(10));
/// ```
pub struct KeysInPlace;

impl<K: Inline> KeySlots<K> for KeysInPlace {
    type Key = K;

    ghost key_of = { λ key. key };

    ghost small_key = { K.Inline.small };

    fn new_key(_alloc: Global, key: K) -> Result<K, AllocFailed<K>> {
        Ok(key)
    }

    fn into_key(key: K) -> Result<K, K> {
        Ok(key)
    }

    fn lend_key(key: &K) -> &K {
        key
    }

    fn another_key(key: &K) -> Result<K, AllocError> {
        key.another()
    }

    fn fetch_key(_key: &K) {}
}

impl<V> ValueSlots<V> for KeysInPlace {
    ghost use Rattle.std.proofs.Common.{rules};
    ghost use Rattle.std.specs.Arc.{arc_value};

    type Value = Arc<V, Global>;

    ghost value_of = { arc_value };

    ghost small_value = { Prim.search rules };

    fn new_value(alloc: Global, value: V) -> Result<Arc<V, Global>, AllocFailed<V>> {
        Arc::new(alloc, value)
    }

    fn into_value(value: Arc<V, Global>) -> Result<V, Arc<V, Global>> {
        Arc::try_unwrap(value)
    }

    fn lend_value(value: &Arc<V, Global>) -> &V {
        value
    }

    fn another_value(value: &Arc<V, Global>) -> Result<Arc<V, Global>, AllocError> {
        Arc::try_clone(value)
    }

    /// Reads the count of handles, which lies beside the value.
    fn fetch_value(value: &Arc<V, Global>) {
        let _ = Arc::strong_count(value);
    }
}
