//! Keys and values behind handles.

use crate::storage::{KeySlots, ValueSlots};
use std::alloc::{AllocError, AllocFailed, Global};
use std::sync::Arc;

/// Keys and values lie behind handles, which maps and callers share.
pub struct Shared;

impl<K> KeySlots<K> for Shared {
    ghost use Rattle.std.proofs.Common.{rules};
    ghost use Rattle.std.specs.Arc.{arc_value};

    type Key = Arc<K, Global>;

    ghost key_of = { arc_value };

    ghost small_key = { Prim.search rules };

    fn new_key(alloc: Global, key: K) -> Result<Arc<K, Global>, AllocFailed<K>> {
        Arc::new(alloc, key)
    }

    fn into_key(key: Arc<K, Global>) -> Result<K, Arc<K, Global>> {
        Arc::try_unwrap(key)
    }

    fn lend_key(key: &Arc<K, Global>) -> &K {
        key
    }

    fn another_key(key: &Arc<K, Global>) -> Result<Arc<K, Global>, AllocError> {
        Arc::try_clone(key)
    }

    /// Reads the count of handles, which lies beside the key.
    fn fetch_key(key: &Arc<K, Global>) {
        let _ = Arc::strong_count(key);
    }
}

impl<V> ValueSlots<V> for Shared {
    ghost use Rattle.std.proofs.Common.{rules};
    ghost use Rattle.std.specs.Arc.{arc_value};

    type Value = Arc<V, Global>;

    ghost value_of = { arc_value };

    ghost small_value = { Prim.search rules };

    fn new_value(alloc: Global, value: V) -> Result<Arc<V, Global>, AllocFailed<V>> {
        Arc::new(alloc, value)
    }

    fn into_value(value: Arc<V, Global>) -> Result<V, Arc<V, Global>> {
        Arc::try_unwrap(value)
    }

    fn lend_value(value: &Arc<V, Global>) -> &V {
        value
    }

    fn another_value(value: &Arc<V, Global>) -> Result<Arc<V, Global>, AllocError> {
        Arc::try_clone(value)
    }

    /// Reads the count of handles, which lies beside the value.
    fn fetch_value(value: &Arc<V, Global>) {
        let _ = Arc::strong_count(value);
    }
}
