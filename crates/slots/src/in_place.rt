//! Keys and values in the rows themselves.

use crate::inline::Inline;
use crate::storage::{KeySlots, ValueSlots};
use std::alloc::{AllocError, AllocFailed, Global};

/// Keys and values lie in the rows themselves.
///
/// <!-- quoted from crates/tests_trie_memory/src/tests/prices.rt -->
/// ```rust
/// let mut pair: Pair<u64, Price, InPlace> = Pair::new(3, PRICE);
/// let copy = pair.another().expect(&rt, "no pair");
/// ```
pub struct InPlace;

impl<K: Inline> KeySlots<K> for InPlace {
    type Key = K;

    ghost key_of = { λ key. key };

    ghost small_key = { K.Inline.small };

    fn new_key(_alloc: Global, key: K) -> Result<K, AllocFailed<K>> {
        Ok(key)
    }

    fn into_key(key: K) -> Result<K, K> {
        Ok(key)
    }

    fn lend_key(key: &K) -> &K {
        key
    }

    fn another_key(key: &K) -> Result<K, AllocError> {
        key.another()
    }

    fn fetch_key(_key: &K) {}
}

impl<V: Inline> ValueSlots<V> for InPlace {
    type Value = V;

    ghost value_of = { λ value. value };

    ghost small_value = { V.Inline.small };

    fn new_value(_alloc: Global, value: V) -> Result<V, AllocFailed<V>> {
        Ok(value)
    }

    fn into_value(value: V) -> Result<V, V> {
        Ok(value)
    }

    fn lend_value(value: &V) -> &V {
        value
    }

    fn another_value(value: &V) -> Result<V, AllocError> {
        value.another()
    }

    fn fetch_value(_value: &V) {}
}
