//! What a storage has to say.

ghost use Rattle.std.specs.Prelude.{◌≡◌, IfErr, IfOk};
ghost use Rattle.slots.specs.Rows.{RowsFit};
ghost use Rattle.slots.specs.Small.{IsSmall};

use std::alloc::{AllocError, AllocFailed, Global};

/// How the keys of a trie lie in its rows.
pub trait KeySlots<K> {
    /// A key, as it lies in a row and as callers have it.
    type Key;

    /// The key that it is.
    ghost key_of: { Self.Key → K };

    /// A key as it lies in a row, of the key itself: behind a new handle, or as it is. If memory runs out, the key comes
    /// back.
    fn new_key(alloc: Global, key: K) -> Result<Self::Key, AllocFailed<K>>
        ensures ok { IfOk result (λ made. key_of made ≡ key) }
        ensures err { IfErr result (λ failed. failed.value ≡ key) };

    /// The key itself, taken out. A key that others have too comes back as it is.
    fn into_key(key: Self::Key) -> Result<K, Self::Key>
        ensures ok { IfOk result (λ own. own ≡ key_of key) }
        ensures err { IfErr result (λ shared. key_of shared ≡ key_of key) };

    /// The key itself.
    fn lend_key(key: &Self::Key) -> &K
        ensures { result.now ≡ key_of key.now };

    /// Another of the same key: of a handle another handle. It may be refused.
    fn another_key(key: &Self::Key) -> Result<Self::Key, AllocError>
        ensures { IfOk result (λ twin. key_of twin ≡ key_of key.now) };

    /// Begins to fetch from memory what it leads to. Nothing waits for it.
    fn fetch_key(key: &Self::Key);

    /// It takes little room, so that a row of nodes has a size.
    ghost small_key: { IsSmall Self.Key.row };
}

/// How the values of a trie lie in its rows.
pub trait ValueSlots<V> {
    /// A value, as it lies in a row and as callers have it.
    type Value;

    /// The value that it is.
    ghost value_of: { Self.Value → V };

    /// A value as it lies in a row, of the value itself: behind a new handle, or as it is. If memory runs out, the value
    /// comes back.
    fn new_value(alloc: Global, value: V) -> Result<Self::Value, AllocFailed<V>>
        ensures ok { IfOk result (λ made. value_of made ≡ value) }
        ensures err { IfErr result (λ failed. failed.value ≡ value) };

    /// The value itself, taken out. A value that others have too comes back as it is.
    fn into_value(value: Self::Value) -> Result<V, Self::Value>
        ensures ok { IfOk result (λ own. own ≡ value_of value) }
        ensures err { IfErr result (λ shared. value_of shared ≡ value_of value) };

    /// The value itself.
    fn lend_value(value: &Self::Value) -> &V
        ensures { result.now ≡ value_of value.now };

    /// Another of the same value: of a handle another handle. It may be refused.
    fn another_value(value: &Self::Value) -> Result<Self::Value, AllocError>
        ensures { IfOk result (λ twin. value_of twin ≡ value_of value.now) };

    /// Begins to fetch from memory what it leads to. Nothing waits for it.
    fn fetch_value(value: &Self::Value);

    /// It takes little room, so that a row of nodes has a size.
    ghost small_value: { IsSmall Self.Value.row };
}

/// How the pairs of a trie lie in its rows: its storage.
pub trait Slots<K, V>: KeySlots<K> + ValueSlots<V> {
    /// Each row of nodes has a size. It follows from `small_key` and `small_value`; it stands here as a drop of a node
    /// needs it, so that no crate that drops one has to prove it.
    ghost rows: { RowsFit Self.Key.row Self.Value.row };
}

impl<K, V, S: KeySlots<K> + ValueSlots<V>> Slots<K, V> for S {
    ghost use Rattle.slots.specs.RowLaws.{rows_fit};

    ghost rows = { rows_fit S.Key.row S.Value.row S.KeySlots.small_key S.ValueSlots.small_value };
}
