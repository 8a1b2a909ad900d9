//! A pair, as it lies in a row.

ghost use Rattle.std.specs.Prelude.{◌≡◌, IfOk};

use crate::shared::Shared;
use crate::storage::{KeySlots, Slots, ValueSlots};
use std::alloc::AllocError;
use std::marker::Model;

/// A key and its value, as they lie in a row.
#[derive(Drop)]
pub struct Pair<K, V, S: Slots<K, V> = Shared> {
    key: S::Key,
    value: S::Value,
}

impl<K, V, S: Slots<K, V>> Model for Pair<K, V, S> {
    ghost Value = { K × V };

    ghost view = { λ pair. (S.key_of pair.key, S.value_of pair.value) };
}

impl<K, V, S: Slots<K, V>> Pair<K, V, S> {
    /// A pair of these.
    pub fn new(key: S::Key, value: S::Value) -> Pair<K, V, S>
        ensures { result ≡ (S.key_of key, S.value_of value) }
    {
        Pair { key, value }
    }

    /// The key.
    pub fn key(&self) -> &K
        ensures { result.now ≡ self.now.0 }
    {
        S::lend_key(&self.key)
    }

    /// The value.
    pub fn value(&self) -> &V
        ensures { result.now ≡ self.now.1 }
    {
        S::lend_value(&self.value)
    }

    /// The key, as it lies in the row.
    pub fn key_slot(&self) -> &S::Key
        ensures { S.key_of result.now ≡ self.now.0 }
    {
        &self.key
    }

    /// The value, as it lies in the row.
    pub fn value_slot(&self) -> &S::Value
        ensures { S.value_of result.now ≡ self.now.1 }
    {
        &self.value
    }

    /// Another of the same pair. It may be refused.
    pub fn another(&self) -> Result<Pair<K, V, S>, AllocError>
    where
        S::Key: Drop,
        ensures { IfOk result (λ twin. twin ≡ self.now) }
    {
        self.another_with(&self.value)
    }

    /// Another of the same key, with another of a value. It may be refused.
    pub fn another_with(&self, value: &S::Value) -> Result<Pair<K, V, S>, AllocError>
    where
        S::Key: Drop,
        ensures { IfOk result (λ twin. twin ≡ (self.now.0, S.value_of value.now)) }
    {
        let key = S::another_key(&self.key)?;
        let value = S::another_value(value)?;
        Ok(Pair { key, value })
    }

    /// Begins to fetch the key from memory. Nothing waits for it.
    pub fn fetch_key(&self) {
        S::fetch_key(&self.key)
    }

    /// Begins to fetch the value from memory. Nothing waits for it.
    pub fn fetch_value(&self) {
        S::fetch_value(&self.value)
    }

    /// The key and the value, taken out.
    pub fn into_parts(self) -> (S::Key, S::Value)
        ensures key { S.key_of result.0 ≡ self.0 }
        ensures value { S.value_of result.1 ≡ self.1 }
    {
        (self.key, self.value)
    }

    /// The value, taken out. The key is dropped.
    pub fn into_value(self) -> S::Value
    where
        S::Key: Drop,
        ensures { S.value_of result ≡ self.1 }
    {
        self.value
    }

    /// Puts another value in the value's place, and returns the one that was there. The key stays.
    pub fn exchange(&mut self, value: S::Value) -> S::Value
        ensures before { S.value_of result ≡ self.old.1 }
        ensures after { self.new ≡ (self.old.0, S.value_of value) }
    {
        std::mem::replace(&mut self.value, value)
    }
}
