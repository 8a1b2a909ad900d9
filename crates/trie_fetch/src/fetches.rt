//! What is read of a pair: of a handle the count that stands beside the key or the value.
//!
//! The count lies in one block with what it counts the handles of, so both come from memory by one read. An atomic
//! load is kept by the compiler, where a plain one with no use is not. Of what lies in the row nothing is read.

use slots::{Pair, Slots};

/// Which counts of a pair are read.
pub trait Fetches {
    /// Reads them.
    fn fetch<K, V, S: Slots<K, V>>(pair: &Pair<K, V, S>);
}

/// The counts of keys.
pub struct Keys;

impl Fetches for Keys {
    fn fetch<K, V, S: Slots<K, V>>(pair: &Pair<K, V, S>) {
        pair.fetch_key();
    }
}

/// The counts of values.
pub struct Values;

impl Fetches for Values {
    fn fetch<K, V, S: Slots<K, V>>(pair: &Pair<K, V, S>) {
        pair.fetch_value();
    }
}

/// The counts of keys and of values.
pub struct KeysAndValues;

impl Fetches for KeysAndValues {
    fn fetch<K, V, S: Slots<K, V>>(pair: &Pair<K, V, S>) {
        pair.fetch_key();
        pair.fetch_value();
    }
}

/// Reads the counts of the first of some pairs.
pub(crate) fn fetch_first<F: Fetches, K, V, S: Slots<K, V>>(pairs: &[Pair<K, V, S>]) {
    if let Some(pair) = pairs.first() {
        F::fetch(pair);
    }
}
