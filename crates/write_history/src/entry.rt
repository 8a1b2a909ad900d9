//! Writes of a map.

/// A write of a map, as it stands in a history. No value of it is made.
pub enum Write<K, V> {
    /// The key has the value from then on.
    Put(K, V),
    /// The key has no value from then on.
    Remove(K),
    /// No key has a value from then on.
    Clear,
}

/// A write, and who signed it, or none. An author is the key of a cell. No value of it is made.
pub struct Entry<K, V> {
    pub by: Option<u64>,
    pub write: Write<K, V>,
}
