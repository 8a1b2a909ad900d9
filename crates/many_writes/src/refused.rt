//! Why not all pairs of a list were put.

use trie_node::{Shared, ValueSlots};
use versions::Refusal;

/// Why not all pairs of a list were put, which were put, and those that were not, which are given back.
#[derive(Drop)]
pub struct Unput<K, V, S: ValueSlots<V> = Shared> {
    /// Why the pair was refused at which the call ended: as `Full`, or as `NoMemory`.
    pub refusal: Refusal,
    /// Each pair that was put, in the order of the list: its place there, from 0 on, and the value before, or none.
    pub put: Vec<(usize, Option<S::Value>)>,
    /// The pairs that were not put, in the order of the list.
    pub rest: Vec<(K, V)>,
}
