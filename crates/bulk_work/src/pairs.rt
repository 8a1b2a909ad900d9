//! Pairs as they lie in the rows of a map.

use trie_node::{KeySlots, Shared, ValueSlots};

/// A pair of a map, as it lies in its rows: two handles with `Shared`.
pub type Pair<K, V, S = Shared> = (<S as KeySlots<K>>::Key, <S as ValueSlots<V>>::Value);
