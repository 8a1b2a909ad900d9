//! What a write under a condition did, and what it found.

ghost use Rattle.std.specs.Prelude.{◌≡◌, option_map, is_some, true, IfOk, OnErr};

use slots::{Pair, Shared, Slots, ValueSlots};
use trie_shape::NoMemory;

/// What a write of one key did, and what it found.
#[derive(Debug, Drop)]
pub struct Change<V, S: ValueSlots<V> = Shared> {
    /// The value that the key had before, or none.
    pub previous: Option<S::Value>,
    /// Whether anything was written.
    pub written: bool,
}

/// Another of the pair's value, where there is a pair.
pub(crate) fn another<K, V, S: Slots<K, V>>(
    pair: Option<&Pair<K, V, S>>,
) -> Result<Option<S::Value>, NoMemory>
    ensures due { OnErr result (is_some pair.entry ≡ true) }
    ensures ok { IfOk result (λ found. option_map S.value_of found ≡ option_map (λ p. p.now.1) pair.entry) }
{
    match pair {
        Some(pair) => Ok(Some(S::another_value(pair.value_slot())?)),
        None => Ok(None),
    }
}
