//! What calls on many keys did before they were refused.

use map_session::PutError;
use trie_node::{NoMemory, Shared, ValueSlots};

/// Why not all pairs of a list were put, which were put, and the others, which are given back: nothing is lost.
///
/// <!-- quoted from crates/tests_trie_map_memory/src/tests/lists.rt -->
/// ```rust
/// let PutsRefused { put, rest, .. } = refused;
/// ```
///
/// Where these are of no use it converts to its `PutError` by `?`, and they are dropped.
#[derive(Drop)]
pub struct PutsRefused<K, V, S: ValueSlots<V> = Shared> {
    /// Why the pair was refused at which the call ended.
    pub error: PutError,
    /// Each pair that was put, in the order of the list: its place there, from 0 on, and the value before, or none.
    pub put: Vec<(usize, Option<S::Value>)>,
    /// The pairs that were not put, in the order of the list.
    pub rest: Vec<(K, V)>,
}

/// Which keys of a list were removed before memory ran out. It converts to a `PutError` or a `NoMemory` by `?`.
///
/// <!-- quoted from crates/tests_trie_map_memory/src/tests/lists.rt -->
/// ```rust
/// let RemovalsRefused { removed } = refused;
/// ```
#[derive(Drop)]
pub struct RemovalsRefused<V, S: ValueSlots<V> = Shared> {
    /// Each key whose turn had come, in the order of the list: its place there, from 0 on, and the value that was
    /// removed, or none where the key was absent.
    pub removed: Vec<(usize, Option<S::Value>)>,
}

impl<K: Drop, V: Drop, S: ValueSlots<V>> From<PutsRefused<K, V, S>> for PutError
where
    S::Value: Drop,
{
    ghost use Rattle.std.specs.Prelude.{◌≡◌};

    ghost from_gives = { λ refused error. error ≡ refused.error };

    fn from(refused: PutsRefused<K, V, S>) -> PutError {
        refused.error
    }
}

impl<V, S: ValueSlots<V>> From<RemovalsRefused<V, S>> for PutError
where
    S::Value: Drop,
{
    ghost use Rattle.std.specs.Prelude.{◌≡◌};
    ghost use Rattle.map_session.specs.declared.put_error.PutError.TheVariants.{NoMemory};

    ghost from_gives = { λ _ error. error ≡ NoMemory };

    fn from(_: RemovalsRefused<V, S>) -> PutError {
        PutError::NoMemory
    }
}

impl<V, S: ValueSlots<V>> From<RemovalsRefused<V, S>> for NoMemory
where
    S::Value: Drop,
{
    fn from(_: RemovalsRefused<V, S>) -> NoMemory {
        NoMemory
    }
}
