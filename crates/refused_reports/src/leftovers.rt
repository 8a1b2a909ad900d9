//! The pieces that workers leave.
ghost use Rattle.std.specs.Prelude.{◌≡◌, ◌++◌, OnOk};

use combiner::BulkIn;
use hash_path::PathKey;
use partial_results::{Gathered, OfBulk, OfView, Partial, Task};
use trie_node::{NoMemory, Slots};

/// Puts the pieces that a worker leaves behind those of the others.
pub fn left_over<'a, C, K, V, S, B>(
    gathered: &mut Gathered<'a, C, K, V, S, B>,
    partial: Partial<'a, C, K, V, S, B>,
    pieces: Vec<Task<C, K, V, S>>,
) -> Result<(), NoMemory>
where
    C: OfView<K, V> + OfBulk<B>,
    K: PathKey,
    S: Slots<K, V>,
    S::Key: Drop,
    S::Value: Drop,
    B: BulkIn<K, V, S>,
    ensures { OnOk result (gathered.new.leftover.items ≡ gathered.old.leftover.items ++ pieces.items) }
{
    gathered.add(partial, pieces)
}
