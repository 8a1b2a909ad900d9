//! The workers, before their threads begin.
ghost use Rattle.std.specs.Prelude.{◌≡◌, ◌<◌, [], ℕ, IfOk, Some, length, slice_index_or};
ghost use Rattle.iter.specs.Intervals.{whole};
ghost use Rattle.ruled_deques.specs.EndsView.{given};

use crate::worker::{IdleWorker, WorkerState};
use combiner::BulkIn;
use hash_path::PathKey;
use partial_results::{OfBulk, OfView, Partial, Task};
use ruled_deques::{Deques, WorkerEnds};
use std::alloc::Global;
use trie_node::{NoMemory, Slots};
use versions::View;

// A worker that has worked nothing.
fn new_worker<'a, C, K, V, S, B, D>(
    alloc: Global,
    view: &View<K, V, S>,
    bulk: &'a B,
    ends: WorkerEnds<Task<C, K, V, S>, D>,
) -> Result<IdleWorker<'a, C, K, V, S, B, D>, NoMemory>
where
    C: OfView<K, V> + OfBulk<B>,
    K: PathKey,
    S: Slots<K, V>,
    S::Key: Drop,
    S::Value: Drop,
    B: BulkIn<K, V, S>,
    D: Deques,
    requires view { view.now ≡ C.map }
    requires bulk { Some bulk.now ≡ C.bulk }
    requires ready { B.ready bulk.now }
    requires pushed { ends.pushed ≡ given whole ends.place }
    requires taken { ends.taken ≡ [] }
    ensures place { IfOk result (λ worker. worker.state.ends.place ≡ ends.place) }
    ensures fresh { IfOk result (λ worker. worker.state.partial ≡ []) }
{
    let partial = Partial::new(alloc, view, bulk)?;
    let leftover = Vec::new(alloc);
    Ok(IdleWorker {
        state: WorkerState {
            ends,
            partial,
            leftover,
        },
    })
}

/// A worker for each deque.
pub fn make_workers<'a, C, K, V, S, B, D>(
    alloc: Global,
    view: &View<K, V, S>,
    bulk: &'a B,
    all: Vec<WorkerEnds<Task<C, K, V, S>, D>>,
) -> Result<Vec<IdleWorker<'a, C, K, V, S, B, D>>, NoMemory>
where
    C: OfView<K, V> + OfBulk<B>,
    K: PathKey,
    S: Slots<K, V>,
    S::Key: Drop,
    S::Value: Drop,
    B: BulkIn<K, V, S>,
    D: Deques,
    requires view { view.now ≡ C.map }
    requires bulk { Some bulk.now ≡ C.bulk }
    requires ready { B.ready bulk.now }
    requires each { (i : ℕ) (d : _) → i < length all.items → slice_index_or all.items i d ≡ record { place = i; pushed = given whole i; taken = [] } }
    ensures len { IfOk result (λ workers. length workers.items ≡ length all.items) }
    ensures places { IfOk result (λ workers. (i : ℕ) (d : _) → i < length workers.items → (slice_index_or workers.items i d).state.ends.place ≡ i) }
    ensures fresh { IfOk result (λ workers. (i : ℕ) (d : _) → i < length workers.items → (slice_index_or workers.items i d).state.partial ≡ []) }
{
    let mut workers = Vec::new(alloc);
    for ends in all {
        let worker = new_worker(alloc, view, bulk, ends)?;
        workers.push(worker)?;
    }
    Ok(workers)
}
