//! The threads of a crew.
ghost use Rattle.std.specs.Prelude.{◌≡◌, ◌<◌, ◌≤◌, ◌^◌, [], ℕ, All, IfOk, length, slice_index_or};
ghost use Rattle.task_pool.specs.Asked.{KeepsAsked};

use crate::gate::Gate;
use crate::shared::Shared;
use crate::worker::IdleWorker;
use combiner::BulkIn;
use hash_path::PathKey;
use partial_results::{OfBulk, OfView, Task};
use ruled_deques::Deques;
use sized_threads::{Work, map_vec};
use std::marker::PhantomData;
use std::sync::Wait;
use std::thread::Threads;
use trie_node::{NoMemory, Slots};

// The stack of a worker's thread, in bytes: as much as that of a client, whose thread is a crew's first worker.
const WORKER_STACK: usize = 512 * 1024;

// Runs a worker, by whichever thread.
#[derive(Drop)]
struct RunWorker<'s, 'g, 'a, C, K, V, S: Slots<K, V>, B, D, G> {
    shared: &'s Shared<'g, G>,
    crew: PhantomData<(&'a B, C, K, V, S::Key, D)>,
}

impl<'a, C, K, V, S, B, D, G> Work for RunWorker<'_, '_, 'a, C, K, V, S, B, D, G>
where
    C: OfView<K, V> + OfBulk<B>,
    K: PathKey,
    S: Slots<K, V>,
    S::Key: Drop,
    S::Value: Drop,
    B: BulkIn<K, V, S>,
    D: Deques,
    G: Gate,
{
    type Job = IdleWorker<'a, C, K, V, S, B, D>;

    type Out = Result<IdleWorker<'a, C, K, V, S, B, D>, NoMemory>;

    ghost needs = { λ w _. w.shared.now.grain ≡ C.grain };

    ghost gives = { λ w job result. IfOk result (λ done. (done.state.ends.place ≡ job.state.ends.place) × KeepsAsked (G.asked w.shared.now.gate.now) job.state.ends.place job.state.partial done.state.partial) };

    fn run(
        &self,
        job: IdleWorker<'a, C, K, V, S, B, D>,
    ) -> Result<IdleWorker<'a, C, K, V, S, B, D>, NoMemory> {
        job.run(self.shared)
    }
}

/// Runs each worker, and returns all of them in their order.
///
/// The first runs on the caller's thread, and each other on a thread of its own. A worker whose thread cannot be started
/// is run by the caller's thread too, after those before it.
pub fn run_workers<'a, C, K, V, S, B, D, G, R>(
    rt: &R,
    shared: &Shared<'_, G>,
    workers: Vec<IdleWorker<'a, C, K, V, S, B, D>>,
) -> Result<Vec<Result<IdleWorker<'a, C, K, V, S, B, D>, NoMemory>>, NoMemory>
where
    C: OfView<K, V> + OfBulk<B> + Send + Sync,
    K: PathKey + Send + Sync,
    V: Send + Sync,
    S: Slots<K, V> + Send + Sync,
    S::Key: Drop + Send + Sync,
    S::Value: Drop + Send + Sync,
    B: BulkIn<K, V, S> + Sync,
    B::Part: Send,
    D: Deques + Send + Sync,
    G: Gate + Sync,
    R: Threads + Wait + Sync,
    requires grain { shared.now.grain ≡ C.grain }
    requires few { length workers.items ≤ 2 ^ 32 }
    requires places { (i : ℕ) (d : _) → i < length workers.items → (slice_index_or workers.items i d).state.ends.place ≡ i }
    requires fresh { (i : ℕ) (d : _) → i < length workers.items → (slice_index_or workers.items i d).state.partial ≡ [] }
    ensures len { IfOk result (λ done. length done.items ≡ length workers.entry.items) }
    ensures each { IfOk result (λ done. (i : ℕ) (d : _) → i < length done.items → IfOk (slice_index_or done.items i d) (λ w. w.state.ends.place ≡ i)) }
    ensures asked { IfOk result (λ done. (i : ℕ) (d : _) → i < length done.items → IfOk (slice_index_or done.items i d) (λ w. All (G.asked shared.now.gate.now i) w.state.partial)) }
{
    let run = RunWorker {
        shared,
        crew: PhantomData,
    };
    let done = map_vec(rt, shared.alloc, WORKER_STACK, workers, &run)?;
    Ok(done)
}
