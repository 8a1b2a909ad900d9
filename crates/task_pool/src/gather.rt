//! What the caller gathers from workers that have ended.
ghost use Rattle.std.specs.Prelude.{◌≡◌, ◌+◌, ◌<◌, ◌++◌, ◌∷◌, [], ℕ, All, IfOk, OnOk, length, slice_index_or};
ghost use Rattle.std.specs.List.{sum_by};
ghost use Rattle.iter.specs.Intervals.{cover, whole};
ghost use Rattle.ruled_deques.specs.EndsView.{given};
ghost use Rattle.task_pool.specs.Asked.{EachAsked};

use crate::gate::Gate;
use crate::worker::{IdleWorker, WorkerState};
use combiner::BulkIn;
use hash_path::PathKey;
use partial_results::{Gathered, OfBulk, OfView, Task};
use ruled_deques::{Deques, WorkerEnds, close};
use std::alloc::Global;
use trie_node::{NoMemory, Slots};

// The workers by their fields.
#[derive(Drop)]
struct Parted<
    'a,
    C: OfView<K, V> + OfBulk<B>,
    K: PathKey,
    V,
    S: Slots<K, V>,
    B: BulkIn<K, V, S>,
    D: Deques,
> {
    ends: Vec<WorkerEnds<Task<C, K, V, S>, D>>,
    gathered: Gathered<'a, C, K, V, S, B>,
}

impl<'a, C, K, V, S, B, D> Parted<'a, C, K, V, S, B, D>
where
    C: OfView<K, V> + OfBulk<B>,
    K: PathKey,
    S: Slots<K, V>,
    S::Key: Drop,
    S::Value: Drop,
    B: BulkIn<K, V, S>,
    D: Deques,
{
    // Puts the fields of one worker behind those of the others.
    fn add(&mut self, state: WorkerState<'a, C, K, V, S, B, D>) -> Result<(), NoMemory>
        ensures ends { OnOk result (self.new.ends.items ≡ self.old.ends.items ++ state.entry.ends ∷ []) }
        ensures partials { OnOk result (self.new.gathered.partials.items ≡ self.old.gathered.partials.items ++ state.entry.partial ∷ []) }
        ensures leftover { OnOk result (self.new.gathered.leftover.items ≡ self.old.gathered.leftover.items ++ state.entry.leftover.items) }
    {
        let WorkerState {
            ends,
            partial,
            leftover,
        } = state;
        let ends = self.ends.push(ends);
        let gathered = self.gathered.add(partial, leftover);
        match (ends, gathered) {
            (Ok(()), Ok(())) => Ok(()),
            _ => Err(NoMemory),
        }
    }

    // Drops all of them. Where a loop returns early, the drop of this type would be spelled out in the proof of the loop.
    fn discard(self) {}
}

// Takes the workers apart, and adds their balances.
fn part_all<'a, C, K, V, S, B, D, G>(
    alloc: Global,
    gate: &G,
    done: Vec<Result<IdleWorker<'a, C, K, V, S, B, D>, NoMemory>>,
) -> Result<Parted<'a, C, K, V, S, B, D>, NoMemory>
where
    C: OfView<K, V> + OfBulk<B>,
    K: PathKey,
    S: Slots<K, V>,
    S::Key: Drop,
    S::Value: Drop,
    B: BulkIn<K, V, S>,
    D: Deques,
    G: Gate,
    requires places { (i : ℕ) (d : _) → i < length done.items → IfOk (slice_index_or done.items i d) (λ w. w.state.ends.place ≡ i) }
    requires asked { (i : ℕ) (d : _) → i < length done.items → IfOk (slice_index_or done.items i d) (λ w. All (G.asked gate.now i) w.state.partial) }
    ensures len { IfOk result (λ r. (length r.ends.items ≡ length done.entry.items) × (length r.gathered.partials.items ≡ length done.entry.items)) }
    ensures places { IfOk result (λ r. (i : ℕ) (d : _) → i < length r.ends.items → (slice_index_or r.ends.items i d).place ≡ i) }
    ensures balance { IfOk result (λ r. (p : ℕ) → sum_by (λ e. cover (given whole e.place) p) r.ends.items + sum_by (λ e. cover e.taken p) r.ends.items ≡ sum_by (λ t. cover t p) r.gathered.partials.items + sum_by (λ e. cover e.pushed p) r.ends.items + cover r.gathered.leftover.items p) }
    ensures asked { IfOk result (λ r. EachAsked (G.asked gate.now) r.gathered.partials.items) }
{
    let _ = gate;
    let mut parted = Parted {
        ends: Vec::new(alloc),
        gathered: Gathered::new(alloc),
    };
    for one in done {
        let Ok(IdleWorker { state }) = one else {
            parted.discard();
            return Err(NoMemory);
        };
        let Ok(()) = parted.add(state) else {
            parted.discard();
            return Err(NoMemory);
        };
    }
    Ok(parted)
}

/// Closes the deques: what was given is what was worked and what is left over, each position as often.
pub fn gather<'a, C, K, V, S, B, D, G>(
    alloc: Global,
    gate: &G,
    done: Vec<Result<IdleWorker<'a, C, K, V, S, B, D>, NoMemory>>,
) -> Result<Gathered<'a, C, K, V, S, B>, NoMemory>
where
    C: OfView<K, V> + OfBulk<B>,
    K: PathKey,
    S: Slots<K, V>,
    S::Key: Drop,
    S::Value: Drop,
    B: BulkIn<K, V, S>,
    D: Deques,
    G: Gate,
    requires count { (length done.items ≡ D.count) × (0 < D.count) }
    requires places { (i : ℕ) (d : _) → i < length done.items → IfOk (slice_index_or done.items i d) (λ w. w.state.ends.place ≡ i) }
    requires asked { (i : ℕ) (d : _) → i < length done.items → IfOk (slice_index_or done.items i d) (λ w. All (G.asked gate.now i) w.state.partial) }
    ensures len { IfOk result (λ r. length r.partials.items ≡ length done.entry.items) }
    ensures balance { IfOk result (λ r. (p : ℕ) → cover (given whole 0) p ≡ sum_by (λ t. cover t p) r.partials.items + cover r.leftover.items p) }
    ensures asked { IfOk result (λ r. EachAsked (G.asked gate.now) r.partials.items) }
{
    let Parted { ends, mut gathered } = part_all(alloc, gate, done)?;
    let mut rest = close(alloc, ends)?;
    gathered.leftover.append(&mut rest)?;
    Ok(gathered)
}
