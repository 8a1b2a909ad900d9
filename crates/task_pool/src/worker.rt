//! One worker of a crew.
ghost use Rattle.std.specs.Prelude.{◌≡◌, ◌+◌, ◌<◌, ◌^◌, ℕ, IfOk, None};
ghost use Rattle.iter.specs.Intervals.{cover, whole};
ghost use Rattle.ruled_deques.specs.EndsView.{given};
ghost use Rattle.splitter.specs.Cuts.{cut_point};
ghost use Rattle.task_pool.specs.Asked.{KeepsAsked};
ghost use Rattle.partial_results.specs.Worked.{once};

use crate::gate::Gate;
use crate::shared::Shared;
use combiner::BulkIn;
use hash_path::PathKey;
use partial_results::{OfBulk, OfView, Partial, Task};
use ruled_deques::{Deques, WorkerEnds};
use splitter::law_of_cuts;
use std::thread;
use trie_node::{NoMemory, Slots};

/// A worker's ends of the deques, its partial result, and the pieces that it leaves to the caller.
#[derive(Drop)]
pub struct WorkerState<
    'a,
    C: OfView<K, V> + OfBulk<B>,
    K: PathKey,
    V,
    S: Slots<K, V>,
    B: BulkIn<K, V, S>,
    D: Deques,
> {
    pub ends: WorkerEnds<Task<C, K, V, S>, D>,
    pub partial: Partial<'a, C, K, V, S, B>,
    pub leftover: Vec<Task<C, K, V, S>>,
}

/// A worker that holds no piece.
///
/// What it was given and what it has taken is what it has worked, pushed or left over, each position as often.
#[derive(Drop)]
pub struct IdleWorker<
    'a,
    C: OfView<K, V> + OfBulk<B>,
    K: PathKey,
    V,
    S: Slots<K, V>,
    B: BulkIn<K, V, S>,
    D: Deques,
> {
    pub state: WorkerState<'a, C, K, V, S, B, D>,
    pub ghost balance: { (p : ℕ) → cover (given whole state.ends.place) p + cover state.ends.taken p ≡ cover state.partial p + cover state.ends.pushed p + cover state.leftover.items p },
}

/// A piece that cannot be cut.
#[derive(Drop)]
struct Uncut<C: OfView<K, V>, K: PathKey, V, S: Slots<K, V>> {
    task: Task<C, K, V, S>,
    ghost whole: { cut_point K.path_of C.map task C.grain ≡ None },
}

impl<'a, C, K, V, S, B, D> WorkerState<'a, C, K, V, S, B, D>
where
    C: OfView<K, V> + OfBulk<B>,
    K: PathKey,
    S: Slots<K, V>,
    S::Key: Drop,
    S::Value: Drop,
    B: BulkIn<K, V, S>,
    D: Deques,
{
    // Cuts a piece down to the grain and works it. Upper halves wait in the worker's own deque.
    fn process<G: Gate>(
        mut self,
        shared: &Shared<'_, G>,
        task: Task<C, K, V, S>,
    ) -> Result<WorkerState<'a, C, K, V, S, B, D>, NoMemory>
        requires { shared.now.grain ≡ C.grain }
        ensures same { IfOk result (λ done. (done.ends.place ≡ self.entry.ends.place) × (done.ends.taken ≡ self.entry.ends.taken)) }
        ensures did { IfOk result (λ done. (p : ℕ) → cover done.partial p + cover done.ends.pushed p + cover done.leftover.items p ≡ cover self.entry.partial p + cover self.entry.ends.pushed p + cover self.entry.leftover.items p + once task p) }
        ensures asked { IfOk result (λ done. KeepsAsked (G.asked shared.now.gate.now) self.entry.ends.place self.entry.partial done.partial) }
    {
        law_of_cuts::<K, V>();
        match task.halves(shared.grain) {
            Err(task) => {
                drop(task);
                drop(self);
                Err(NoMemory)
            }
            Ok((lower, rest)) => match rest {
                None => self.work_or_leave(shared, Uncut { task: lower }),
                Some(upper) => {
                    shared.note_split();
                    match self.ends.push(upper) {
                        Ok(()) => self.process(shared, lower),
                        Err(upper) => match self.process(shared, lower) {
                            Ok(state) => state.process(shared, upper),
                            Err(NoMemory) => {
                                drop(upper);
                                Err(NoMemory)
                            }
                        },
                    }
                }
            },
        }
    }

    // Works a piece that cannot be cut, or leaves it to the caller where it shares a position with what was worked.
    fn work_or_leave<G: Gate>(
        self,
        shared: &Shared<'_, G>,
        uncut: Uncut<C, K, V, S>,
    ) -> Result<WorkerState<'a, C, K, V, S, B, D>, NoMemory>
        ensures same { IfOk result (λ done. done.ends ≡ self.entry.ends) }
        ensures did { IfOk result (λ done. (p : ℕ) → cover done.partial p + cover done.leftover.items p ≡ cover self.entry.partial p + cover self.entry.leftover.items p + once uncut.task p) }
        ensures asked { IfOk result (λ done. KeepsAsked (G.asked shared.now.gate.now) self.entry.ends.place self.entry.partial done.partial) }
    {
        let WorkerState {
            ends,
            partial,
            mut leftover,
        } = self;
        let task = uncut.task;
        shared.note_worked();
        if !partial.is_free(&task) {
            if let Err(back) = leftover.push(task) {
                drop(back);
                drop(ends);
                drop(partial);
                drop(leftover);
                return Err(NoMemory);
            }
            return Ok(WorkerState {
                ends,
                partial,
                leftover,
            });
        }
        let number = number_of(ends.place());
        shared.gate.before(number, task.lo(), task.hi());
        let Ok(partial) = partial.work(shared.alloc, task) else {
            drop(ends);
            drop(leftover);
            return Err(NoMemory);
        };
        Ok(WorkerState {
            ends,
            partial,
            leftover,
        })
    }
}

impl<'a, C, K, V, S, B, D> IdleWorker<'a, C, K, V, S, B, D>
where
    C: OfView<K, V> + OfBulk<B>,
    K: PathKey,
    S: Slots<K, V>,
    S::Key: Drop,
    S::Value: Drop,
    B: BulkIn<K, V, S>,
    D: Deques,
{
    /// Takes pieces and works them, until workers may stop or more than `patience` rounds have found no piece.
    pub fn run<G: Gate>(
        self,
        shared: &Shared<'_, G>,
    ) -> Result<IdleWorker<'a, C, K, V, S, B, D>, NoMemory>
        requires { shared.now.grain ≡ C.grain }
        ensures place { IfOk result (λ done. done.state.ends.place ≡ self.entry.state.ends.place) }
        ensures asked { IfOk result (λ done. KeepsAsked (G.asked shared.now.gate.now) self.entry.state.ends.place self.entry.state.partial done.state.partial) }
    {
        let IdleWorker { mut state } = self;
        let mut failed = 0u32;
        for _ in 0..u64::MAX {
            if shared.is_stopped() {
                break;
            }
            match state.ends.take() {
                Some(task) => {
                    state = state.process(shared, task)?;
                    if state.partial.is_settled() {
                        shared.stop();
                    }
                }
                None => {
                    if failed >= shared.patience {
                        break;
                    }
                    failed += 1;
                    thread::yield_now();
                }
            }
        }
        Ok(IdleWorker { state })
    }
}

// The number by which a gate knows the worker at a place.
fn number_of(place: usize) -> u32
    ensures { place < 2 ^ 32 → result ≡ place }
{
    u32::try_from(place).unwrap_or(u32::MAX)
}
