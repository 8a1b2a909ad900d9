//! What a core may be asked.
ghost use Rattle.std.specs.Prelude.{◌≡◌, IfOk};
ghost use Rattle.core_steps.specs.Steps.{asked_by};

use handles::Call;
use std::sync::Arc;
use trie_node::NoMemory;

/// One step of a client or of a worker. A worker's step names the job, then the worker.
#[derive(Drop)]
pub enum Step<K, V, Q> {
    /// A client makes the call.
    Call(Call<K, V>),
    /// A client views the handle's map.
    View(u32),
    /// A client asks the query of the handle's map as it stands now, which opens a job.
    Freeze(u32, Arc<Q>),
    /// A client collects the answer of the job, which closes it.
    Finish(u64),
    /// A client closes the job without an answer.
    Abandon(u64),
    /// The worker takes the newest piece of its queue.
    Take(u64, u32),
    /// The worker takes the oldest piece of the last worker's queue.
    Steal(u64, u32, u32),
    /// The worker cuts the piece that it holds.
    Split(u64, u32),
    /// The worker works the piece that it holds.
    Work(u64, u32),
}

impl<K: Drop, V: Drop, Q: Drop> Step<K, V, Q> {
    /// The same step, with the same key, values and query.
    pub fn try_clone(&self) -> Result<Step<K, V, Q>, NoMemory>
        ensures { IfOk result (λ step. asked_by step ≡ asked_by self.now) }
    {
        Ok(match self {
            Step::Call(call) => Step::Call(call.try_clone::<Q>()?),
            Step::View(handle) => Step::View(*handle),
            Step::Freeze(handle, query) => Step::Freeze(*handle, Arc::try_clone(query)?),
            Step::Finish(job) => Step::Finish(*job),
            Step::Abandon(job) => Step::Abandon(*job),
            Step::Take(job, worker) => Step::Take(*job, *worker),
            Step::Steal(job, worker, from) => Step::Steal(*job, *worker, *from),
            Step::Split(job, worker) => Step::Split(*job, *worker),
            Step::Work(job, worker) => Step::Work(*job, *worker),
        })
    }
}
