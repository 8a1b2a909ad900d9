//! How a worker works the piece that it holds.

ghost use Rattle.std.specs.Prelude.{◌≡◌, IfOk, OnErr};
ghost use Rattle.versions.specs.Map.{Map};
ghost use Rattle.worker_states.specs.WorkerValues.{CanWork, WorksHeld};
ghost use Rattle.worker_states.specs.Views.{move_result};

use crate::progress::Progress;
use crate::state::WorkerState;
use bulk_work::work;
use combiner::Bulk;
use hash_path::PathKey;
use iter::{Interval, parts_follow_intervals};
use std::alloc::Global;
use trie_node::NoMemory;

/// Works the piece that is held, if there is one, joins it to the part and lets it go. After `NoMemory` all is as
/// before.
pub fn work_held<K: PathKey + Drop, V: Drop, B: Bulk<K, V>>(
    alloc: Global,
    bulk: &B,
    worker_state: &mut WorkerState<K, V, B::Part>,
) -> Result<Progress, NoMemory>
    requires ready { B.ready bulk.now }
    requires map { (m : Map K V) × CanWork K.cmp K.path_of (B.answers bulk.now) m worker_state.old }
    ensures ok { IfOk result (λ progress. (m : Map K V) → CanWork K.cmp K.path_of (B.answers bulk.now) m worker_state.old → WorksHeld K.cmp K.path_of (B.answers bulk.now) m (B.decides bulk.now) worker_state.old worker_state.old.held (move_result progress) worker_state.new) }
    ensures err { OnErr result (worker_state.new ≡ worker_state.old) }
{
    parts_follow_intervals::<K, V>();
    let piece = match &worker_state.held {
        Some(piece) => piece,
        None => return Ok(Progress::Idle),
    };
    let made = work(alloc, piece, bulk)?;
    let joined = bulk.join(alloc, &worker_state.part, &made)?;
    let interval = Interval {
        lo: piece.lo(),
        hi: piece.hi(),
    };
    let settled = bulk.settled(&joined);
    let progress = Progress::Worked(interval.lo, interval.hi, piece.len(), settled);
    worker_state.worked.push(interval)?;
    worker_state.part = joined;
    worker_state.held = None;
    Ok(progress)
}
