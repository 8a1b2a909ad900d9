//! How the parts of a job's workers are put together.
ghost use Rattle.std.specs.Prelude.{◌≡◌, ◌↔◌, [], IfOk, OnErr, true};
ghost use Rattle.versions.specs.Map.{Map};
ghost use Rattle.iter.specs.Intervals.{parts};
ghost use Rattle.worker_states.specs.Boards.{all_worked};
ghost use Rattle.worker_states.specs.WorkerValues.{IsJobOn, board};
ghost use Rattle.core_steps.specs.Invariants.{waiting};
ghost use Rattle.core_steps.specs.Collected.{IsCollected, IsSettledPart, MayCollect, SomeDecided};

use crate::board::Board;
use combiner::Bulk;
use hash_path::PathKey;
use iter::parts_follow_intervals;
use std::alloc::Global;
use trie_node::NoMemory;
use worker_states::WorkerState;

/// A part that answers the whole map of a job: where nothing waits and nothing is held the parts of all workers,
/// joined; else the part of a worker whose own pairs decide. None where there is neither, whatever the memory.
pub fn collected<K: PathKey + Drop, V: Drop, B: Bulk<K, V>>(
    alloc: Global,
    bulk: &B,
    board: &Board<K, V, B::Part>,
) -> Result<Option<B::Part>, NoMemory>
    requires { (m : Map K V) × IsJobOn K.cmp K.path_of (B.answers bulk.now) m board.now }
    ensures part { IfOk result (λ part. (m : Map K V) → IsJobOn K.cmp K.path_of (B.answers bulk.now) m board.now → IsCollected K.path_of (B.answers bulk.now) (B.decides bulk.now) m board.now part) }
    ensures wanting { OnErr result ((m : Map K V) → IsJobOn K.cmp K.path_of (B.answers bulk.now) m board.now → MayCollect K.path_of (B.answers bulk.now) (B.decides bulk.now) m board.now) }
{
    let worker_states = board.worker_states();
    if is_done(worker_states) {
        return Ok(Some(joined(alloc, bulk, worker_states)?));
    }
    settled_part(alloc, bulk, worker_states)
}

// Whether nothing waits and nothing is held.
fn is_done<K: PathKey + Drop, V: Drop, P>(worker_states: &[WorkerState<K, V, P>]) -> bool
    ensures { result ≡ true ↔ (waiting (board worker_states.now) ≡ []) }
{
    for worker_state in worker_states {
        let free = worker_state.is_free();
        if !free {
            return false;
        }
        let count = worker_state.waiting();
        if count > 0 {
            return false;
        }
    }
    true
}

// The part of all that was worked: the parts of the workers, joined.
fn joined<K: PathKey + Drop, V: Drop, B: Bulk<K, V>>(
    alloc: Global,
    bulk: &B,
    worker_states: &[WorkerState<K, V, B::Part>],
) -> Result<B::Part, NoMemory>
    requires { (m : Map K V) × IsJobOn K.cmp K.path_of (B.answers bulk.now) m worker_states.now }
    ensures { IfOk result (λ part. (m : Map K V) → IsJobOn K.cmp K.path_of (B.answers bulk.now) m worker_states.now → B.answers bulk.now (parts K.path_of m (all_worked (board worker_states.now))) part) }
{
    parts_follow_intervals::<K, V>();
    let mut all = bulk.unit(alloc)?;
    for worker_state in worker_states {
        let next = bulk.join(alloc, &all, worker_state.part())?;
        all = next;
    }
    Ok(all)
}

// The part of a worker whose own pairs decide, joined with the part of no pairs; none where there is no such worker.
fn settled_part<K: PathKey + Drop, V: Drop, B: Bulk<K, V>>(
    alloc: Global,
    bulk: &B,
    worker_states: &[WorkerState<K, V, B::Part>],
) -> Result<Option<B::Part>, NoMemory>
    requires { (m : Map K V) × IsJobOn K.cmp K.path_of (B.answers bulk.now) m worker_states.now }
    ensures part { IfOk result (λ part. (m : Map K V) → IsJobOn K.cmp K.path_of (B.answers bulk.now) m worker_states.now → IsSettledPart K.path_of (B.answers bulk.now) (B.decides bulk.now) m worker_states.now part) }
    ensures wanting { OnErr result ((m : Map K V) → IsJobOn K.cmp K.path_of (B.answers bulk.now) m worker_states.now → SomeDecided K.path_of (B.answers bulk.now) (B.decides bulk.now) m worker_states.now) }
{
    parts_follow_intervals::<K, V>();
    for worker_state in worker_states {
        let part = worker_state.part();
        let decided = bulk.settled(part);
        if decided {
            let unit = bulk.unit(alloc)?;
            let both = bulk.join(alloc, &unit, part)?;
            return Ok(Some(both));
        }
    }
    Ok(None)
}
