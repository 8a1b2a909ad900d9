//! What workers may do.
ghost use Rattle.std.specs.Prelude.{◌≡◌, ◌<◌, All, IfOk, OnErr, false, length, nat_le};
ghost use Rattle.std.specs.List.{list_any};
ghost use Rattle.worker_states.specs.Boards.{named_by};
ghost use Rattle.worker_states.specs.WorkerValues.{IsJobOn};
ghost use Rattle.core_steps.specs.Moves.{MovesTo, move_of, moves_without_memory};
ghost use Rattle.worker_states.specs.Views.{move_result};
ghost use Rattle.versions.specs.Map.{Map};

use crate::board::{Board, work_on};
use crate::laws::law_of_jobs;
use combiner::Bulk;
use hash_path::PathKey;
use std::alloc::Global;
use trie_node::NoMemory;
use worker_states::Progress;

/// What a worker does on the board of a job.
#[derive(Clone, Copy, Debug, PartialEq, Eq)]
pub enum Move {
    /// It takes the newest piece of its queue.
    Take(u32),
    /// It takes the oldest piece of the other's queue.
    Steal(u32, u32),
    /// It cuts the piece that it holds.
    Split(u32),
    /// It works the piece that it holds.
    Work(u32),
}

impl Move {
    /// Whether the move names a worker whose number is `workers` or more.
    pub fn names_other(self, workers: u32) -> bool
        ensures { result ≡ list_any (λ w. nat_le workers w) (named_by (move_of self)) }
    {
        match self {
            Move::Take(worker) | Move::Split(worker) | Move::Work(worker) => worker >= workers,
            Move::Steal(worker, from) => worker >= workers || from >= workers,
        }
    }
}

/// A worker's move on the board of a job. After `NoMemory`, which no take and no steal returns, all is as before.
pub fn make_move<K: PathKey + Drop, V: Drop, B: Bulk<K, V>>(
    alloc: Global,
    bulk: &B,
    board: &mut Board<K, V, B::Part>,
    grain: u64,
    chosen: Move,
) -> Result<Progress, NoMemory>
    requires ready { B.ready bulk.now }
    requires named { All (λ w. w < length board.old) (named_by (move_of chosen)) }
    requires job { (m : Map K V) × IsJobOn K.cmp K.path_of (B.answers bulk.now) m board.old }
    ensures ok { IfOk result (λ progress. (m : Map K V) → IsJobOn K.cmp K.path_of (B.answers bulk.now) m board.old → MovesTo K.cmp K.path_of (B.answers bulk.now) (B.decides bulk.now) m grain board.old (move_of chosen) (move_result progress) board.new) }
    ensures err { OnErr result (board.new ≡ board.old) }
    ensures memory { OnErr result (moves_without_memory (move_of chosen) ≡ false) }
{
    law_of_jobs(bulk);
    match chosen {
        Move::Take(worker) => Ok(board.take(worker)),
        Move::Steal(worker, from) => Ok(board.steal(worker, from)),
        Move::Split(worker) => board.split(worker, grain),
        Move::Work(worker) => work_on(alloc, bulk, board, worker),
    }
}
