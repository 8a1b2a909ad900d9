//! Laws of the core. Their functions do nothing: each contract is the law.
ghost use Rattle.std.specs.Prelude.{◌≤◌, ℕ};
ghost use Rattle.handles.specs.declared.limits.Limits.{Limits};
ghost use Rattle.worker_states.specs.Boards.{first_board};
ghost use Rattle.core_steps.specs.Cores.{new_core};
ghost use Rattle.core_steps.specs.Invariants.{IsBoard, IsCore};
ghost use Rattle.core_steps.specs.Laws.{MovesKeepBoards, MovesKeepJobs, NoneWorkedTwice, RunsAreMachineRuns, StepsKeepCores, TileWhereNoneWaits, TiledIsWhole};
ghost use Rattle.core_steps.specs.Queries.{asked, divided};

use bulk_work::Asks;
use combiner::Bulk;
use hash_path::PathKey;
use iter::parts_follow_intervals;
use splitter::law_of_cuts;

/// What the clients see of a run of the core is a run of the machine of handles, whatever workers do meanwhile.
pub fn law_of_runs<K: PathKey, V: Eq, Q: Asks<K, V>>()
    ensures { RunsAreMachineRuns (asked K.cmp V.eq Q.target_of Q.answered) (divided K.path_of Q.decides) }
{}

/// A new core is one, and every step of clients and workers keeps that: each open job has a board whose intervals,
/// those that wait, those that are held and those that were worked, tile all positions.
pub fn law_of_cores<K: PathKey, V: Eq, Q: Asks<K, V>>()
    ensures new { (limits : Limits) (workers grain : ℕ) → 1 ≤ workers → IsCore {K = K} {V = V} {Q = Q} (new_core limits workers grain) }
    ensures kept { StepsKeepCores (asked K.cmp V.eq Q.target_of Q.answered) (divided K.path_of Q.decides) }
{
    law_of_cuts::<K, V>();
}

/// No position of a job is worked twice in a run of the core.
pub fn law_of_coverings<K: PathKey, V: Eq, Q: Asks<K, V>>()
    ensures { NoneWorkedTwice (asked K.cmp V.eq Q.target_of Q.answered) (divided K.path_of Q.decides) }
{
    law_of_cuts::<K, V>();
}

/// The worked intervals of an open job tile all positions exactly where nothing waits and nothing is held, and their
/// pairs are then the whole map that the job froze.
pub fn law_of_tilings<K: PathKey, V, Q: Asks<K, V>>()
    ensures tile { TileWhereNoneWaits K V Q }
    ensures whole { TiledIsWhole V Q K.path_of }
{
    parts_follow_intervals::<K, V>();
}

/// The intervals of a job's first board tile all positions, none of them is empty, and every move keeps that.
pub fn law_of_boards<K: PathKey, V>()
    ensures first { (workers : ℕ) → 1 ≤ workers → IsBoard workers (first_board workers) }
    ensures kept { MovesKeepBoards V K.path_of }
{
    law_of_cuts::<K, V>();
}

/// Each worker's move keeps what is true of the states of a job's workers on a map: the pieces are of the map, each
/// part answers what its worker has worked, and no two intervals share a position.
pub fn law_of_jobs<K: PathKey, V, B: Bulk<K, V>>(bulk: &B)
    ensures { MovesKeepJobs K.cmp K.path_of (B.answers bulk.now) (B.decides bulk.now) }
{
    let _ = bulk;
    law_of_cuts::<K, V>();
}
