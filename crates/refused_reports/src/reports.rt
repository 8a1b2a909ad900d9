//! The report of a crew.
ghost use Rattle.std.specs.Prelude.{◌≤◌, IfOk, map};
ghost use Rattle.task_pool.specs.Reports.{IsReport};

use combiner::Bulk;
use hash_path::PathKey;
use splitter::{MOST_GRAIN, MOST_WORKERS};
use std::alloc::Global;
use std::sync::Wait;
use std::thread::Threads;
use task_pool::{Crew, Gate, Report, run_crew};
use trie_node::NoMemory;
use versions::View;

/// Works the operation over the whole view by a crew.
pub fn reported<K, V, B, G, R>(
    rt: &R,
    alloc: Global,
    view: &View<K, V>,
    bulk: &B,
    crew: Crew,
    gate: &G,
) -> Result<Report<B::Part>, NoMemory>
where
    K: PathKey + Drop + Send + Sync,
    V: Drop + Send + Sync,
    B: Bulk<K, V> + Sync,
    B::Part: Send,
    G: Gate + Sync,
    R: Threads + Wait + Sync,
    requires least_workers { 1 ≤ crew.workers }
    requires most_workers { crew.workers ≤ MOST_WORKERS }
    requires least_grain { 1 ≤ crew.grain }
    requires most_grain { crew.grain ≤ MOST_GRAIN }
    requires ready { B.ready bulk.now }
    ensures { IfOk result (λ report. IsReport K.path_of (G.asked gate.now) (B.answers bulk.now) (B.decides bulk.now) view.now crew.grain crew.workers report.part (map (λ list. list.items) report.lists.items)) }
{
    run_crew(rt, alloc, view, bulk, crew, gate)
}
