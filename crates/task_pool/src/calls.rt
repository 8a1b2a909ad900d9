//! The call of a crew.
ghost use Rattle.std.specs.Prelude.{◌≡◌, ◌+◌, ◌<◌, ◌≤◌, ℕ, IfOk, Some, length, map, slice_index_or};
ghost use Rattle.std.specs.List.{sum_by};
ghost use Rattle.iter.specs.Intervals.{cover, whole};
ghost use Rattle.ruled_deques.specs.Counts.{IsOpened};
ghost use Rattle.ruled_deques.specs.EndsView.{given};
ghost use Rattle.task_pool.specs.Asked.{EachAsked};
ghost use Rattle.task_pool.specs.Reports.{IsReport};

use crate::crew::Crew;
use crate::gate::Gate;
use crate::gather::gather;
use crate::jobs::make_workers;
use crate::report::Report;
use crate::report_making::{empty_lists, make_report, report_with};
use crate::sequential::work_alone;
use crate::shared::Shared;
use crate::threads::run_workers;
use combiner::{Bulk, BulkIn, OnHandles};
use hash_path::PathKey;
use partial_results::{Gathered, OfBulk, OfView, Partial, Task};
use ruled_deques::{Deques, MOST_DEQUES, Owner, open_all, share_out};
use splitter::{MOST_GRAIN, MOST_WORKERS, whole};
use std::alloc::Global;
use std::marker::Brand;
use std::snapshot::Snapshot;
use std::sync::Wait;
use std::thread::Threads;
use trie_node::{NoMemory, Slots};
use versions::View;

/// Works an operation over a whole view by a crew of threads, which take pieces from one another.
pub fn run_crew<K, V, B, G, R>(
    rt: &R,
    alloc: Global,
    view: &View<K, V>,
    bulk: &B,
    crew: Crew,
    gate: &G,
) -> Result<Report<B::Part>, NoMemory>
where
    K: PathKey + Drop + Send + Sync,
    V: Drop + Send + Sync,
    B: Bulk<K, V> + Sync,
    B::Part: Send,
    G: Gate + Sync,
    R: Threads + Wait + Sync,
    requires least_workers { 1 ≤ crew.workers }
    requires most_workers { crew.workers ≤ MOST_WORKERS }
    requires least_grain { 1 ≤ crew.grain }
    requires most_grain { crew.grain ≤ MOST_GRAIN }
    requires ready { B.ready bulk.now }
    ensures { IfOk result (λ report. IsReport K.path_of (G.asked gate.now) (B.answers bulk.now) (B.decides bulk.now) view.now crew.grain crew.workers report.part (map (λ list. list.items) report.lists.items)) }
{
    run_crew_in(rt, alloc, view, &OnHandles { bulk }, crew, gate)
}

/// `run_crew` over any storage: works an operation over a whole view by a crew of threads, which take pieces from one another.
pub fn run_crew_in<K, V, S, B, G, R>(
    rt: &R,
    alloc: Global,
    view: &View<K, V, S>,
    bulk: &B,
    crew: Crew,
    gate: &G,
) -> Result<Report<B::Part>, NoMemory>
where
    K: PathKey + Send + Sync,
    V: Send + Sync,
    S: Slots<K, V> + Send + Sync,
    S::Key: Drop + Send + Sync,
    S::Value: Drop + Send + Sync,
    B: BulkIn<K, V, S> + Sync,
    B::Part: Send,
    G: Gate + Sync,
    R: Threads + Wait + Sync,
    requires least_workers { 1 ≤ crew.workers }
    requires most_workers { crew.workers ≤ MOST_WORKERS }
    requires least_grain { 1 ≤ crew.grain }
    requires most_grain { crew.grain ≤ MOST_GRAIN }
    requires ready { B.ready bulk.now }
    ensures { IfOk result (λ report. IsReport K.path_of (G.asked gate.now) (B.answers bulk.now) (B.decides bulk.now) view.now crew.grain crew.workers report.part (map (λ list. list.items) report.lists.items)) }
{
    run_branded::<Brand, K, V, S, B, G, R>(rt, alloc, view, bulk, crew, gate)
}

// The call under the names of its map and of its operation.
fn run_branded<C, K, V, S, B, G, R>(
    rt: &R,
    alloc: Global,
    view: &View<K, V, S>,
    bulk: &B,
    crew: Crew,
    gate: &G,
) -> Result<Report<B::Part>, NoMemory>
where
    C: OfView<K, V> + OfBulk<B> + Send + Sync,
    K: PathKey + Send + Sync,
    V: Send + Sync,
    S: Slots<K, V> + Send + Sync,
    S::Key: Drop + Send + Sync,
    S::Value: Drop + Send + Sync,
    B: BulkIn<K, V, S> + Sync,
    B::Part: Send,
    G: Gate + Sync,
    R: Threads + Wait + Sync,
    requires least_workers { 1 ≤ crew.workers }
    requires workers { crew.workers ≤ MOST_WORKERS }
    requires least_grain { 1 ≤ crew.grain }
    requires grain { crew.grain ≡ C.grain }
    requires view { view.now ≡ C.map }
    requires bulk { Some bulk.now ≡ C.bulk }
    requires ready { B.ready bulk.now }
    ensures { IfOk result (λ report. IsReport K.path_of (G.asked gate.now) (B.answers bulk.now) (B.decides bulk.now) C.map C.grain crew.workers report.part (map (λ list. list.items) report.lists.items)) }
{
    let pairs = view.len();
    let shared = Shared::new(alloc, crew, pairs, gate);
    if pairs <= crew.grain {
        return run_sequential::<C, K, V, S, B, G>(&shared, view, bulk, crew.workers);
    }
    run_started::<C, K, V, S, B, G, R>(rt, &shared, view, bulk, crew.workers)
}

// The report of a call whose workers are started.
fn run_started<C, K, V, S, B, G, R>(
    rt: &R,
    shared: &Shared<'_, G>,
    view: &View<K, V, S>,
    bulk: &B,
    workers: u32,
) -> Result<Report<B::Part>, NoMemory>
where
    C: OfView<K, V> + OfBulk<B> + Send + Sync,
    K: PathKey + Send + Sync,
    V: Send + Sync,
    S: Slots<K, V> + Send + Sync,
    S::Key: Drop + Send + Sync,
    S::Value: Drop + Send + Sync,
    B: BulkIn<K, V, S> + Sync,
    B::Part: Send,
    G: Gate + Sync,
    R: Threads + Wait + Sync,
    requires least { 1 ≤ shared.now.started }
    requires most { shared.now.started ≤ workers }
    requires workers { workers ≤ MOST_WORKERS }
    requires grain { shared.now.grain ≡ C.grain }
    requires view { view.now ≡ C.map }
    requires bulk { Some bulk.now ≡ C.bulk }
    requires ready { B.ready bulk.now }
    ensures { IfOk result (λ report. IsReport K.path_of (G.asked shared.now.gate.now) (B.answers bulk.now) (B.decides bulk.now) C.map C.grain workers report.part (map (λ list. list.items) report.lists.items)) }
{
    let alloc = shared.alloc;
    let task = Task::<C, K, V, S>::new(whole(alloc, view.try_clone()?));
    let first = Snapshot::of(&task);
    let Ok(owners) = open_all(alloc, task, shared.started as usize) else {
        drop(first);
        return Err(NoMemory);
    };
    let made = run_parallel::<C, K, V, S, B, Brand, G, R>(rt, shared, view, bulk, owners, &first);
    drop(first);
    let gathered = made?;
    make_report(shared, view, bulk, workers, gathered)
}

// What the workers have worked of what their first deque was given, and what is left over.
fn run_parallel<'a, C, K, V, S, B, D, G, R>(
    rt: &R,
    shared: &Shared<'_, G>,
    view: &View<K, V, S>,
    bulk: &'a B,
    owners: Vec<Owner<Task<C, K, V, S>>>,
    first: &Snapshot<Task<C, K, V, S>>,
) -> Result<Gathered<'a, C, K, V, S, B>, NoMemory>
where
    C: OfView<K, V> + OfBulk<B> + Send + Sync,
    K: PathKey + Send + Sync,
    V: Send + Sync,
    S: Slots<K, V> + Send + Sync,
    S::Key: Drop + Send + Sync,
    S::Value: Drop + Send + Sync,
    B: BulkIn<K, V, S> + Sync,
    B::Part: Send,
    D: Deques + Send + Sync,
    G: Gate + Sync,
    R: Threads + Wait + Sync,
    requires grain { shared.now.grain ≡ C.grain }
    requires view { view.now ≡ C.map }
    requires bulk { Some bulk.now ≡ C.bulk }
    requires ready { B.ready bulk.now }
    requires first { first.now.value ≡ whole }
    requires count { (length owners.items ≡ D.count) × (0 < D.count) × (D.count ≤ MOST_DEQUES) }
    requires each { (i : ℕ) (d : _) → i < length owners.items → IsOpened (D.deque i) (given whole i) (slice_index_or owners.items i d) }
    ensures len { IfOk result (λ r. length r.partials.items ≡ length owners.items) }
    ensures balance { IfOk result (λ r. (p : ℕ) → cover (given whole 0) p ≡ sum_by (λ t. cover t p) r.partials.items + cover r.leftover.items p) }
    ensures asked { IfOk result (λ r. EachAsked (G.asked shared.now.gate.now) r.partials.items) }
{
    let all = share_out::<Task<C, K, V, S>, D>(shared.alloc, owners, first)?;
    let workers = make_workers(shared.alloc, view, bulk, all)?;
    let done = run_workers(rt, shared, workers)?;
    gather(shared.alloc, shared.gate, done)
}

// The report of a caller that works alone.
fn run_sequential<C, K, V, S, B, G>(
    shared: &Shared<'_, G>,
    view: &View<K, V, S>,
    bulk: &B,
    workers: u32,
) -> Result<Report<B::Part>, NoMemory>
where
    C: OfView<K, V> + OfBulk<B>,
    K: PathKey,
    S: Slots<K, V>,
    S::Key: Drop,
    S::Value: Drop,
    B: BulkIn<K, V, S>,
    G: Gate,
    requires grain { shared.now.grain ≡ C.grain }
    requires view { view.now ≡ C.map }
    requires bulk { Some bulk.now ≡ C.bulk }
    requires ready { B.ready bulk.now }
    ensures { IfOk result (λ report. IsReport K.path_of (G.asked shared.now.gate.now) (B.answers bulk.now) (B.decides bulk.now) C.map C.grain workers report.part (map (λ list. list.items) report.lists.items)) }
{
    let alloc = shared.alloc;
    let task = Task::new(whole(alloc, view.try_clone()?));
    let Ok(none) = Partial::<C, K, V, S, B>::new(alloc, view, bulk) else {
        drop(task);
        return Err(NoMemory);
    };
    let all = work_alone(shared, none, workers, task)?;
    let Ok(list) = all.list(alloc) else {
        drop(all);
        return Err(NoMemory);
    };
    let Ok(lists) = empty_lists(alloc, workers as usize) else {
        drop(all);
        drop(list);
        return Err(NoMemory);
    };
    all.law();
    let part = all.whole_part();
    let report = report_with(part, lists, list)?;
    Ok(report)
}
