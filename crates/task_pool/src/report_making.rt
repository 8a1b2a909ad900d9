//! The making of a report.
ghost use Rattle.std.specs.Prelude.{◌≡◌, ◌≤◌, ◌++◌, ◌∷◌, [], ℕ, All, IfOk, List, Some, length, map};
ghost use Rattle.iter.specs.Intervals.{AreApart, Tile, cover, whole};
ghost use Rattle.iter.specs.declared.interval.Interval.{Interval};
ghost use Rattle.task_pool.specs.Asked.{EachAsked};
ghost use Rattle.partial_results.specs.Worked.{all_of};
ghost use Rattle.task_pool.specs.Reports.{IsReport};

use crate::gate::Gate;
use crate::report::Report;
use crate::sequential::work_leftovers;
use crate::shared::Shared;
use combiner::BulkIn;
use hash_path::PathKey;
use iter::Interval;
use partial_results::{Gathered, OfBulk, OfView, Partial, Task, merge_all};
use std::alloc::Global;
use trie_node::{NoMemory, Slots};
use versions::View;

// The report of what the workers have worked, and of what the caller works of the rest.
pub(crate) fn make_report<'a, C, K, V, S, B, G>(
    shared: &Shared<'_, G>,
    view: &View<K, V, S>,
    bulk: &'a B,
    workers: u32,
    gathered: Gathered<'a, C, K, V, S, B>,
) -> Result<Report<B::Part>, NoMemory>
where
    C: OfView<K, V> + OfBulk<B>,
    K: PathKey,
    S: Slots<K, V>,
    S::Key: Drop,
    S::Value: Drop,
    B: BulkIn<K, V, S>,
    G: Gate,
    requires grain { shared.now.grain ≡ C.grain }
    requires view { view.now ≡ C.map }
    requires bulk { Some bulk.now ≡ C.bulk }
    requires ready { B.ready bulk.now }
    requires partials { length gathered.partials.items ≤ workers }
    requires tile { Tile (all_of gathered.partials.items ++ gathered.leftover.items) whole }
    requires asked { EachAsked (G.asked shared.now.gate.now) gathered.partials.items }
    ensures { IfOk result (λ report. IsReport K.path_of (G.asked shared.now.gate.now) (B.answers bulk.now) (B.decides bulk.now) C.map C.grain workers report.part (map (λ list. list.items) report.lists.items)) }
{
    let Gathered { partials, leftover } = gathered;
    let Ok((all, lists)) = merge_padded(shared.alloc, view, bulk, workers, partials) else {
        drop(leftover);
        return Err(NoMemory);
    };
    all.law();
    match all.settled_part() {
        Ok(part) => {
            drop(leftover);
            let report = report_with(part, lists, Vec::new(shared.alloc))?;
            Ok(report)
        }
        Err(all) => report_of_rest(shared, view, bulk, workers, all, lists, leftover),
    }
}

// All that was worked, and a list for each worker: one of nothing for each that was not started.
fn merge_padded<'a, C, K, V, S, B>(
    alloc: Global,
    view: &View<K, V, S>,
    bulk: &'a B,
    workers: u32,
    partials: Vec<Partial<'a, C, K, V, S, B>>,
) -> Result<(Partial<'a, C, K, V, S, B>, Vec<Vec<Interval>>), NoMemory>
where
    C: OfView<K, V> + OfBulk<B>,
    K: PathKey,
    S: Slots<K, V>,
    S::Key: Drop,
    S::Value: Drop,
    B: BulkIn<K, V, S>,
    requires view { view.now ≡ C.map }
    requires bulk { Some bulk.now ≡ C.bulk }
    requires ready { B.ready bulk.now }
    requires apart { AreApart (all_of partials.items) }
    requires few { length partials.items ≤ workers }
    ensures all { IfOk result (λ both. both.0 ≡ all_of partials.entry.items) }
    ensures lists { IfOk result (λ both. all_of (map (λ list. list.items) both.1.items) ≡ both.0) }
    ensures count { IfOk result (λ both. length both.1.items ≡ workers) }
    ensures behind { IfOk result (λ both. (rest : List (List Interval)) × (all_of rest ≡ []) × (map (λ list. list.items) both.1.items ≡ partials.entry.items ++ rest)) }
{
    let Ok(mut rest) = empty_lists(alloc, (workers as usize).saturating_sub(partials.len())) else {
        drop(partials);
        return Err(NoMemory);
    };
    let Ok((all, mut lists)) = merge_all(alloc, view, bulk, partials) else {
        drop(rest);
        return Err(NoMemory);
    };
    let padded = lists.append(&mut rest);
    drop(rest);
    let Ok(()) = padded else {
        drop(all);
        drop(lists);
        return Err(NoMemory);
    };
    Ok((all, lists))
}

// The report where the workers' part is not settled: the caller works the rest.
fn report_of_rest<'a, C, K, V, S, B, G>(
    shared: &Shared<'_, G>,
    view: &View<K, V, S>,
    bulk: &'a B,
    workers: u32,
    all: Partial<'a, C, K, V, S, B>,
    lists: Vec<Vec<Interval>>,
    leftover: Vec<Task<C, K, V, S>>,
) -> Result<Report<B::Part>, NoMemory>
where
    C: OfView<K, V> + OfBulk<B>,
    K: PathKey,
    S: Slots<K, V>,
    S::Key: Drop,
    S::Value: Drop,
    B: BulkIn<K, V, S>,
    G: Gate,
    requires grain { shared.now.grain ≡ C.grain }
    requires view { view.now ≡ C.map }
    requires bulk { Some bulk.now ≡ C.bulk }
    requires ready { B.ready bulk.now }
    requires lists { all_of (map (λ list. list.items) lists.items) ≡ all }
    requires count { length lists.items ≡ workers }
    requires tile { Tile (all ++ leftover.items) whole }
    requires asked { EachAsked (G.asked shared.now.gate.now) (map (λ list. list.items) lists.items) }
    ensures { IfOk result (λ report. IsReport K.path_of (G.asked shared.now.gate.now) (B.answers bulk.now) (B.decides bulk.now) C.map C.grain workers report.part (map (λ list. list.items) report.lists.items)) }
{
    let Ok((mine, list)) = work_rest(shared, view, bulk, workers, leftover) else {
        drop(all);
        drop(lists);
        return Err(NoMemory);
    };
    let Ok(all) = all.merge(shared.alloc, mine) else {
        drop(lists);
        drop(list);
        return Err(NoMemory);
    };
    all.law();
    let part = all.whole_part();
    let report = report_with(part, lists, list)?;
    Ok(report)
}

// What the caller works, and the list of it.
fn work_rest<'a, C, K, V, S, B, G>(
    shared: &Shared<'_, G>,
    view: &View<K, V, S>,
    bulk: &'a B,
    workers: u32,
    leftover: Vec<Task<C, K, V, S>>,
) -> Result<(Partial<'a, C, K, V, S, B>, Vec<Interval>), NoMemory>
where
    C: OfView<K, V> + OfBulk<B>,
    K: PathKey,
    S: Slots<K, V>,
    S::Key: Drop,
    S::Value: Drop,
    B: BulkIn<K, V, S>,
    G: Gate,
    requires grain { shared.now.grain ≡ C.grain }
    requires view { view.now ≡ C.map }
    requires bulk { Some bulk.now ≡ C.bulk }
    requires ready { B.ready bulk.now }
    requires apart { AreApart leftover.items }
    ensures mine { IfOk result (λ both. (p : ℕ) → cover both.0 p ≡ cover leftover.items p) }
    ensures list { IfOk result (λ both. both.1.items ≡ both.0) }
    ensures asked { IfOk result (λ both. All (G.asked shared.now.gate.now workers) both.1.items) }
{
    let Ok(none) = Partial::new(shared.alloc, view, bulk) else {
        drop(leftover);
        return Err(NoMemory);
    };
    let mine = work_leftovers(shared, none, workers, leftover)?;
    let Ok(list) = mine.list(shared.alloc) else {
        drop(mine);
        return Err(NoMemory);
    };
    Ok((mine, list))
}

// The report of a part, with one list more.
pub(crate) fn report_with<P: Drop>(
    part: P,
    mut lists: Vec<Vec<Interval>>,
    last: Vec<Interval>,
) -> Result<Report<P>, NoMemory>
    ensures part { IfOk result (λ report. report.part ≡ part) }
    ensures lists { IfOk result (λ report. report.lists.items ≡ lists.items ++ last ∷ []) }
{
    let Ok(()) = lists.push(last) else {
        drop(part);
        drop(lists);
        return Err(NoMemory);
    };
    Ok(Report { part, lists })
}

// So many empty lists.
pub(crate) fn empty_lists(alloc: Global, count: usize) -> Result<Vec<Vec<Interval>>, NoMemory>
    ensures none { IfOk result (λ lists. all_of (map (λ list. list.items) lists.items) ≡ []) }
    ensures len { IfOk result (λ lists. length lists.items ≡ count) }
{
    let mut lists = Vec::new(alloc);
    for _ in 0..count {
        lists.push(Vec::new(alloc))?;
    }
    Ok(lists)
}
