//! What all workers have worked.
ghost use Rattle.std.specs.Prelude.{◌≡◌, ◌++◌, ◌∷◌, [], IfOk, OnOk, Some, map};
ghost use Rattle.iter.specs.Intervals.{AreApart};
ghost use Rattle.partial_results.specs.Worked.{all_of};

use crate::partial::{OfBulk, Partial};
use crate::task::{OfView, Task};
use combiner::BulkIn;
use hash_path::PathKey;
use iter::Interval;
use std::alloc::Global;
use trie_node::{NoMemory, Slots};
use versions::View;

/// The partial result of each worker, and the pieces that are left over.
#[derive(Drop)]
pub struct Gathered<
    'a,
    C: OfView<K, V> + OfBulk<B>,
    K: PathKey,
    V,
    S: Slots<K, V>,
    B: BulkIn<K, V, S>,
> {
    pub partials: Vec<Partial<'a, C, K, V, S, B>>,
    pub leftover: Vec<Task<C, K, V, S>>,
}

impl<'a, C: OfView<K, V> + OfBulk<B>, K: PathKey, V, S: Slots<K, V>, B: BulkIn<K, V, S>> Gathered<
    'a,
    C,
    K,
    V,
    S,
    B,
>
where
    S::Key: Drop,
    S::Value: Drop,
{
    /// Of no worker yet.
    pub fn new(alloc: Global) -> Gathered<'a, C, K, V, S, B>
        ensures partials { result.partials.items ≡ [] }
        ensures leftover { result.leftover.items ≡ [] }
    {
        Gathered {
            partials: Vec::new(alloc),
            leftover: Vec::new(alloc),
        }
    }

    /// Puts what one worker has worked, and the pieces that it leaves over, behind those of the others.
    pub fn add(
        &mut self,
        partial: Partial<'a, C, K, V, S, B>,
        leftover: Vec<Task<C, K, V, S>>,
    ) -> Result<(), NoMemory>
        ensures partials { OnOk result (self.new.partials.items ≡ self.old.partials.items ++ partial.entry ∷ []) }
        ensures leftover { OnOk result (self.new.leftover.items ≡ self.old.leftover.items ++ leftover.items) }
    {
        let mut rest = leftover;
        let partials = self.partials.push(partial);
        let leftover = self.leftover.append(&mut rest);
        drop(rest);
        match (partials, leftover) {
            (Ok(()), Ok(())) => Ok(()),
            _ => Err(NoMemory),
        }
    }
}

/// All that was worked, and the list of each worker.
pub fn merge_all<'a, C, K, V, S, B>(
    alloc: Global,
    view: &View<K, V, S>,
    bulk: &'a B,
    partials: Vec<Partial<'a, C, K, V, S, B>>,
) -> Result<(Partial<'a, C, K, V, S, B>, Vec<Vec<Interval>>), NoMemory>
where
    C: OfView<K, V> + OfBulk<B>,
    K: PathKey,
    S: Slots<K, V>,
    S::Key: Drop,
    S::Value: Drop,
    B: BulkIn<K, V, S>,
    requires view { view.now ≡ C.map }
    requires bulk { Some bulk.now ≡ C.bulk }
    requires ready { B.ready bulk.now }
    requires apart { AreApart (all_of partials.items) }
    ensures all { IfOk result (λ both. both.0 ≡ all_of partials.entry.items) }
    ensures lists { IfOk result (λ both. map (λ list. list.items) both.1.items ≡ partials.entry.items) }
{
    let Ok(mut all) = Partial::new(alloc, view, bulk) else {
        drop(partials);
        return Err(NoMemory);
    };
    let mut lists = Vec::new(alloc);
    for partial in partials {
        let Ok(more) = merge_one(alloc, all, &mut lists, partial) else {
            drop(lists);
            return Err(NoMemory);
        };
        all = more;
    }
    Ok((all, lists))
}

// What was worked with what one more worker has worked, whose list is added to the others.
fn merge_one<'a, C, K, V, S, B>(
    alloc: Global,
    all: Partial<'a, C, K, V, S, B>,
    lists: &mut Vec<Vec<Interval>>,
    partial: Partial<'a, C, K, V, S, B>,
) -> Result<Partial<'a, C, K, V, S, B>, NoMemory>
where
    C: OfView<K, V> + OfBulk<B>,
    K: PathKey,
    S: Slots<K, V>,
    S::Key: Drop,
    S::Value: Drop,
    B: BulkIn<K, V, S>,
    requires { AreApart (all ++ partial) }
    ensures all { IfOk result (λ more. more ≡ all.entry ++ partial.entry) }
    ensures lists { OnOk result (map (λ list. list.items) lists.new.items ≡ map (λ list. list.items) lists.old.items ++ partial.entry ∷ []) }
{
    let Ok(list) = partial.list(alloc) else {
        drop((all, partial));
        return Err(NoMemory);
    };
    let Ok(()) = lists.push(list) else {
        drop((all, partial));
        return Err(NoMemory);
    };
    all.merge(alloc, partial)
}
