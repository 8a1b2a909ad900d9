//! What one thread has worked, and the part of it.
ghost use Rattle.std.specs.Prelude.{◌≡◌, ◌++◌, ◌∷◌, [], IfErr, IfOk, None, Some};
ghost use Rattle.std.specs.Bool.{OnTrue};
ghost use Rattle.iter.specs.Intervals.{AreApart, Tile, parts, whole};
ghost use Rattle.splitter.specs.Cuts.{cut_point};
ghost use Rattle.partial_results.specs.Worked.{Uncut};

use crate::runs::{add_run, is_free};
use crate::task::{OfView, Task};
use combiner::BulkIn;
use hash_path::PathKey;
use iter::{Interval, parts_follow_intervals};
use std::alloc::Global;
use std::marker::{Brand, Model, PhantomData};
use trie_node::{NoMemory, Slots};
use versions::View;

/// Names the operation of one call.
pub trait OfBulk<B> {
    ghost use Rattle.std.specs.Prelude.{Option};

    ghost bulk: { Option B };
}

impl<B> OfBulk<B> for Brand {
    ghost use Rattle.std.specs.Prelude.{None};

    ghost bulk = { None };
}

/// Intervals that were worked, and the part of their pairs. Contracts see the intervals.
#[derive(Drop)]
pub struct Partial<
    'a,
    C: OfView<K, V> + OfBulk<B>,
    K: PathKey,
    V,
    S: Slots<K, V>,
    B: BulkIn<K, V, S>,
> {
    bulk: &'a B,
    part: B::Part,
    worked: Vec<Interval>,
    runs: Vec<Interval>,
    call: PhantomData<(C, K, V)>,
}

impl<'a, C: OfView<K, V> + OfBulk<B>, K: PathKey, V, S: Slots<K, V>, B: BulkIn<K, V, S>> Model
    for Partial<'a, C, K, V, S, B> {
    ghost use Rattle.std.specs.Prelude.{List};
    ghost use Rattle.iter.specs.declared.interval.Interval.{Interval};
    ghost use Rattle.partial_results.specs.Worked.{IsPartial};

    ghost Value = { List Interval };

    ghost view = { λ t. t.worked.items };

    ghost invariant = { λ t. IsPartial K.cmp K.path_of B.answers B.ready C.map C.grain C.bulk t.bulk.now t.part t.worked.items t.runs.items };
}

impl<'a, C: OfView<K, V> + OfBulk<B>, K: PathKey, V, S: Slots<K, V>, B: BulkIn<K, V, S>> Partial<
    'a,
    C,
    K,
    V,
    S,
    B,
>
where
    S::Key: Drop,
    S::Value: Drop,
{
    /// Nothing is worked yet.
    pub fn new(
        alloc: Global,
        view: &View<K, V, S>,
        bulk: &'a B,
    ) -> Result<Partial<'a, C, K, V, S, B>, NoMemory>
        requires view { view.now ≡ C.map }
        requires bulk { Some bulk.now ≡ C.bulk }
        requires ready { B.ready bulk.now }
        ensures { IfOk result (λ partial. partial ≡ []) }
    {
        parts_follow_intervals::<K, V>();
        let _pairs = view.len();
        let part = bulk.unit(alloc)?;
        Ok(Partial {
            bulk,
            part,
            worked: Vec::new(alloc),
            runs: Vec::new(alloc),
            call: PhantomData,
        })
    }

    /// Whether a piece shares no position with what was worked.
    pub fn is_free(&self, task: &Task<C, K, V, S>) -> bool
        ensures { OnTrue result (AreApart (self.now ++ task.now ∷ [])) }
    {
        let interval = Interval {
            lo: task.lo(),
            hi: task.hi(),
        };
        is_free(&self.runs, interval)
    }

    /// Works a piece that cannot be cut and shares no position with what was worked.
    pub fn work(
        self,
        alloc: Global,
        task: Task<C, K, V, S>,
    ) -> Result<Partial<'a, C, K, V, S, B>, NoMemory>
        requires apart { AreApart (self ++ task ∷ []) }
        requires uncut { cut_point K.path_of C.map task C.grain ≡ None }
        ensures { IfOk result (λ partial. partial ≡ self.entry ++ task ∷ []) }
    {
        parts_follow_intervals::<K, V>();
        let Partial {
            bulk,
            part,
            mut worked,
            mut runs,
            call,
        } = self;
        let interval = Interval {
            lo: task.lo(),
            hi: task.hi(),
        };
        let made = task.work_into(alloc, bulk, part);
        drop(task);
        let Ok(part) = made else {
            drop((worked, runs));
            return Err(NoMemory);
        };
        let Ok(()) = add_run(&mut runs, interval) else {
            drop((part, worked, runs));
            return Err(NoMemory);
        };
        let Ok(()) = worked.push(interval) else {
            drop((part, worked, runs));
            return Err(NoMemory);
        };
        Ok(Partial {
            bulk,
            part,
            worked,
            runs,
            call,
        })
    }

    /// What both have worked.
    pub fn merge(
        self,
        alloc: Global,
        other: Partial<'a, C, K, V, S, B>,
    ) -> Result<Partial<'a, C, K, V, S, B>, NoMemory>
        requires { AreApart (self ++ other) }
        ensures { IfOk result (λ partial. partial ≡ self.entry ++ other.entry) }
    {
        parts_follow_intervals::<K, V>();
        let Partial {
            bulk,
            part,
            mut worked,
            mut runs,
            call,
        } = self;
        let Partial {
            bulk: _,
            part: more,
            worked: mut also,
            runs: mut rest,
            call: _,
        } = other;
        let part = bulk.join(alloc, &part, &more)?;
        worked.append(&mut also)?;
        runs.append(&mut rest)?;
        Ok(Partial {
            bulk,
            part,
            worked,
            runs,
            call,
        })
    }

    /// The intervals that were worked, in their order.
    pub fn list(&self, alloc: Global) -> Result<Vec<Interval>, NoMemory>
        ensures { IfOk result (λ list. list.items ≡ self.now) }
    {
        Ok(Vec::from_slice(alloc, &self.worked)?)
    }

    /// What is true of the intervals of every partial.
    pub fn law(&self)
        ensures apart { AreApart self.now }
        ensures uncut { Uncut K.path_of C.map C.grain self.now }
    {
        let _ = &self.worked;
    }

    /// Whether the part is settled.
    pub fn is_settled(&self) -> bool {
        self.bulk.settled(&self.part)
    }

    /// The part, where it is settled: it answers the whole map then.
    pub fn settled_part(self) -> Result<B::Part, Partial<'a, C, K, V, S, B>>
        ensures ok { IfOk result (λ part. (bulk : B) → Some bulk ≡ C.bulk → B.answers bulk C.map part × B.decides bulk (parts K.path_of C.map self.entry) × B.decides bulk C.map) }
        ensures err { IfErr result (λ partial. partial ≡ self.entry) }
    {
        let Partial {
            bulk,
            part,
            worked,
            runs,
            call,
        } = self;
        if bulk.settled(&part) {
            return Ok(part);
        }
        Err(Partial {
            bulk,
            part,
            worked,
            runs,
            call,
        })
    }

    /// The part, where all positions were worked.
    pub fn whole_part(self) -> B::Part
        requires { Tile self whole }
        ensures { (bulk : B) → Some bulk ≡ C.bulk → B.answers bulk C.map result }
    {
        parts_follow_intervals::<K, V>();
        let Partial { part, .. } = self;
        part
    }
}
