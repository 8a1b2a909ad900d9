//! Each deque's owner gives each worker a thief's end.
ghost use Rattle.std.specs.Prelude.{◌≡◌, ◌-◌, ◌<◌, ◌≤◌, [], ℕ, IfOk, Some, length, slice_index_or, flat_map};
ghost use Rattle.crossbeam_deque.specs.Handles.{worker_deque, worker_view};
ghost use Rattle.ruled_deques.specs.Counts.{IsFresh, IsOpened, taken_through};
ghost use Rattle.ruled_deques.specs.EndsView.{given};
ghost use Rattle.ruled_deques.specs.Rule.{deque_view};

use crate::ends::{Deques, OwnEnd, StealEnd};
use crate::opening::MOST_DEQUES;
use crate::rule::Owner;
use crate::worker_ends::WorkerEnds;
use std::alloc::{AllocError, Global};
use std::marker::PhantomData;
use std::snapshot::Snapshot;

// A thief's end of each deque, through which nothing was taken.
#[derive(Drop)]
struct Bundle<T, D: Deques> {
    thefts: Vec<StealEnd<T, D>>,
    ghost full: { length thefts.items ≡ D.count },
    ghost unused: { flat_map (λ t. taken_through t.token) thefts.items ≡ [] },
}

// One share of each deque, of which each owner has `shares` yet.
fn share_each<T: Drop, D: Deques>(
    alloc: Global,
    owns: &mut Vec<OwnEnd<T, D>>,
    shares: usize,
    first: &Snapshot<T>,
) -> Result<Bundle<T, D>, AllocError>
    requires count { length owns.old.items ≡ D.count }
    requires some { 1 < shares }
    requires views { (i : ℕ) (d : _) → i < length owns.old.items → worker_view (slice_index_or owns.old.items i d).owner ≡ deque_view shares (given first.now.value (slice_index_or owns.old.items i d).place) [] }
    ensures len { length owns.new.items ≡ length owns.old.items }
    ensures views { IfOk result (λ _. (i : ℕ) (d : _) → i < length owns.new.items → worker_view (slice_index_or owns.new.items i d).owner ≡ deque_view (shares - 1) (given first.now.value (slice_index_or owns.new.items i d).place) []) }
    ensures places { (i : ℕ) (d : _) → i < length owns.old.items → (slice_index_or owns.new.items i d).place ≡ (slice_index_or owns.old.items i d).place }
{
    let mut thefts = Vec::new(alloc);
    for k in 0..owns.len() {
        let theft = owns[k].share()?;
        thefts.push(theft)?;
    }
    Ok(bundled(thefts))
}

fn bundled<T, D: Deques>(thefts: Vec<StealEnd<T, D>>) -> Bundle<T, D>
    requires full { length thefts.items ≡ D.count }
    requires unused { flat_map (λ t. taken_through t.token) thefts.items ≡ [] }
    ensures { result.thefts ≡ thefts }
{
    Bundle { thefts }
}

fn own_of<T, D: Deques>(place: usize, owner: Owner<T>) -> OwnEnd<T, D>
    requires fresh { IsFresh owner }
    requires tied { (Some (worker_deque owner) ≡ D.deque place) × (place < D.count) }
    ensures { (result.place ≡ place) × (result.owner ≡ owner) }
{
    OwnEnd {
        place,
        owner,
        deques: PhantomData,
    }
}

// The owners' ends under the name of their deques.
fn own_all<T: Drop, D: Deques>(
    alloc: Global,
    owners: Vec<Owner<T>>,
    first: &Snapshot<T>,
) -> Result<Vec<OwnEnd<T, D>>, AllocError>
    requires count { length owners.items ≡ D.count }
    requires each { (i : ℕ) (d : _) → i < length owners.items → IsOpened (D.deque i) (given first.now.value i) (slice_index_or owners.items i d) }
    ensures len { IfOk result (λ all. length all.items ≡ length owners.items) }
    ensures each { IfOk result (λ all. (i : ℕ) (d : _) → i < length all.items → ((slice_index_or all.items i d).place ≡ i) × (worker_view (slice_index_or all.items i d).owner ≡ deque_view 17 (given first.now.value (slice_index_or all.items i d).place) [])) }
{
    let mut owns = Vec::new(alloc);
    for owner in owners {
        let own = own_of::<T, D>(owns.len(), owner);
        owns.push(own)?;
    }
    Ok(owns)
}

// The ends of the worker whose own deque is given.
fn ends_of<T: Drop, D: Deques>(
    own: OwnEnd<T, D>,
    bundle: Bundle<T, D>,
    _first: &Snapshot<T>,
) -> WorkerEnds<T, D>
    requires small { D.count ≤ MOST_DEQUES }
    requires view { worker_view own.owner ≡ deque_view (17 - D.count) (given _first.now.value own.place) [] }
    ensures { result ≡ record { place = own.place; pushed = given _first.now.value own.place; taken = [] } }
{
    let Bundle { thefts } = bundle;
    WorkerEnds::new(own, thefts)
}

/// The ends of each worker: the worker at a place owns the deque there, and may steal from all others.
///
/// `first` is the item that was pushed on the first deque.
pub fn share_out<T: Drop, D: Deques>(
    alloc: Global,
    owners: Vec<Owner<T>>,
    first: &Snapshot<T>,
) -> Result<Vec<WorkerEnds<T, D>>, AllocError>
    requires count { (length owners.items ≡ D.count) × (D.count ≤ MOST_DEQUES) }
    requires each { (i : ℕ) (d : _) → i < length owners.items → IsOpened (D.deque i) (given first.now.value i) (slice_index_or owners.items i d) }
    ensures len { IfOk result (λ all. length all.items ≡ length owners.items) }
    ensures each { IfOk result (λ all. (i : ℕ) (d : _) → i < length all.items → slice_index_or all.items i d ≡ record { place = i; pushed = given first.now.value i; taken = [] }) }
{
    let mut owns = own_all::<T, D>(alloc, owners, first)?;
    let n = owns.len();
    let mut bundles = Vec::new(alloc);
    for k in 0..n {
        let bundle = share_each(alloc, &mut owns, 17 - k, first)?;
        bundles.push(bundle)?;
    }
    pair_up(alloc, owns, bundles, first)
}

// Each owner's end with a bundle.
fn pair_up<T: Drop, D: Deques>(
    alloc: Global,
    owns: Vec<OwnEnd<T, D>>,
    mut bundles: Vec<Bundle<T, D>>,
    first: &Snapshot<T>,
) -> Result<Vec<WorkerEnds<T, D>>, AllocError>
    requires count { (length owns.items ≡ D.count) × (length bundles.items ≡ D.count) × (D.count ≤ MOST_DEQUES) }
    requires each { (i : ℕ) (d : _) → i < length owns.items → ((slice_index_or owns.items i d).place ≡ i) × (worker_view (slice_index_or owns.items i d).owner ≡ deque_view (17 - D.count) (given first.now.value (slice_index_or owns.items i d).place) []) }
    ensures len { IfOk result (λ all. length all.items ≡ length owns.items) }
    ensures each { IfOk result (λ all. (i : ℕ) (d : _) → i < length all.items → slice_index_or all.items i d ≡ record { place = i; pushed = given first.now.value i; taken = [] }) }
{
    let mut all = Vec::new(alloc);
    for own in owns {
        let Some(bundle) = bundles.pop() else {
            unreachable!()
        };
        all.push(ends_of(own, bundle, first))?;
    }
    Ok(all)
}
