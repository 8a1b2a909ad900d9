//! What is left in the deques of workers that have ended.
ghost use Rattle.std.specs.Prelude.{◌≡◌, ◌+◌, ◌*◌, ◌<◌, ℕ, IfOk, length, slice_index_or};
ghost use Rattle.std.specs.List.{sum_by};
ghost use Rattle.crossbeam_deque.specs.Handles.{worker_view};
ghost use Rattle.ruled_deques.specs.Counts.{owner_pushed, owner_shares, owner_taken, token_taken};
ghost use Rattle.ruled_deques.specs.Rule.{Settled};

use crate::ends::{Deques, OwnEnd, StealEnd};
use crate::worker_ends::WorkerEnds;
use std::alloc::{AllocError, Global};

// The owners' ends, and the thieves'.
#[derive(Drop)]
struct Parted<T, D: Deques> {
    owns: Vec<OwnEnd<T, D>>,
    thefts: Vec<StealEnd<T, D>>,
}

// The ends of all workers, by their kinds.
fn part_all<T: Drop, D: Deques>(
    alloc: Global,
    all: Vec<WorkerEnds<T, D>>,
) -> Result<Parted<T, D>, AllocError>
    requires { (i : ℕ) (d : _) → i < length all.items → (slice_index_or all.items i d).place ≡ i }
    ensures len { IfOk result (λ r. length r.owns.items ≡ length all.items) }
    ensures places { IfOk result (λ r. (i : ℕ) (d : _) → i < length r.owns.items → (slice_index_or r.owns.items i d).place ≡ i) }
    ensures shares { IfOk result (λ r. sum_by (λ o. owner_shares o.owner) r.owns.items + length r.thefts.items ≡ 17 * length r.owns.items) }
    ensures pushed { IfOk result (λ r. (h : T → ℕ) → sum_by (λ o. owner_pushed h o.owner) r.owns.items ≡ sum_by (λ e. sum_by h e.pushed) all.items) }
    ensures taken { IfOk result (λ r. (h : T → ℕ) → sum_by (λ o. owner_taken h o.owner) r.owns.items + sum_by (λ t. token_taken h t.token) r.thefts.items ≡ sum_by (λ e. sum_by h e.taken) all.items) }
{
    let mut owns = Vec::new(alloc);
    let mut thefts = Vec::new(alloc);
    for ends in all {
        let (own, mut more) = ends.into_parts();
        owns.push(own)?;
        thefts.append(&mut more)?;
    }
    Ok(Parted { owns, thefts })
}

// Each owner takes back the shares of its deque.
fn absorb_all<T: Drop, D: Deques>(
    mut owns: Vec<OwnEnd<T, D>>,
    thefts: Vec<StealEnd<T, D>>,
) -> Vec<OwnEnd<T, D>>
    requires count { length owns.items ≡ D.count }
    requires places { (i : ℕ) (d : _) → i < length owns.items → (slice_index_or owns.items i d).place ≡ i }
    ensures len { length result.items ≡ length owns.items }
    ensures shares { sum_by (λ o. owner_shares o.owner) result.items ≡ sum_by (λ o. owner_shares o.owner) owns.items + length thefts.items }
    ensures taken { (h : T → ℕ) → sum_by (λ o. owner_taken h o.owner) result.items ≡ sum_by (λ o. owner_taken h o.owner) owns.items + sum_by (λ t. token_taken h t.token) thefts.items }
    ensures pushed { (h : T → ℕ) → sum_by (λ o. owner_pushed h o.owner) result.items ≡ sum_by (λ o. owner_pushed h o.owner) owns.items }
{
    for theft in thefts {
        let k = theft.place;
        owns[k].absorb(theft);
    }
    owns
}

// Takes what is left in one deque.
fn drain<T: Drop, D: Deques>(own: &mut OwnEnd<T, D>, rest: &mut Vec<T>) -> Result<(), AllocError>
    ensures { IfOk result (λ _. Settled (worker_view own.new.owner) × (owner_shares own.new.owner ≡ owner_shares own.old.owner) × ((h : T → ℕ) → owner_taken h own.new.owner + sum_by h rest.old.items ≡ owner_taken h own.old.owner + sum_by h rest.new.items) × ((h : T → ℕ) → owner_pushed h own.new.owner ≡ owner_pushed h own.old.owner)) }
{
    for _ in 0..u64::MAX {
        rest.reserve(1)?;
        match own.pop() {
            Some(item) => rest.push_reserved(item),
            None => return Ok(()),
        }
    }
    Err(AllocError)
}

// Takes what is left in all deques.
fn drain_all<T: Drop, D: Deques>(
    owns: &mut Vec<OwnEnd<T, D>>,
    rest: &mut Vec<T>,
) -> Result<(), AllocError>
    ensures len { IfOk result (λ _. length owns.new.items ≡ length owns.old.items) }
    ensures settled { IfOk result (λ _. (i : ℕ) (d : _) → i < length owns.new.items → Settled (worker_view (slice_index_or owns.new.items i d).owner)) }
    ensures shares { IfOk result (λ _. sum_by (λ o. owner_shares o.owner) owns.new.items ≡ sum_by (λ o. owner_shares o.owner) owns.old.items) }
    ensures taken { IfOk result (λ _. (h : T → ℕ) → sum_by (λ o. owner_taken h o.owner) owns.new.items + sum_by h rest.old.items ≡ sum_by (λ o. owner_taken h o.owner) owns.old.items + sum_by h rest.new.items) }
    ensures pushed { IfOk result (λ _. (h : T → ℕ) → sum_by (λ o. owner_pushed h o.owner) owns.new.items ≡ sum_by (λ o. owner_pushed h o.owner) owns.old.items) }
{
    for k in 0..owns.len() {
        drain(&mut owns[k], rest)?;
    }
    Ok(())
}

/// Returns the items that no worker has taken: what all workers have pushed is what they have taken and these.
pub fn close<T: Drop, D: Deques>(
    alloc: Global,
    all: Vec<WorkerEnds<T, D>>,
) -> Result<Vec<T>, AllocError>
    requires count { length all.items ≡ D.count }
    requires places { (i : ℕ) (d : _) → i < length all.items → (slice_index_or all.items i d).place ≡ i }
    ensures { IfOk result (λ rest. (h : T → ℕ) → sum_by (λ e. sum_by h e.pushed) all.items ≡ sum_by (λ e. sum_by h e.taken) all.items + sum_by h rest.items) }
{
    let Parted { owns, thefts } = part_all(alloc, all)?;
    let mut owns = absorb_all(owns, thefts);
    let mut rest = Vec::new(alloc);
    drain_all(&mut owns, &mut rest)?;
    Ok(rest)
}
