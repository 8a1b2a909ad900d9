//! The deques of a crew, before its workers begin.
ghost use Rattle.std.specs.Prelude.{◌≡◌, ◌<◌, ◌∷◌, [], ℕ, IfOk, length, slice_index_or};
ghost use Rattle.crossbeam_deque.specs.Handles.{worker_capacity, worker_index, worker_view};
ghost use Rattle.ruled_deques.specs.Counts.{IsFresh};
ghost use Rattle.ruled_deques.specs.EndsView.{given};

use crate::rule::{Owner, Push};
use std::alloc::{AllocError, Global};

/// The most deques that may be shared out.
pub const MOST_DEQUES: u32 = 16;

// How many items a deque has room for at first.
const FIRST_ROOM: usize = 64;

// A deque on which nothing was pushed.
fn open_one<T: Drop>(alloc: Global) -> Result<Owner<T>, AllocError>
    ensures fresh { IfOk result (λ own. IsFresh own × ((worker_view own).pushed ≡ [])) }
    ensures room { IfOk result (λ own. worker_index own < worker_capacity own) }
{
    Owner::<T>::lifo_as(alloc, FIRST_ROOM)
}

// A deque on which one item was pushed. It has room for the item, so that the push is never refused.
fn open_first<T: Drop>(alloc: Global, first: T) -> Result<Owner<T>, AllocError>
    ensures { IfOk result (λ own. IsFresh own × ((worker_view own).pushed ≡ first ∷ [])) }
{
    let mut owner = open_one::<T>(alloc)?;
    match owner.push_as::<Push>(first) {
        Ok(()) => Ok(owner),
        Err(_) => unreachable!(),
    }
}

/// Opens `count` deques, and pushes an item on the first of them.
pub fn open_all<T: Drop>(alloc: Global, first: T, count: usize) -> Result<Vec<Owner<T>>, AllocError>
    requires { 0 < count }
    ensures len { IfOk result (λ all. length all.items ≡ count) }
    ensures each { IfOk result (λ all. (i : ℕ) (d : _) → i < length all.items → IsFresh (slice_index_or all.items i d) × ((worker_view (slice_index_or all.items i d)).pushed ≡ given first i)) }
{
    let first = open_first(alloc, first)?;
    let mut owners = Vec::new(alloc);
    owners.push(first)?;
    for _ in 1..count {
        let owner = open_one::<T>(alloc)?;
        owners.push(owner)?;
    }
    Ok(owners)
}
