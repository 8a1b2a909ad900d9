//! What one worker has of the deques.
ghost use Rattle.std.specs.Prelude.{◌≡◌, ◌+◌, ◌++◌, ◌∷◌, [], ℕ, MatchOption, MatchResult, length, flat_map};
ghost use Rattle.std.specs.List.{sum_by};
ghost use Rattle.crossbeam_deque.specs.Handles.{worker_view};
ghost use Rattle.ruled_deques.specs.Counts.{taken_through, token_taken};

use crate::ends::{Deques, OwnEnd, StealEnd};
use std::marker::Model;

/// The owner's end of a worker's own deque, and a thief's end of each deque.
///
/// Contracts see the place of its own deque, what was pushed there, and what the worker has taken from all deques.
#[derive(Drop)]
pub struct WorkerEnds<T, D: Deques> {
    own: OwnEnd<T, D>,
    thefts: Vec<StealEnd<T, D>>,
}

impl<T, D: Deques> Model for WorkerEnds<T, D> {
    ghost use Rattle.std.specs.Prelude.{◌≡◌, ◌+◌, ◌++◌, length, flat_map};
    ghost use Rattle.crossbeam_deque.specs.Handles.{worker_view};
    ghost use Rattle.ruled_deques.specs.Counts.{taken_through};
    ghost use Rattle.ruled_deques.specs.EndsView.{EndsView};

    ghost Value = { EndsView T };

    ghost view = { λ e. record { place = e.own.place; pushed = (worker_view e.own.owner).pushed; taken = (worker_view e.own.owner).taken ++ flat_map (λ t. taken_through t.token) e.thefts.items } };

    ghost invariant = { λ e. (worker_view e.own.owner).shares + length e.thefts.items ≡ 17 };
}

// The oldest item of another deque.
fn steal_any<T: Drop, D: Deques>(thefts: &mut Vec<StealEnd<T, D>>, own_place: usize) -> Option<T>
    ensures len { length thefts.new.items ≡ length thefts.old.items }
    ensures took { MatchOption result ((h : T → ℕ) → sum_by (λ t. token_taken h t.token) thefts.new.items ≡ sum_by (λ t. token_taken h t.token) thefts.old.items) (λ x. (h : T → ℕ) → sum_by (λ t. token_taken h t.token) thefts.new.items ≡ sum_by (λ t. token_taken h t.token) thefts.old.items + h x) }
{
    for k in 0..thefts.len() {
        if let Some(item) = thefts[k].steal(own_place) {
            return Some(item);
        }
    }
    None
}

impl<T: Drop, D: Deques> WorkerEnds<T, D> {
    // All ends of a worker.
    pub(crate) fn new(own: OwnEnd<T, D>, thefts: Vec<StealEnd<T, D>>) -> WorkerEnds<T, D>
        requires { (worker_view own.owner).shares + length thefts.items ≡ 17 }
        ensures { result ≡ record { place = own.place; pushed = (worker_view own.owner).pushed; taken = (worker_view own.owner).taken ++ flat_map (λ t. taken_through t.token) thefts.items } }
    {
        WorkerEnds { own, thefts }
    }

    /// The place of the worker's own deque.
    pub fn place(&self) -> usize
        ensures { result ≡ self.now.place }
    {
        self.own.place
    }

    /// Takes the newest item of the worker's own deque, or else the oldest of another.
    pub fn take(&mut self) -> Option<T>
        ensures same { (self.new.place ≡ self.old.place) × (self.new.pushed ≡ self.old.pushed) }
        ensures took { MatchOption result ((h : T → ℕ) → sum_by h self.new.taken ≡ sum_by h self.old.taken) (λ x. (h : T → ℕ) → sum_by h self.new.taken ≡ sum_by h self.old.taken + h x) }
    {
        if let Some(item) = self.own.pop() {
            return Some(item);
        }
        steal_any(&mut self.thefts, self.own.place)
    }

    /// Pushes an item on the worker's own deque. Where memory runs out, the item is returned.
    pub fn push(&mut self, item: T) -> Result<(), T>
        ensures same { (self.new.place ≡ self.old.place) × (self.new.taken ≡ self.old.taken) }
        ensures did { MatchResult result (λ _. self.new.pushed ≡ self.old.pushed ++ item ∷ []) (λ x. (x ≡ item) × (self.new.pushed ≡ self.old.pushed)) }
    {
        self.own.push(item)
    }

    // The ends, each for itself.
    pub(crate) fn into_parts(self) -> (OwnEnd<T, D>, Vec<StealEnd<T, D>>)
        ensures place { result.0.place ≡ self.place }
        ensures pushed { (worker_view result.0.owner).pushed ≡ self.pushed }
        ensures taken { (worker_view result.0.owner).taken ++ flat_map (λ t. taken_through t.token) result.1.items ≡ self.taken }
        ensures shares { (worker_view result.0.owner).shares + length result.1.items ≡ 17 }
    {
        let WorkerEnds { own, thefts } = self;
        (own, thefts)
    }
}
