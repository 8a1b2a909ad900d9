//! The ends of a deque: its owner's, and one for each thief.
ghost use Rattle.std.specs.Prelude.{◌≡◌, ℕ, ◌+◌, ◌-◌, ◌<◌, [], ◌∷◌, ◌++◌, MatchOption, MatchResult, IfOk, Option, Some, None};
ghost use Rattle.atomic_blocks.specs.Lent.{RowsId};
ghost use Rattle.std.specs.declared.alloc.Global.{Global};
ghost use Rattle.crossbeam_deque.specs.Handles.{view, IsPassOf, worker_deque, stealer_deque, worker_view, worker_port, worker_flavor};
ghost use Rattle.ruled_deques.specs.Rule.{deque_view, Settled};

use crate::rule::{Owner, Pop, Push, Sharing, Steal, Thief, Token};
use crossbeam_deque::Steal as Stolen;
use std::alloc::AllocError;
use std::marker::{Brand, PhantomData};

/// Names the deques of one crew of workers. Each call of a program picks them.
pub trait Deques {
    // The deque of each place.
    ghost deque: { ℕ → Option (RowsId × Global) };

    // How many deques there are.
    ghost count: { ℕ };
}

impl Deques for Brand {
    ghost deque = { λ _. None };

    ghost count = { 0 };
}

/// The owner's end of the deque at a place.
#[derive(Drop)]
pub struct OwnEnd<T, D: Deques> {
    pub place: usize,
    pub owner: Owner<T>,
    pub deques: PhantomData<D>,
    pub ghost tied: { Some (worker_deque owner) ≡ D.deque place },
    pub ghost within: { place < D.count },
    pub ghost lifo: { worker_flavor owner ≡ 1 },
    pub ghost port: { worker_port owner ≡ 0 },
    pub ghost share: { 0 < (worker_view owner).shares },
}

/// A thief's end of the deque at a place, with one share.
#[derive(Drop)]
pub struct StealEnd<T, D: Deques> {
    pub place: usize,
    pub thief: Thief<T>,
    pub token: Token<T>,
    pub deques: PhantomData<D>,
    pub ghost tied: { Some (stealer_deque thief) ≡ D.deque place },
    pub ghost mine: { IsPassOf (stealer_deque thief) token },
    pub ghost share: { (view token).shares ≡ 1 },
    pub ghost within: { place < D.count },
    pub ghost quiet: { (view token).pushed ≡ [] },
}

impl<T: Drop, D: Deques> OwnEnd<T, D> {
    /// Pushes an item at the back. Where memory runs out, the item is returned.
    pub fn push(&mut self, item: T) -> Result<(), T>
        ensures did { MatchResult result (λ _. worker_view self.new.owner ≡ deque_view (worker_view self.old.owner).shares ((worker_view self.old.owner).pushed ++ item ∷ []) (worker_view self.old.owner).taken) (λ x. (x ≡ item) × (worker_view self.new.owner ≡ worker_view self.old.owner)) }
        ensures same { self.new.place ≡ self.old.place }
    {
        self.owner.push_as::<Push>(item)
    }

    /// Takes the newest item.
    pub fn pop(&mut self) -> Option<T>
        ensures did { MatchOption result ((worker_view self.new.owner ≡ worker_view self.old.owner) × Settled (worker_view self.old.owner)) (λ x. worker_view self.new.owner ≡ deque_view (worker_view self.old.owner).shares (worker_view self.old.owner).pushed ((worker_view self.old.owner).taken ++ x ∷ [])) }
        ensures same { self.new.place ≡ self.old.place }
    {
        self.owner.pop_as::<Pop>()
    }

    /// A thief's end of this deque, with one of the owner's shares.
    pub fn share(&mut self) -> Result<StealEnd<T, D>, AllocError>
        requires { 1 < (worker_view self.old.owner).shares }
        ensures same { self.new.place ≡ self.old.place }
        ensures did { IfOk result (λ e. (e.place ≡ self.old.place) × (view e.token ≡ deque_view 1 [] []) × (worker_view self.new.owner ≡ deque_view ((worker_view self.old.owner).shares - 1) (worker_view self.old.owner).pushed (worker_view self.old.owner).taken)) }
    {
        let thief = self.owner.stealer()?;
        let token = self.owner.another::<Sharing>();
        Ok(StealEnd {
            place: self.place,
            thief,
            token,
            deques: PhantomData,
        })
    }

    /// Takes a thief's share back, with all that was taken through its end.
    pub fn absorb(&mut self, end: StealEnd<T, D>)
        requires { end.place ≡ self.old.place }
        ensures did { worker_view self.new.owner ≡ deque_view ((worker_view self.old.owner).shares + 1) (worker_view self.old.owner).pushed ((worker_view self.old.owner).taken ++ (view end.token).taken) }
        ensures same { self.new.place ≡ self.old.place }
    {
        let StealEnd {
            place: _,
            thief: _,
            token,
            deques: _,
        } = end;
        self.owner.absorb::<Sharing>(token);
    }
}

impl<T: Drop, D: Deques> StealEnd<T, D> {
    /// Takes the oldest item of the deque, unless it is the worker's own.
    pub fn steal(&mut self, own_place: usize) -> Option<T>
        ensures did { MatchOption result (view self.new.token ≡ view self.old.token) (λ x. view self.new.token ≡ deque_view 1 [] ((view self.old.token).taken ++ x ∷ [])) }
        ensures same { self.new.place ≡ self.old.place }
    {
        if self.place == own_place {
            return None;
        }
        match self.thief.steal_as::<Steal>(&mut self.token) {
            Stolen::Success(item) => Some(item),
            Stolen::Empty | Stolen::Retry => None,
        }
    }
}
