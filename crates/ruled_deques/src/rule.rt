//! The rule of one deque: what was pushed is what was taken and what waits, in the order of the pushes.
ghost use Rattle.std.specs.Prelude.{◌≡◌, ◌+◌, ◌-◌, ◌++◌, []};
ghost use Rattle.ruled_deques.specs.Rule.{Balanced, Settled, deque_view};

use crossbeam_deque::protocol::{Join, Outcome, Protocol, Split};
use crossbeam_deque::{Pass, Stealer, Worker};
use std::alloc::Global;
use std::collections::LinkedList;

/// What one end of a deque knows: its shares of the deque, and the items that were pushed and taken through it.
///
/// A deque has 17 shares. An end that has all of them knows all pushes and all takes. No value of this type is made.
pub struct DequeView<T> {
    pub shares: u64,
    pub pushed: LinkedList<T>,
    pub taken: LinkedList<T>,
}

/// Each item that was pushed is taken once, or it waits.
pub struct DequeRule;

impl<T> Protocol<T, DequeView<T>> for DequeRule {
    ghost holds = { Balanced };

    ghost first = { deque_view 17 [] [] };

    ghost guest = { deque_view 0 [] [] };
}

/// The move of one share from an owner to a new end, and of all shares of an end back to the owner.
pub struct Sharing;

impl<T> Split<DequeView<T>> for Sharing {
    ghost left = { λ v. deque_view (v.shares - 1) v.pushed v.taken };

    ghost right = { λ v. deque_view 1 [] [] };
}

impl<T> Join<DequeView<T>> for Sharing {
    ghost both = { λ v w. deque_view (v.shares + w.shares) (v.pushed ++ w.pushed) (v.taken ++ w.taken) };

    ghost spent = { deque_view 0 [] [] };
}

/// A push at the back.
pub struct Push;

impl<T> Outcome<T, DequeView<T>> for Push {
    ghost then = { λ v xs w. w ≡ deque_view v.shares (v.pushed ++ xs) v.taken };
}

/// A pop at the back, by the owner.
pub struct Pop;

impl<T> Outcome<T, DequeView<T>> for Pop {
    ghost then = { λ v xs w. w ≡ deque_view v.shares v.pushed (v.taken ++ xs) };

    ghost empty = { Settled };
}

/// A take at the front, by a thief.
pub struct Steal;

impl<T> Outcome<T, DequeView<T>> for Steal {
    ghost then = { λ before xs after. after ≡ deque_view before.shares before.pushed (before.taken ++ xs) };
}

/// The owner's handle of a deque.
pub type Owner<T> = Worker<T, Global, DequeView<T>, DequeRule>;

/// A thief's handle of a deque.
pub type Thief<T> = Stealer<T, Global, DequeView<T>, DequeRule>;

/// What a thief knows of a deque. It has no bytes.
pub type Token<T> = Pass<T, DequeView<T>>;
