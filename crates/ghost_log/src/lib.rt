//! Steps of a `logbook`'s book that are taken in proofs alone: no word changes, and no code runs.
//!
//! A book has a log, which only grows, and numbers, its cells, under one rule. `logbook` changes them by the atomic step
//! of a shared word. Here they change by a right: `Rights` are the rights to count up some cells, and nobody else can
//! change these. So a value behind a lock keeps such a right and nothing else of the book: whoever has the lock knows
//! the cell's number in the log of this moment, and may add to that log.
#![tactic(auto)]

ghost use Rattle.std.specs.Prelude.{◌≡◌, ◌+◌, ◌-◌, ◌<◌, ◌++◌, ◌∷◌, ◌⊎◌, [], ℕ, Bool, List, if◌then◌else◌, length, true};
ghost use base.Stored.{coded_list, coded×, coded_ℕ};
ghost use Rattle.logbook.specs.Pages.{Book, book_coded, cell};
ghost use Rattle.ghost_log.specs.Cells.{Agree, AllDiffer, cells_after, counted, has_key, rights_own};
ghost use Rattle.ghost_log.specs.Turns.{MayTurn, Turned};

use logbook::{Pens, Rule, Seen};
use std::marker::{Model, PhantomData};

/// The rights to count up some cells of a book, each with the number that its cell has. It has no bytes.
///
/// Cells are written as pairs of a key and a number, in the order of the rights.
pub struct Rights {
    marker: PhantomData<()>,
    pub ghost book: { Book } by { book_coded },
    pub ghost cells: { List (ℕ × ℕ) } by { coded_list (coded× coded_ℕ coded_ℕ) },
}

impl Model for Rights {
    ghost also_owns = { λ r. rights_own r.book.cells_name r.cells };
}

impl Drop for Rights {
    fn drop(self) {
        let Self { marker: _ } = self;
    }
}

unsafe impl Send for Rights {}

impl Rights {
    /// No right, of any book.
    pub fn none() -> Rights
        ensures { result.cells ≡ [] }
    {
        Rights {
            marker: PhantomData,
        }
    }

    /// No right, of the book that was seen.
    pub fn none_of<E, A, P: Rule<E, A>>(seen: &Seen<E, A, P>) -> Rights
        ensures { (result.book ≡ seen.now.book) × (result.cells ≡ []) }
    {
        Rights {
            marker: PhantomData,
        }
    }

    /// The right of the next cell of a row, which holds 0.
    pub fn take(pens: &mut Pens) -> Rights
        requires { 0 < pens.old.left }
        ensures right { (result.book ≡ pens.old.book) × (result.cells ≡ (pens.old.next, 0) ∷ []) }
        ensures rest { (pens.new.book ≡ pens.old.book) × (pens.new.next ≡ pens.old.next + 1) × (pens.new.left ≡ pens.old.left - 1) }
    {
        Rights {
            marker: PhantomData,
        }
    }

    /// The rights of both, shared out anew between the two.
    pub fn deal<M: Deals>(&mut self, other: &mut Rights)
        requires books { ((self.old.cells ≡ []) × (M.mine self.old.cells other.old.cells ≡ [])) ⊎ (self.old.book ≡ other.old.book) }
        requires all { (M.other self.old.cells other.old.cells ++ M.mine self.old.cells other.old.cells ≡ other.old.cells ++ self.old.cells) ⊎ (M.mine self.old.cells other.old.cells ++ M.other self.old.cells other.old.cells ≡ other.old.cells ++ self.old.cells) }
        ensures { (self.new.book ≡ self.old.book) × (self.new.cells ≡ M.mine self.old.cells other.old.cells) × (other.new.book ≡ other.old.book) × (other.new.cells ≡ M.other self.old.cells other.old.cells) }
    {}
}

/// Who has which rights once they are dealt, by those that each had: first `self`, then `other`.
pub trait Deals {
    ghost use Rattle.std.specs.Prelude.{ℕ, List};

    /// What `self` has then.
    ghost mine: { List (ℕ × ℕ) → List (ℕ × ℕ) → List (ℕ × ℕ) };

    /// What `other` has then.
    ghost other: { List (ℕ × ℕ) → List (ℕ × ℕ) → List (ℕ × ℕ) };
}

/// The cells of a book once those of some rights are m higher: these are, and no other has changed. It does nothing.
pub fn law_of_cells()
    ensures cells { (m k : ℕ) (rights : List (ℕ × ℕ)) (cells : List (ℕ × Bool)) → AllDiffer rights → Agree cells rights → cell (cells_after m cells rights) k ≡ (if has_key k rights then ((cell cells k).0 + m, true) else cell cells k) }
    ensures count { (m : ℕ) (rights : List (ℕ × ℕ)) (cells : List (ℕ × Bool)) → length (cells_after m cells rights) ≡ length cells }
{}

/// What a turn adds to the log.
pub trait Turns<X, E> {
    ghost use Rattle.std.specs.Prelude.{List};

    /// The entries, by a value of the caller's.
    ghost adds: { X → List E };
}

/// Sees the log as it is, where the cells of the rights have the numbers of the rights, and adds entries, by whose count
/// each of these cells goes up. With no right it does nothing.
pub fn turn<E, A, P: Rule<E, A>, X, M: Turns<X, E>>(
    seen: &mut Seen<E, A, P>,
    rights: &mut Rights,
    about: &X,
)
    requires { MayTurn P.holds P.shows rights.old.book seen.old.book rights.old.cells seen.old.log (M.adds about.now) }
    ensures { (seen.new.book ≡ seen.old.book) × (seen.new.names ≡ seen.old.names) × (rights.new.book ≡ rights.old.book) × (rights.new.cells ≡ counted (length (M.adds about.now)) rights.old.cells) × Turned P.holds rights.old.cells seen.old.log (M.adds about.now) seen.new.log }
{}
