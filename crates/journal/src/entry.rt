//! The entries of a journal.
ghost use Rattle.std.specs.Prelude.{◌≡◌};
ghost use Rattle.handles.specs.Views.{asked_of, told_of};

use handles::{Outcome, Request};
use hash_path::PathKey;
use std::marker::Model;

/// An entry of a journal: the number of a seat, what it asked, and what was returned. It never changes.
///
/// <!-- quoted from crates/example_index/src/tour.rt -->
/// ```rust
/// let Some(entry) = closed.journal.entry(place) else {
///     return added;
/// };
/// match (entry.request(), entry.outcome()) {
///     (Request::View(_), _) if entry.seat() == seat => return added,
/// ```
#[derive(Drop)]
pub struct Entry<K: PathKey, V, Q, I> {
    seat: u32,
    request: Request<K, V, Q>,
    outcome: Outcome<K, V, I>,
}

impl<K: PathKey, V, Q, I> Model for Entry<K, V, Q, I> {
    ghost use Rattle.bulk_work.specs.Answers as plain;
    ghost use Rattle.handles.specs.Views.{asked_of, told_of};
    ghost use Rattle.journal.specs.Journals.{Entered};

    ghost Value = { Entered K V Q (plain.Summary K V I) };

    ghost view = { λ e. record { seat = e.seat; request = asked_of e.request; outcome = told_of e.outcome } };
}

impl<K: PathKey, V, Q, I> Entry<K, V, Q, I> {
    /// The entry of a seat that asked this, with what was returned.
    pub(crate) fn new(
        seat: u32,
        request: Request<K, V, Q>,
        outcome: Outcome<K, V, I>,
    ) -> Entry<K, V, Q, I>
        ensures { result ≡ record { seat = seat; request = asked_of request; outcome = told_of outcome } }
    {
        Entry {
            seat,
            request,
            outcome,
        }
    }

    /// The number of the seat.
    ///
    /// Cost: O(1), no lock. Refused: never.
    pub fn seat(&self) -> u32
        ensures { result ≡ self.now.seat }
    {
        self.seat
    }

    /// What the seat asked.
    ///
    /// Cost: O(1), no lock. Refused: never.
    pub fn request(&self) -> &Request<K, V, Q>
        ensures { asked_of result.now ≡ self.now.request }
    {
        &self.request
    }

    /// What was returned to the seat.
    ///
    /// Cost: O(1), no lock. Refused: never.
    pub fn outcome(&self) -> &Outcome<K, V, I>
        ensures { told_of result.now ≡ self.now.outcome }
    {
        &self.outcome
    }
}
