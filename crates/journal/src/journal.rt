//! The journal that is left of a table.
ghost use Rattle.std.specs.Prelude.{◌≡◌, ◌↔◌, [], IsTrue, length, option_map, slice_get};
ghost use Rattle.journal.specs.Tokens.{AllShown, entries_of};

use crate::entry::Entry;
use crate::journal_name::{Entries, Token};
use hash_path::PathKey;
use std::marker::Model;

/// The journal that is left of a table: its entries, in order. It never changes.
///
/// <!-- quoted from crates/example_index/src/tour.rt -->
/// ```rust
/// for place in 0..closed.journal.len() {
///     let Some(entry) = closed.journal.entry(place) else {
/// ```
#[derive(Drop)]
pub struct Journal<K: PathKey, V, Q, I> {
    entries: Entries<K, V, Q, I>,
    tokens: Vec<Token<K, V, Q, I>>,
}

impl<K: PathKey, V, Q, I> Model for Journal<K, V, Q, I> {
    ghost use Rattle.std.specs.Prelude.{List};
    ghost use Rattle.bulk_work.specs.Answers as plain;
    ghost use Rattle.journal.specs.Journals.{Entered};
    ghost use Rattle.journal.specs.Tokens.{AllShown, entries_of};

    ghost Value = { List (Entered K V Q (plain.Summary K V I)) };

    ghost view = { λ j. entries_of j.tokens.items };

    ghost invariant = { λ j. AllShown j.entries j.tokens.items };
}

impl<K: PathKey, V, Q, I> Journal<K, V, Q, I> {
    /// The journal of the entries, in this vector, that the tokens show.
    ///
    /// Cost: O(1), no lock. Refused: never.
    pub fn new(entries: Entries<K, V, Q, I>, tokens: Vec<Token<K, V, Q, I>>) -> Journal<K, V, Q, I>
        requires { AllShown entries tokens.items }
        ensures { result ≡ entries_of tokens.items }
    {
        Journal { entries, tokens }
    }

    /// How many entries there are.
    ///
    /// Cost: O(1), no lock. Refused: never.
    pub fn len(&self) -> usize
        ensures { result ≡ length self.now }
    {
        self.tokens.len()
    }

    /// Whether there is no entry.
    ///
    /// Cost: O(1), no lock. Refused: never.
    pub fn is_empty(&self) -> bool
        ensures { IsTrue result ↔ (self.now ≡ []) }
    {
        self.tokens.is_empty()
    }

    /// The entry at this place, counted from 0, if there is one.
    ///
    /// Cost: O(1), no lock. Refused: never.
    pub fn entry(&self, place: usize) -> Option<&Entry<K, V, Q, I>>
        ensures { option_map (λ entry. entry.now) result ≡ slice_get self.now place }
    {
        let token = self.tokens.get(place)?;
        Some(self.entries.value(token))
    }
}
