//! The vector that holds the journal's entries, under a name.
ghost use Rattle.boxcar.specs.Table.{Shelves};

use crate::entry::Entry;
use std::marker::Brand;

/// Names one vector of entries. Tokens that are kept apart, under the lock and with the seats, are of one vector where
/// their types have one name.
///
/// <!-- quoted from crates/example_index/src/indexer.rt -->
/// ```rust
/// fn open<J: JournalName, R: Wait>(
///     rt: &R,
///     map: &Index<J>,
///     seat: &mut ClientSeat<J>,
/// ) -> Result<(), Refusal> {
/// ```
pub trait JournalName {
    ghost table: { Shelves };
}

impl JournalName for Brand {
    ghost use Rattle.std.specs.Prelude.{[]};

    ghost table = { record { tag = []; buckets = [] } };
}

/// The vector of entries. Each is placed once, and never changes.
pub type Entries<K, V, Q, I> = boxcar::Vec<Entry<K, V, Q, I>>;

/// What shows where an entry stands in the vector.
pub type Token<K, V, Q, I> = boxcar::Pushed<Entry<K, V, Q, I>>;
