//! What is left of a map that was closed.
use bulk_work::Asks;
use handles::Table;
use hash_path::PathKey;
use journal::Journal;

/// A seat's list is not what the journal has of it, or a mark of a seat does not hold.
///
/// <!-- quoted from crates/locked_map/src/clients.rt -->
/// ```rust
/// let Ok(closed) = closed_under(map, limits, seats) else {
///     drop(outs);
///     return Err(NoJournal::Torn);
/// };
/// ```
#[derive(Clone, Copy, Debug, PartialEq, Eq)]
pub struct Torn;

/// The table of a map that was closed, and the journal that leads to it.
///
/// <!-- quoted from crates/example_index/src/tour.rt -->
/// ```rust
/// match closed.table.places().get(INDEX as usize) {
///     Some(Some(index)) => index.len(),
///     _ => 0,
/// }
/// ```
#[derive(Drop)]
pub struct Closed<K: PathKey, V, Q: Asks<K, V>> {
    pub table: Table<K, V, Q>,
    pub journal: Journal<K, V, Q, Q::Item>,
}
