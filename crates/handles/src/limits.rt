//! How much a table may hold.

/// The most entries that a journal may be limited to.
pub const MOST_ENTRIES: u32 = 1_048_576;

/// How many jobs may be open.
pub const MOST_JOBS: usize = 64;

/// How much a table may hold.
///
/// <!-- quoted from crates/example_registry/src/tables.rt -->
/// ```rust
/// let limits = Limits {
///     pairs: 1_000,
///     entries: 1_000,
/// };
/// let mut table = Table::new(alloc, limits)?;
/// ```
#[derive(Clone, Copy, Debug, PartialEq, Eq)]
pub struct Limits {
    /// The pairs of each map, from 1 to `versions::MOST_PAIRS`.
    pub pairs: u64,
    /// The entries of the journal, from 2 to `MOST_ENTRIES`.
    pub entries: u32,
}
