//! What a command returns.
use std::sync::Arc;

/// What a command returns. It describes the map before the command.
///
/// <!-- quoted from crates/example_registry/src/tables.rt -->
/// ```rust
/// match table.call(rt.alloc(), handle, Command::Get(Arc::try_clone(billing)?))? {
///     Reply::Old(Some(at)) => rt.println(format_args!("handle {handle} has billing at {at}"))?,
///     _ => rt.println(format_args!("handle {handle} has no billing"))?,
/// }
/// ```
#[derive(Debug, Drop, PartialEq, Eq)]
pub enum Reply<V> {
    /// The value of the key, or none.
    Old(Option<Arc<V>>),
    /// Whether the key was mapped to an equal value, so that the command was done.
    Done(bool),
    /// How many pairs there were.
    Size(u64),
    /// All pairs were removed.
    Cleared,
}
