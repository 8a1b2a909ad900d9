//! What a call of a table returns.
use held_maps::Reply;

/// What a call returns where it is not refused.
///
/// <!-- quoted from crates/example_index/src/indexer.rt -->
/// ```rust
/// if let CallReply::Reply(Reply::Old(None)) = reply {
///     added = added.wrapping_add(1);
/// }
/// ```
#[derive(Debug, Drop, PartialEq, Eq)]
pub enum CallReply<V> {
    /// A handle was opened or closed.
    Unit,
    /// A command was made, and this is its reply.
    Reply(Reply<V>),
}
