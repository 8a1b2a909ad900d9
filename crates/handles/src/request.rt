//! The requests of a table as values.

use crate::call::Call;
use std::sync::Arc;

/// What a table may be asked.
///
/// <!-- quoted from crates/example_meeting/src/report.rt -->
/// ```rust
/// match (entry.request(), entry.outcome()) {
///     (Request::Call(Call::On(_, Command::Put(_, value))), _) => {
/// ```
#[derive(Drop)]
pub enum Request<K, V, Q> {
    /// That the call is made.
    Call(Call<K, V>),
    /// That the handle's map is shown.
    View(u32),
    /// That a job with the query is opened on the handle's map.
    Freeze(u32, Arc<Q>),
    /// That the job is closed by an answer.
    Finish(u64),
    /// That the job is closed without an answer.
    Abandon(u64),
}
