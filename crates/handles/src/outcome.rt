//! The outcomes of requests as values.

use crate::call_reply::CallReply;
use bulk_work::Answer;
use hash_path::PathKey;
use versions::{Refusal, View};

/// What a request of a table returned.
///
/// <!-- quoted from crates/example_meeting/src/report.rt -->
/// ```rust
/// (Request::Call(_), Outcome::Reply(CallReply::Reply(Reply::Old(Some(value))))) => {
/// ```
#[derive(Drop)]
pub enum Outcome<K: PathKey, V, I> {
    /// The call was made, and this is its reply.
    Reply(CallReply<V>),
    /// The map that was viewed.
    View(View<K, V>),
    /// A job of this number was opened, on this map.
    Frozen(u64, View<K, V>),
    /// The job was closed, and this is its answer.
    Answer(Answer<K, V, I>),
    /// The job was closed without an answer.
    Abandoned,
    /// It is refused.
    Refused(Refusal),
}
