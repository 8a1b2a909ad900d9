//! What a core returns.
ghost use Rattle.std.specs.Prelude.{◌≡◌};
ghost use Rattle.core_steps.specs.Steps.{outcome_of_call, refused_outcome, outcome_of_view};

use bulk_work::Answer;
use handles::CallReply;
use hash_path::PathKey;
use trie_node::NoMemory;
use versions::{Refusal, View};
use worker_states::Progress;

/// What a step returns.
#[derive(Drop)]
pub enum Outcome<K: PathKey, V, I> {
    /// The call was made, and this is its reply.
    Reply(CallReply<V>),
    /// The map that was viewed.
    View(View<K, V>),
    /// A job of this number was opened.
    Frozen(u64),
    /// The job was closed, and this is its answer.
    Answer(Answer<K, V, I>),
    /// The job can't be closed by an answer yet: not all positions were worked, and no worker's part is settled.
    Unfinished,
    /// The job was closed without an answer.
    Abandoned,
    /// What the worker's move returned.
    Moved(Progress),
    /// The step is refused.
    Refused(Refusal),
}

/// The outcomes of steps, in the order of the steps.
#[derive(Drop)]
pub struct Trace<K: PathKey, V, I> {
    pub outcomes: Vec<Outcome<K, V, I>>,
}

/// What is returned where a step is refused: `NoMemory` is no outcome.
pub(crate) fn refused<K: PathKey, V, I>(refusal: Refusal) -> Result<Outcome<K, V, I>, NoMemory>
    ensures { result ≡ refused_outcome refusal }
{
    match refusal {
        Refusal::NoMemory => Err(NoMemory),
        refusal => Ok(Outcome::Refused(refusal)),
    }
}

/// What a call returns.
pub(crate) fn call_outcome<K: PathKey, V, I>(
    answer: Result<CallReply<V>, Refusal>,
) -> Result<Outcome<K, V, I>, NoMemory>
    ensures { result ≡ outcome_of_call answer }
{
    match answer {
        Ok(reply) => Ok(Outcome::Reply(reply)),
        Err(refusal) => refused(refusal),
    }
}

/// What a view returns.
pub(crate) fn view_outcome<K: PathKey, V, I>(
    answer: Result<View<K, V>, Refusal>,
) -> Result<Outcome<K, V, I>, NoMemory>
    ensures { result ≡ outcome_of_view answer }
{
    match answer {
        Ok(view) => Ok(Outcome::View(view)),
        Err(refusal) => refused(refusal),
    }
}
