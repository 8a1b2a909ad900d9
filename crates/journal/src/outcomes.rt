//! The outcomes that entries keep, of what calls returned.
ghost use Rattle.std.specs.Prelude.{◌≡◌, IfOk};
ghost use Rattle.handles.specs.Views.{call_outcome, frozen_outcome, reply_of, told_of, view_outcome};
ghost use Rattle.journal.specs.Answers.{answered};

use handles::{CallReply, Outcome, Reply};
use hash_path::PathKey;
use std::sync::Arc;
use versions::{NoMemory, Refusal, View};

/// The outcome of a call that returned this.
pub(crate) fn outcome_of_call<K: PathKey + Drop, V: Drop, I>(
    answer: &Result<CallReply<V>, Refusal>,
) -> Result<Outcome<K, V, I>, NoMemory>
    ensures { IfOk result (λ outcome. told_of outcome ≡ answered call_outcome answer.now) }
{
    Ok(match answer {
        Ok(CallReply::Unit) => Outcome::Reply(CallReply::Unit),
        Ok(CallReply::Reply(reply)) => Outcome::Reply(CallReply::Reply(copy_of_reply(reply)?)),
        Err(refusal) => Outcome::Refused(*refusal),
    })
}

/// The outcome of a view that returned this.
pub(crate) fn outcome_of_view<K: PathKey + Drop, V: Drop, I>(
    answer: &Result<View<K, V>, Refusal>,
) -> Result<Outcome<K, V, I>, NoMemory>
    ensures { IfOk result (λ outcome. told_of outcome ≡ answered view_outcome answer.now) }
{
    Ok(match answer {
        Ok(view) => Outcome::View(view.try_clone()?),
        Err(refusal) => Outcome::Refused(*refusal),
    })
}

/// The outcome of a freeze that returned this.
pub(crate) fn outcome_of_freeze<K: PathKey + Drop, V: Drop, I>(
    answer: &Result<(u64, View<K, V>), Refusal>,
) -> Result<Outcome<K, V, I>, NoMemory>
    ensures { IfOk result (λ outcome. told_of outcome ≡ answered frozen_outcome answer.now) }
{
    Ok(match answer {
        Ok((number, view)) => Outcome::Frozen(*number, view.try_clone()?),
        Err(refusal) => Outcome::Refused(*refusal),
    })
}

// The same reply, with the same value.
fn copy_of_reply<V: Drop>(reply: &Reply<V>) -> Result<Reply<V>, NoMemory>
    ensures { IfOk result (λ copy. reply_of copy ≡ reply_of reply.now) }
{
    Ok(match reply {
        Reply::Old(Some(value)) => Reply::Old(Some(Arc::try_clone(value)?)),
        Reply::Old(None) => Reply::Old(None),
        Reply::Done(done) => Reply::Done(*done),
        Reply::Size(count) => Reply::Size(*count),
        Reply::Cleared => Reply::Cleared,
    })
}
