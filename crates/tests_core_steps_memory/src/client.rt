//! A client of a core, which knows the core by its contracts alone: what a count returns at last is the size that the
//! handle's map had before its freeze, whatever steps clients and workers make between the two.
ghost use Rattle.std.specs.Prelude.{◌≡◌, All, IfOk, IfSome, length};
ghost use Rattle.bulk_work.specs.declared.asks.Answer.TheVariants as answers;
ghost use Rattle.handles.specs.Machine.{held_by};
ghost use Rattle.handles.specs.declared.call_reply.CallReply.TheVariants as call_replies;
ghost use Rattle.held_maps.specs.declared.reply.Reply.TheVariants as replies;
ghost use Rattle.versions.specs.Map.{Map};
ghost use Rattle.core_steps.specs.Steps.{CanAsk, asked_by};
ghost use Rattle.core_steps.specs.declared.outcome.Outcome.TheVariants as outcomes;
ghost use Rattle.tests_core_steps_memory.specs.Clients.{AsksSize, IsOnlyJob, IsAnswerTo, NumbersStay, TellsCount};

use bulk_work::{Answer, Asks};
use core_steps::{Core, Outcome, Step};
use handles::{Call, CallReply, Command, Reply};
use hash_path::PathKey;
use std::alloc::Global;
use std::sync::Arc;
use trie_node::NoMemory;

/// The size of the handle's map as it stands now, and the answer of a count of all its pairs that is frozen then and
/// finished after the steps: where both are returned, they are equal.
///
/// The steps are any steps of clients and workers: they may write to the handle, drop it, freeze other queries, work
/// the job or close it. None where the size, the freeze or the finish is refused, or the job is unfinished.
pub fn size_and_count<K: PathKey + Drop, V: Eq + Drop, Q: Asks<K, V> + Drop>(
    alloc: Global,
    core: &mut Core<K, V, Q>,
    handle: u32,
    query: Arc<Q>,
    steps: &[Step<K, V, Q>],
) -> Result<Option<(u64, u64)>, NoMemory>
    requires ready { Q.ready query.value }
    requires asks { AsksSize Q.answered query.value }
    requires steps { All (λ step. CanAsk Q.ready (asked_by step)) steps.now }
    ensures size { IfOk result (λ returned. IfSome returned (λ both. both.0 ≡ length (held_by core.old.state.machine handle))) }
    ensures count { IfOk result (λ returned. IfSome returned (λ both. both.1 ≡ both.0)) }
{
    let Some(size) = size_of(alloc, core, handle)? else {
        return Ok(None);
    };
    match answer_of(alloc, core, handle, query, steps)? {
        Some(answer) => Ok(Some((size, count_in(answer)))),
        None => Ok(None),
    }
}

/// What the query is answered that is frozen on the handle now and finished after the steps, if it is answered: that is
/// an answer for the handle's map as it stands now.
pub fn answer_of<K: PathKey + Drop, V: Eq + Drop, Q: Asks<K, V> + Drop>(
    alloc: Global,
    core: &mut Core<K, V, Q>,
    handle: u32,
    query: Arc<Q>,
    steps: &[Step<K, V, Q>],
) -> Result<Option<Answer<K, V, Q::Item>>, NoMemory>
    requires ready { Q.ready query.value }
    requires steps { All (λ step. CanAsk Q.ready (asked_by step)) steps.now }
    ensures { IfOk result (λ returned. IfSome returned (λ answer. IsAnswerTo Q.answered query.value (held_by core.old.state.machine handle) answer)) }
{
    let Some(job) = opened(alloc, core, handle, query)? else {
        return Ok(None);
    };
    make_all(alloc, core, steps)?;
    finished(alloc, core, job)
}

// The size of the handle's map, if the core returns it. The map stays.
fn size_of<K: PathKey + Drop, V: Eq + Drop, Q: Asks<K, V> + Drop>(
    alloc: Global,
    core: &mut Core<K, V, Q>,
    handle: u32,
) -> Result<Option<u64>, NoMemory>
    ensures size { IfOk result (λ returned. IfSome returned (λ size. size ≡ length (held_by core.old.state.machine handle))) }
    ensures map { IfOk result (λ returned. IfSome returned (λ size. held_by core.new.state.machine handle ≡ held_by core.old.state.machine handle)) }
{
    let outcome = core.step(alloc, Step::Call(Call::On(handle, Command::Size)))?;
    Ok(size_in(outcome))
}

// The size in an outcome, if there is one.
fn size_in<K: PathKey + Drop, V: Drop, I: Drop>(outcome: Outcome<K, V, I>) -> Option<u64>
    ensures { IfSome result (λ size. outcome ≡ outcomes.Reply (call_replies.Reply (replies.Size size))) }
{
    match outcome {
        Outcome::Reply(CallReply::Reply(Reply::Size(size))) => Some(size),
        _ => None,
    }
}

// The number of the job that a freeze opens, if it opens one: it is never another job's.
fn opened<K: PathKey + Drop, V: Eq + Drop, Q: Asks<K, V> + Drop>(
    alloc: Global,
    core: &mut Core<K, V, Q>,
    handle: u32,
    query: Arc<Q>,
) -> Result<Option<u64>, NoMemory>
    requires { Q.ready query.value }
    ensures { IfOk result (λ returned. IfSome returned (λ job. IsOnlyJob core.new.state.machine job (record { query = query.value; frozen = held_by core.old.state.machine handle }))) }
{
    match core.step(alloc, Step::Freeze(handle, query))? {
        Outcome::Frozen(job) => Ok(Some(job)),
        _ => Ok(None),
    }
}

// Makes the steps, in one run of the core.
fn make_all<K: PathKey + Drop, V: Eq + Drop, Q: Asks<K, V> + Drop>(
    alloc: Global,
    core: &mut Core<K, V, Q>,
    steps: &[Step<K, V, Q>],
) -> Result<(), NoMemory>
    requires { All (λ step. CanAsk Q.ready (asked_by step)) steps.now }
    ensures { NumbersStay core.old.state.machine core.new.state.machine }
{
    match core.run(alloc, steps) {
        Ok(_) => Ok(()),
        Err(_) => Err(NoMemory),
    }
}

// What the job is answered, if it is answered.
fn finished<K: PathKey + Drop, V: Eq + Drop, Q: Asks<K, V> + Drop>(
    alloc: Global,
    core: &mut Core<K, V, Q>,
    job: u64,
) -> Result<Option<Answer<K, V, Q::Item>>, NoMemory>
    ensures { IfOk result (λ returned. IfSome returned (λ answer. (q : Q) (m : Map K V) → IsOnlyJob core.old.state.machine job (record { query = q; frozen = m }) → IsAnswerTo Q.answered q m answer)) }
{
    match core.step(alloc, Step::Finish(job))? {
        Outcome::Answer(answer) => Ok(Some(answer)),
        _ => Ok(None),
    }
}

// The number that a count is answered.
fn count_in<K: PathKey + Drop, V: Drop, I: Drop>(answer: Answer<K, V, I>) -> u64
    requires { TellsCount answer }
    ensures { answer ≡ answers.Count result }
{
    match answer {
        Answer::Count(count) => count,
        _ => unreachable!(),
    }
}
