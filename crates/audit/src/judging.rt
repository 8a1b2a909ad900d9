//! Whether a request has this reply.

ghost use Rattle.std.specs.Prelude.{◌≡◌, ◌↔◌, ◌++◌, IfOk, IsTrue, MatchBool, OnOk, codes, false};
ghost use Rattle.std.specs.Arc.{arc_value};
ghost use Rattle.std.specs.Fmt.{decimal};
ghost use Rattle.handles.specs.Machine.{abandon, finish, freeze, view};
ghost use Rattle.handles.specs.Machine as machine;
ghost use Rattle.handles.specs.Views.{asked_of, frozen_outcome, lacks_memory, outcome_of, request_of, unit_outcome, view_outcome};
ghost use Rattle.journal.specs.Answers.{answered};
ghost use Rattle.audit.specs.Answers.{Answers, IsReplyTo, IsShownAs, IsTextOf, NoneAnswers, is_want};

use crate::reply_parts::part_in_reply;
use handles::{Call, CallReply, Request, Table, is_entry};
use keys::ByteText;
use questions::{ScriptQuery, ScriptRequest, listing_of, reply_shown};
use script::{LineReply, push_reply};
use std::alloc::Global;
use std::sync::Arc;
use versions::{NoMemory, Refusal, View};

/// The table of a program.
pub type ProgramTable = Table<ByteText, i64, ScriptQuery>;

/// Makes the step that is asked for, if the machine may make one whose outcome has this text. If not, the table may be
/// in another state.
///
/// # Errors
///
/// Memory was refused.
pub fn judge(
    alloc: Global,
    table: &mut ProgramTable,
    asked: ScriptRequest,
    reply: &[u8],
) -> Result<bool, NoMemory>
    ensures { IfOk result (λ yes. MatchBool yes (Answers table.old (asked_of asked) reply.now table.new) (NoneAnswers table.old (asked_of asked) reply.now)) }
{
    match asked {
        Request::Call(call) => served(alloc, table, call, reply),
        Request::View(handle) => viewed(alloc, table, handle, reply),
        Request::Freeze(handle, query) => frozen(alloc, table, handle, query, reply),
        Request::Finish(job) => finished(alloc, table, job, reply),
        Request::Abandon(job) => abandoned(alloc, table, job, reply),
    }
}

fn served(
    alloc: Global,
    table: &mut ProgramTable,
    call: Call<ByteText, i64>,
    reply: &[u8],
) -> Result<bool, NoMemory>
    ensures { IfOk result (λ yes. MatchBool yes (Answers table.old (request_of call) reply.now table.new) (NoneAnswers table.old (request_of call) reply.now)) }
{
    let answer = table.serve(alloc, call);
    let shown = reply_of(&answer)?;
    is_shown_as(alloc, &shown, reply)
}

fn viewed(
    alloc: Global,
    table: &mut ProgramTable,
    handle: u32,
    reply: &[u8],
) -> Result<bool, NoMemory>
    ensures { IfOk result (λ yes. MatchBool yes (Answers table.old (view handle) reply.now table.new) (NoneAnswers table.old (view handle) reply.now)) }
{
    let answer = table.view(handle);
    let shown = listed(alloc, &answer)?;
    is_shown_as(alloc, &shown, reply)
}

fn frozen(
    alloc: Global,
    table: &mut ProgramTable,
    handle: u32,
    query: Arc<ScriptQuery>,
    reply: &[u8],
) -> Result<bool, NoMemory>
    ensures { IfOk result (λ yes. MatchBool yes (Answers table.old (freeze handle (arc_value query)) reply.now table.new) (NoneAnswers table.old (freeze handle (arc_value query)) reply.now)) }
{
    let answer = table.freeze(handle, query);
    is_frozen_so(alloc, &answer, reply)
}

fn finished(
    alloc: Global,
    table: &mut ProgramTable,
    job: u64,
    reply: &[u8],
) -> Result<bool, NoMemory>
    ensures { IfOk result (λ yes. MatchBool yes (Answers table.old (finish job) reply.now table.new) (NoneAnswers table.old (finish job) reply.now)) }
{
    let Some((query, view)) = table.open_job(job) else {
        return Ok(false);
    };
    let Some(part) = part_in_reply(alloc, query, view, reply)? else {
        return Ok(false);
    };
    Ok(table.finish(job, part).is_ok())
}

fn abandoned(
    alloc: Global,
    table: &mut ProgramTable,
    job: u64,
    reply: &[u8],
) -> Result<bool, NoMemory>
    ensures { IfOk result (λ yes. MatchBool yes (Answers table.old (abandon job) reply.now table.new) (NoneAnswers table.old (abandon job) reply.now)) }
{
    let answer = table.abandon(job);
    let shown = closed(&answer)?;
    is_shown_as(alloc, &shown, reply)
}

/// Whether this is the text of the answer to a freeze, if it is an entry's.
#[tactic(auto, using(crate::proofs::JudgedLemmas::job_so))]
fn is_frozen_so(
    alloc: Global,
    answer: &Result<(u64, View<ByteText, i64>), Refusal>,
    reply: &[u8],
) -> Result<bool, NoMemory>
    ensures told { IfOk result (λ yes. IsTrue yes ↔ IsTextOf (answered frozen_outcome answer.now) reply.now) }
    ensures memory { OnOk result (lacks_memory answer.now ≡ false) }
{
    match answer {
        Ok((job, _)) => is_job(alloc, *job, reply),
        Err(refusal) => is_refused_so(alloc, *refusal, reply),
    }
}

/// Whether this is the text of the refusal, if it is an entry's.
#[tactic(auto, using(crate::proofs::JudgedLemmas::shown_so))]
fn is_refused_so(alloc: Global, refusal: Refusal, reply: &[u8]) -> Result<bool, NoMemory>
    ensures told { IfOk result (λ yes. IsTrue yes ↔ IsTextOf (machine.refused refusal) reply.now) }
    ensures memory { OnOk result (is_want refusal ≡ false) }
{
    let shown = refused(refusal)?;
    is_shown_as(alloc, &shown, reply)
}

/// The reply that shows the answer, if it is an entry's.
fn reply_of(answer: &Result<CallReply<i64>, Refusal>) -> Result<Option<LineReply>, NoMemory>
    ensures shown { IfOk result (λ shown. IsReplyTo (outcome_of answer.now) shown) }
    ensures memory { OnOk result (lacks_memory answer.now ≡ false) }
{
    match answer {
        Ok(reply) => Ok(Some(reply_shown(reply))),
        Err(refusal) => refused(*refusal),
    }
}

/// The listing of a view that was shown, if it is an entry's.
fn listed(
    alloc: Global,
    answer: &Result<View<ByteText, i64>, Refusal>,
) -> Result<Option<LineReply>, NoMemory>
    ensures shown { IfOk result (λ shown. IsReplyTo (answered view_outcome answer.now) shown) }
    ensures memory { OnOk result (lacks_memory answer.now ≡ false) }
{
    match answer {
        Ok(view) => Ok(Some(LineReply::Pairs(listing_of(alloc, view)?))),
        Err(refusal) => refused(*refusal),
    }
}

/// The reply to a job that was closed without an answer, if it is an entry's.
fn closed(answer: &Result<(), Refusal>) -> Result<Option<LineReply>, NoMemory>
    ensures shown { IfOk result (λ shown. IsReplyTo (answered unit_outcome answer.now) shown) }
    ensures memory { OnOk result (lacks_memory answer.now ≡ false) }
{
    match answer {
        Ok(()) => Ok(Some(LineReply::Done)),
        Err(refusal) => refused(*refusal),
    }
}

/// The reply that reports the refusal, if the refusal is an entry's.
fn refused(refusal: Refusal) -> Result<Option<LineReply>, NoMemory>
    ensures shown { IfOk result (λ shown. IsReplyTo (machine.refused refusal) shown) }
    ensures memory { OnOk result (is_want refusal ≡ false) }
{
    match refusal {
        Refusal::NoMemory => Err(NoMemory),
        _ if is_entry(refusal) => Ok(Some(LineReply::Refused(refusal))),
        _ => Ok(None),
    }
}

/// Whether this is the text of the reply, if there is one.
pub fn is_shown_as(alloc: Global, shown: &Option<LineReply>, text: &[u8]) -> Result<bool, NoMemory>
    ensures { IfOk result (λ yes. IsTrue yes ↔ IsShownAs shown.now text.now) }
{
    let Some(reply) = shown else {
        return Ok(false);
    };
    let mut spelled = Vec::new(alloc);
    if push_reply(&mut spelled, reply).is_err() {
        return Err(NoMemory);
    }
    Ok(spelled.as_slice() == text)
}

/// Whether this is the text of an opened job.
fn is_job(alloc: Global, job: u64, text: &[u8]) -> Result<bool, NoMemory>
    ensures { IfOk result (λ yes. IsTrue yes ↔ (text.now ≡ codes "job " ++ decimal job)) }
{
    let spelled = format!(in alloc; "job {job}")?;
    Ok(spelled.as_bytes() == text)
}
