//! The events of statements: what a client asks of the map for each, and what is returned.

ghost use Rattle.std.specs.Prelude.{◌≡◌, IfOk, None, OnErr, OnOk, Some, false, true};
ghost use Rattle.std.specs.Arc.{arc_value};
ghost use Rattle.handles.specs.Machine.{freeze, is_entry, job_of, view};
ghost use Rattle.handles.specs.Views.{asked_of, is_counted, outcome_of, request_of};
ghost use Rattle.questions.specs.Program.{reply_to};
ghost use Rattle.batch_cli.specs.CommandLine.{AreInRange};
ghost use Rattle.batch_cli.specs.Filing.{FilesAnswer, FilesOrElse, FilesReply, FilesService};

use handles::{Call, CallReply, Request, is_entry};
use keys::ByteText;
use locked_map::{JournalName, Seat, SharedMap};
use questions::{ScriptQuery, ScriptRequest, listing_of, reply_shown, reply_to_answer, request_of};
use script::{LineReply, Statement};
use std::alloc::Global;
use std::sync::{Arc, Wait};
use std::thread::Threads;
use task_pool::{Crew, Free};
use versions::{NoMemory, Refusal};

/// The map of a program: its keys are the texts of a script's keys, and it is asked a script's questions.
pub type ProgramMap<J> = SharedMap<ByteText, i64, ScriptQuery, J>;

/// The seat of a client of that map.
pub type ProgramSeat<J> = Seat<ByteText, i64, ScriptQuery, J>;

/// Makes the events of the statement, and gives the reply of its line.
pub fn answer<J: JournalName, R: Threads + Wait + Sync>(
    rt: &R,
    alloc: Global,
    map: &ProgramMap<J>,
    seat: &mut ProgramSeat<J>,
    crew: Crew,
    statement: &Statement,
) -> Result<LineReply, NoMemory>
    requires crew { AreInRange crew.workers crew.grain }
    ensures { IfOk result (λ reply. FilesAnswer seat.old statement.now reply seat.new) }
{
    match statement {
        Statement::GetOrElse { handle, key, value } => {
            found_or_stored(rt, map, seat, *handle, key.text()?, *value)
        }
        _ => {
            let request = request_of(alloc, statement)?;
            requested(rt, alloc, map, seat, crew, request)
        }
    }
}

/// Makes the events of the request, and returns the reply that shows the outcome of the last one.
fn requested<J: JournalName, R: Threads + Wait + Sync>(
    rt: &R,
    alloc: Global,
    map: &ProgramMap<J>,
    seat: &mut ProgramSeat<J>,
    crew: Crew,
    request: ScriptRequest,
) -> Result<LineReply, NoMemory>
    requires crew { AreInRange crew.workers crew.grain }
    requires no_job { job_of (asked_of request) ≡ None }
    ensures { IfOk result (λ reply. FilesService seat.old (asked_of request) reply seat.new) }
{
    match request {
        Request::Call(call) => served(rt, map, seat, call),
        Request::View(handle) => listed(rt, alloc, map, seat, handle),
        Request::Freeze(handle, query) => worked(rt, map, seat, crew, handle, query),
        Request::Finish(_) | Request::Abandon(_) => unreachable!(),
    }
}

/// Makes the call, and returns the reply that shows what it returned.
fn served<J: JournalName, R: Wait>(
    rt: &R,
    map: &ProgramMap<J>,
    seat: &mut ProgramSeat<J>,
    call: Call<ByteText, i64>,
) -> Result<LineReply, NoMemory>
    ensures { IfOk result (λ reply. FilesReply seat.old (request_of call) reply seat.new) }
{
    let answer = map.call(rt, seat, call);
    let reply = reply_of(&answer);
    drop(answer);
    reply
}

/// Views the map of the handle, and gives the reply that lists its pairs.
fn listed<J: JournalName, R: Wait>(
    rt: &R,
    alloc: Global,
    map: &ProgramMap<J>,
    seat: &mut ProgramSeat<J>,
    handle: u32,
) -> Result<LineReply, NoMemory>
    ensures { IfOk result (λ reply. FilesReply seat.old (view handle) reply seat.new) }
{
    match map.view(rt, seat, handle) {
        Ok(view) => Ok(LineReply::Pairs(listing_of(alloc, &view)?)),
        Err(refusal) => refused(refusal),
    }
}

/// Asks the query of the map of the handle as it stands, which a crew works with no lock held, and returns the reply
/// that reports the answer.
///
/// A ticket comes back with `NoMemory`, which ends the run. Its job stays open.
fn worked<J: JournalName, R: Threads + Wait + Sync>(
    rt: &R,
    map: &ProgramMap<J>,
    seat: &mut ProgramSeat<J>,
    crew: Crew,
    handle: u32,
    query: Arc<ScriptQuery>,
) -> Result<LineReply, NoMemory>
    requires crew { AreInRange crew.workers crew.grain }
    ensures { IfOk result (λ reply. FilesService seat.old (freeze handle (arc_value query)) reply seat.new) }
{
    match map.bulk(rt, seat, handle, query, crew, &Free) {
        Ok(answer) => Ok(reply_to_answer(answer)),
        Err((refusal, ticket)) => {
            drop(ticket);
            refused(refusal)
        }
    }
}

/// Asks for the value of the key, stores this one where there is none, and returns the reply that reports the value
/// that the key has then.
fn found_or_stored<J: JournalName, R: Wait>(
    rt: &R,
    map: &ProgramMap<J>,
    seat: &mut ProgramSeat<J>,
    handle: u32,
    key: Arc<ByteText>,
    value: i64,
) -> Result<LineReply, NoMemory>
    ensures { IfOk result (λ reply. FilesOrElse seat.old handle (arc_value key) value reply seat.new) }
{
    let make = move || -> i64
        ensures { result ≡ value }
    { value };
    match map.get_or_else_update(rt, seat, handle, key, make) {
        Ok(value) => Ok(found(&value)),
        Err(refusal) => refused(refusal),
    }
}

/// The reply that reports the value.
fn found(value: &Arc<i64>) -> LineReply
    ensures { result ≡ LineReply.Found value.now.value }
{
    LineReply::Found(**value)
}

/// The reply that shows the answer, if it is an entry of the journal.
fn reply_of(answer: &Result<CallReply<i64>, Refusal>) -> Result<LineReply, NoMemory>
    ensures shown { IfOk result (λ reply. reply_to (outcome_of answer.now) ≡ Some reply) }
    ensures filed { OnOk result (is_counted answer.now ≡ true) }
    ensures unfiled { OnErr result (is_counted answer.now ≡ false) }
{
    match answer {
        Ok(reply) => Ok(reply_shown(reply)),
        Err(refusal) => refused(*refusal),
    }
}

/// The reply that reports the refusal, if it is an entry of the journal.
///
/// Other refusals than `NoMemory` are never met here: a script is too short to fill the journal, and each job is closed
/// once, by the client that opened it.
fn refused(refusal: Refusal) -> Result<LineReply, NoMemory>
    ensures shown { IfOk result (λ reply. reply ≡ LineReply.Refused refusal) }
    ensures filed { OnOk result (is_entry refusal ≡ true) }
    ensures unfiled { OnErr result (is_entry refusal ≡ false) }
{
    if !is_entry(refusal) {
        return Err(NoMemory);
    }
    Ok(LineReply::Refused(refusal))
}
