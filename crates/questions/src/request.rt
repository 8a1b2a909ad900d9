//! What statements ask of the map.

ghost use Rattle.std.specs.Prelude.{◌≡◌, IfOk, None, true};
ghost use Rattle.std.specs.Arc.{arc_value};
ghost use Rattle.questions.specs.Program.{request_for};
ghost use Rattle.handles.specs.Machine.{freeze, is_freeze, job_of, on};
ghost use Rattle.handles.specs.Views.{asked_of, command_of};

use crate::query::ScriptQuery;
use arguments::Key;
use handles::{Call, Command, Request};
use keys::ByteText;
use script::Statement;
use std::alloc::{AllocError, Global};
use std::sync::Arc;
use versions::NoMemory;

/// What the table of a program is asked.
pub type ScriptRequest = Request<ByteText, i64, ScriptQuery>;

/// The request of the statement, which closes no job. Of `getorelse`, which may make two, and of a bulk verb, whose job
/// is to be finished, it is the first.
pub fn request_of(alloc: Global, statement: &Statement) -> Result<ScriptRequest, NoMemory>
    ensures request { IfOk result (λ request. asked_of request ≡ request_for statement.now) }
    ensures no_job { IfOk result (λ request. job_of (asked_of request) ≡ None) }
{
    Ok(match statement {
        Statement::Open { handle } => Request::Call(Call::Open(*handle)),
        Statement::Snap { handle, to } => Request::Call(Call::Snapshot(*handle, *to)),
        Statement::Drop { handle } => Request::Call(Call::Drop(*handle)),
        Statement::Get { handle, key } | Statement::GetOrElse { handle, key, .. } => {
            on(handle, Command::Get(key.text()?))
        }
        Statement::Put { handle, key, value } => {
            let (key, value) = pair(alloc, key, value)?;
            on(handle, Command::Put(key, value))
        }
        Statement::PutIfAbsent { handle, key, value } => {
            let (key, value) = pair(alloc, key, value)?;
            on(handle, Command::PutIfAbsent(key, value))
        }
        Statement::Replace { handle, key, value } => {
            let (key, value) = pair(alloc, key, value)?;
            on(handle, Command::Replace(key, value))
        }
        Statement::ReplaceIf {
            handle,
            key,
            old,
            new,
        } => {
            let (key, old) = pair(alloc, key, old)?;
            let Ok(new) = Arc::new(alloc, *new) else {
                drop(key);
                drop(old);
                return Err(NoMemory);
            };
            on(handle, Command::ReplaceIf(key, old, new))
        }
        Statement::Remove { handle, key } => on(handle, Command::Remove(key.text()?)),
        Statement::RemoveIf { handle, key, value } => {
            let (key, value) = pair(alloc, key, value)?;
            on(handle, Command::RemoveIf(key, value))
        }
        Statement::Size { handle } => on(handle, Command::Size),
        Statement::Clear { handle } => on(handle, Command::Clear),
        Statement::Pairs { handle } => Request::View(*handle),
        _ => job_for(alloc, statement)?,
    })
}

/// The job of the statement, whose verb is a bulk verb.
fn job_for(alloc: Global, statement: &Statement) -> Result<ScriptRequest, AllocError>
    requires { is_freeze (request_for statement.now) ≡ true }
    ensures request { IfOk result (λ request. asked_of request ≡ request_for statement.now) }
    ensures no_job { IfOk result (λ request. job_of (asked_of request) ≡ None) }
{
    match statement {
        Statement::Count { handle, test } => job(alloc, handle, ScriptQuery::count(test)?),
        Statement::Exists { handle, test } => job(alloc, handle, ScriptQuery::exists(test)?),
        Statement::ForAll { handle, test } => job(alloc, handle, ScriptQuery::for_all(test)?),
        Statement::Find { handle, test } => job(alloc, handle, ScriptQuery::find(test)?),
        Statement::Filter { handle, test, to } => {
            job(alloc, handle, ScriptQuery::filter(test, *to)?)
        }
        Statement::MapValues { handle, map, to } => job(alloc, handle, ScriptQuery::map(*map, *to)),
        Statement::MapPairs { handle, map, to } => {
            job(alloc, handle, ScriptQuery::map_pairs(alloc, map, *to)?)
        }
        Statement::Fold { handle, folding } => job(alloc, handle, ScriptQuery::fold(*folding)),
        _ => unreachable!(),
    }
}

/// The command on the handle.
fn on(handle: &u32, command: Command<ByteText, i64>) -> ScriptRequest
    ensures request { asked_of result ≡ on handle.now (command_of command) }
    ensures no_job { job_of (asked_of result) ≡ None }
{
    Request::Call(Call::On(*handle, command))
}

/// The job of the query on the handle.
fn job(alloc: Global, handle: &u32, query: ScriptQuery) -> Result<ScriptRequest, AllocError>
    ensures request { IfOk result (λ request. asked_of request ≡ freeze handle.now query) }
    ensures no_job { IfOk result (λ request. job_of (asked_of request) ≡ None) }
{
    Ok(Request::Freeze(*handle, Arc::new(alloc, query)?))
}

/// The key and the value, to be a pair of a map.
fn pair(alloc: Global, key: &Key, value: &i64) -> Result<(Arc<ByteText>, Arc<i64>), AllocError>
    ensures key { IfOk result (λ pair. arc_value pair.0 ≡ key.now) }
    ensures value { IfOk result (λ pair. arc_value pair.1 ≡ value.now) }
{
    let value = Arc::new(alloc, *value)?;
    match key.text() {
        Ok(key) => Ok((key, value)),
        Err(wanting) => {
            drop(value);
            Err(wanting)
        }
    }
}
