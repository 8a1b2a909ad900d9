//! Steps as plain values, and how a table makes them.
ghost use Rattle.std.specs.Prelude.{IfOk, IfSome};
ghost use Rattle.handles.specs.Machine.{job_at};

use crate::asking::{Ask, Asked, Asking, ThreeItems, query_of};
use crate::plain_outcome::{
    PlainOutcome, call_outcome_of, finish_outcome, freeze_outcome, unit_outcome, view_outcome,
};
use bulk_ops::Part;
use bulk_work::{Answer, Asks, work};
use combiner::Bulk;
use handles::{Call, Command, Table};
use hash_path::PathKey;
use iter::parts_follow_intervals;
use splitter::whole;
use std::alloc::Global;
use std::sync::Arc;
use test_keys::ChosenKey;
use trie_node::NoMemory;
use versions::{Refusal, View};

/// What is done on one map, at the key of a path word where there is one.
#[derive(Clone, Copy)]
pub enum Act {
    Get(u64),
    Put(u64, i64),
    PutIfAbsent(u64, i64),
    Replace(u64, i64),
    ReplaceIf(u64, i64, i64),
    Remove(u64),
    RemoveIf(u64, i64),
    Size,
    Clear,
}

/// A step as a plain value.
#[derive(Clone, Copy)]
pub enum Do {
    Open(u32),
    Snapshot(u32, u32),
    Drop(u32),
    On(u32, Act),
    View(u32),
    Freeze(u32, Ask),
    Finish(u64),
    Abandon(u64),
}

/// A step that a table can make. A finish works the job first.
#[derive(Drop)]
pub enum Prepared {
    Call(Call<ChosenKey, i64>),
    View(u32),
    Freeze(u32, Arc<Asked>),
    Finish(u64),
    Abandon(u64),
}

// The key of a path word.
fn key_of(alloc: Global, path: u64) -> Result<Arc<ChosenKey>, NoMemory> {
    Ok(Arc::new(alloc, ChosenKey { path, id: 0 })?)
}

fn value_of(alloc: Global, value: i64) -> Result<Arc<i64>, NoMemory> {
    Ok(Arc::new(alloc, value)?)
}

/// The command of what is done.
pub fn command_of(alloc: Global, act: Act) -> Result<Command<ChosenKey, i64>, NoMemory> {
    Ok(match act {
        Act::Get(key) => Command::Get(key_of(alloc, key)?),
        Act::Put(key, value) => Command::Put(key_of(alloc, key)?, value_of(alloc, value)?),
        Act::PutIfAbsent(key, value) => {
            Command::PutIfAbsent(key_of(alloc, key)?, value_of(alloc, value)?)
        }
        Act::Replace(key, value) => Command::Replace(key_of(alloc, key)?, value_of(alloc, value)?),
        Act::ReplaceIf(key, old, value) => {
            let (old, value) = (value_of(alloc, old)?, value_of(alloc, value)?);
            Command::ReplaceIf(key_of(alloc, key)?, old, value)
        }
        Act::Remove(key) => Command::Remove(key_of(alloc, key)?),
        Act::RemoveIf(key, value) => {
            Command::RemoveIf(key_of(alloc, key)?, value_of(alloc, value)?)
        }
        Act::Size => Command::Size,
        Act::Clear => Command::Clear,
    })
}

/// The step of a plain one.
pub fn step_of(alloc: Global, what: Do) -> Result<Prepared, NoMemory> {
    Ok(match what {
        Do::Open(handle) => Prepared::Call(Call::Open(handle)),
        Do::Snapshot(handle, to) => Prepared::Call(Call::Snapshot(handle, to)),
        Do::Drop(handle) => Prepared::Call(Call::Drop(handle)),
        Do::On(handle, act) => Prepared::Call(Call::On(handle, command_of(alloc, act)?)),
        Do::View(handle) => Prepared::View(handle),
        Do::Freeze(handle, ask) => Prepared::Freeze(handle, Arc::new(alloc, query_of(ask))?),
        Do::Finish(job) => Prepared::Finish(job),
        Do::Abandon(job) => Prepared::Abandon(job),
    })
}

/// The part of the whole view. The query's closures may be called on every pair.
pub fn worked(
    alloc: Global,
    view: &View<ChosenKey, i64>,
    query: &Asked,
) -> Result<Part<ChosenKey, i64, ThreeItems>, NoMemory>
    ensures { IfOk result (λ part. ⟦<Asked as Bulk<ChosenKey, i64>>⟧.answers query.now view.now part) }
{
    parts_follow_intervals::<ChosenKey, i64>();
    let piece = whole(alloc, view.try_clone()?);
    work(alloc, &piece, query)
}

/// A part that answers the job for the map of its freeze, or any where no such job is open.
pub fn part_of(
    alloc: Global,
    table: &Asking,
    job: u64,
) -> Result<Part<ChosenKey, i64, ThreeItems>, NoMemory>
    ensures { IfOk result (λ part. IfSome (job_at table.now job) (λ asking. ⟦<Asked as Bulk<ChosenKey, i64>>⟧.answers asking.query asking.frozen part)) }
{
    match table.open_job(job) {
        Some((query, view)) => worked(alloc, view, query),
        None => Ok(Part::Number(0)),
    }
}

/// Finishes the job, where it is open by a part that answers it.
pub fn close<K: PathKey + Drop, V: Eq + Drop, Q: Asks<K, V> + Drop>(
    table: &mut Table<K, V, Q>,
    job: u64,
    part: Q::Part,
) -> Result<Answer<K, V, Q::Item>, Refusal>
    requires { IfSome (job_at table.old job) (λ asking. Q.answers asking.query asking.frozen part) }
{
    table.finish(job, part)
}

// Works the job and finishes it.
fn finish(
    alloc: Global,
    table: &mut Asking,
    job: u64,
) -> Result<Answer<ChosenKey, i64, ThreeItems>, Refusal> {
    let part = part_of(alloc, table, job)?;
    close(table, job, part)
}

// Makes the call, which shares its key and values.
fn serve(alloc: Global, table: &mut Asking, call: &Call<ChosenKey, i64>) -> PlainOutcome {
    match call.try_clone::<Asked>() {
        Ok(call) => call_outcome_of(&table.serve(alloc, call)),
        Err(_) => PlainOutcome::Refused(Refusal::NoMemory),
    }
}

// Opens a job with the query.
fn freeze(table: &mut Asking, handle: u32, query: &Arc<Asked>) -> PlainOutcome {
    match Arc::try_clone(query) {
        Ok(query) => freeze_outcome(&table.freeze(handle, query)),
        Err(_) => PlainOutcome::Refused(Refusal::NoMemory),
    }
}

/// Makes the step. But for a finish, which works the job, it asks for no memory but what the table asks for, and gives
/// none back.
pub fn take(alloc: Global, table: &mut Asking, step: &Prepared) -> PlainOutcome {
    match step {
        Prepared::Call(call) => serve(alloc, table, call),
        Prepared::View(handle) => view_outcome(&table.view(*handle)),
        Prepared::Freeze(handle, query) => freeze(table, *handle, query),
        Prepared::Finish(job) => finish_outcome(&finish(alloc, table, *job)),
        Prepared::Abandon(job) => unit_outcome(table.abandon(*job)),
    }
}
