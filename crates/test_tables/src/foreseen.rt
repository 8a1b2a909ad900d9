//! What the twins of calls foresee, and calls that are made as they were foreseen.
ghost use Rattle.std.specs.Prelude.{◌≡◌};
ghost use Rattle.handles.specs.Views.{is_counted};

use crate::asking::{Asked, Asking};
use crate::plain_outcome::{
    PlainOutcome, call_outcome_of, freeze_outcome, unit_outcome, view_outcome,
};
use crate::steps::Prepared;
use bulk_work::Asks;
use handles::{Call, CallReply, Table};
use hash_path::PathKey;
use std::alloc::Global;
use versions::Refusal;

/// What the step's twin answers. None of them finishes a job.
pub fn foresee(table: &Asking, step: &Prepared) -> PlainOutcome {
    match step {
        Prepared::Call(call) => call_outcome_of(&table.foresee_serve(call)),
        Prepared::View(handle) => view_outcome(&table.foresee_view(*handle)),
        Prepared::Freeze(handle, query) => freeze_outcome(&table.foresee_freeze(*handle, &**query)),
        Prepared::Finish(_) => PlainOutcome::Refused(Refusal::NoJob),
        Prepared::Abandon(job) => unit_outcome(table.foresee_abandon(*job)),
    }
}

// Whether a call that is answered so is an entry.
fn is_counted<T>(answer: &Result<T, Refusal>) -> bool
    ensures { result ≡ is_counted answer.now }
{
    !matches!(
        answer,
        Err(Refusal::NoJob | Refusal::Unfinished | Refusal::JournalFull | Refusal::NoMemory)
    )
}

// Makes the call as it is foreseen to be answered, where that is an entry.
fn served<K: PathKey + Drop, V: Eq + Drop, Q: Asks<K, V> + Drop>(
    alloc: Global,
    table: &mut Table<K, V, Q>,
    call: Call<K, V>,
) -> Result<CallReply<V>, Refusal> {
    let path = call.path();
    let answer = table.foresee_serve_along(&call, path);
    if is_counted(&answer) {
        table.serve_foreseen(alloc, call, path, &answer)?;
    }
    answer
}

/// Makes a call so, which shares its key and values. No other step is made.
pub fn take_foreseen(alloc: Global, table: &mut Asking, step: &Prepared) -> PlainOutcome {
    let Prepared::Call(call) = step else {
        return PlainOutcome::Refused(Refusal::NoJob);
    };
    match call.try_clone::<Asked>() {
        Ok(call) => call_outcome_of(&served(alloc, table, call)),
        Err(_) => PlainOutcome::Refused(Refusal::NoMemory),
    }
}
