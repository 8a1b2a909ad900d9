//! Calls on a table with its journal.
ghost use Rattle.std.specs.Prelude.{◌≡◌, IfOk, OnOk};
ghost use Rattle.boxcar.specs.Table.{Shows};
ghost use Rattle.handles.specs.Views.{call_outcome, machine, request_of};
ghost use Rattle.journal.specs.Answers.{answered};
ghost use Rattle.journal.specs.Kept.{Files, WasOpenedBy};

use bulk_work::Asks;
use handles::{Call, CallReply};
use hash_path::PathKey;
use journal::{Caller, Entries, Event, JournalName, JournaledTable, Token};
use std::alloc::Global;
use std::sync::Wait;
use versions::Refusal;

/// Makes the call, and files it.
pub fn filed<K: PathKey + Drop, V: Eq + Drop, Q: Asks<K, V> + Drop, J: JournalName, R: Wait>(
    table: &mut JournaledTable<K, V, Q, J>,
    rt: &R,
    alloc: Global,
    entries: &Entries<K, V, Q, Q::Item>,
    caller: Caller,
    call: Call<K, V>,
) -> Result<Event<K, V, Q, Q::Item, Result<CallReply<V>, Refusal>>, Refusal>
    requires { entries.now ≡ J.table }
    ensures { IfOk result (λ e. Files (machine K.cmp V.eq Q.target_of Q.answered) J.table table.old caller.seat (request_of call) (answered call_outcome e.answer) e.token e.place table.new) }
{
    table.call(rt, alloc, entries, caller, call)
}

/// Closes the job without an answer, where it was opened by the entry of this token. `other` is the token of another entry.
pub fn abandoned<K: PathKey + Drop, V: Eq + Drop, Q: Asks<K, V> + Drop, J: JournalName, R: Wait>(
    table: &mut JournaledTable<K, V, Q, J>,
    rt: &R,
    entries: &Entries<K, V, Q, Q::Item>,
    caller: Caller,
    job: u64,
    opener: &Token<K, V, Q, Q::Item>,
    other: &Token<K, V, Q, Q::Item>,
) -> Result<(), Refusal>
    requires table { entries.now ≡ J.table }
    requires opener { Shows J.table opener.now }
    requires other { Shows J.table other.now }
    ensures { OnOk result (WasOpenedBy table.old.state job opener.now.value) }
{
    let _ = other;
    table.abandon(rt, entries, caller, job, opener)?;
    Ok(())
}
