//! How an event is filed: what was foreseen, the entry's token, and what the event gives.
ghost use Rattle.std.specs.Prelude.{◌≡◌, ◌<◌, Err, IfErr, IfOk, IsTrue, OnOk, Some, true, false, vec_capacity, vec_len};
ghost use Rattle.boxcar.specs.Table.{Shows};
ghost use Rattle.bulk_work.specs.Answers as plain;
ghost use Rattle.handles.specs.Machine.{Job, finish, finished, freeze, is_entry, job_at, view};
ghost use Rattle.handles.specs.Views.{asked_of, call_outcome, frozen_outcome, is_counted, request_of, told_of, view_outcome};
ghost use Rattle.journal.specs.Answers.{answered};
ghost use Rattle.journal.specs.Tokens.{entry_at};

use crate::caller::Caller;
use crate::entry::Entry;
use crate::frozen::Frozen;
use crate::journal_name::{Entries, Token};
use crate::outcomes::{outcome_of_call, outcome_of_freeze, outcome_of_view};
use bulk_work::Asks;
use handles::{Call, CallReply, Outcome, Request, Table, is_entry};
use hash_path::PathKey;
use std::sync::{Arc, Wait};
use versions::{NoMemory, Refusal, View};

/// An event that was made and filed: the token of its entry, the entry's place in the journal, and what is returned.
#[derive(Drop)]
pub struct Event<K: PathKey, V, Q, I, A> {
    pub token: Token<K, V, Q, I>,
    pub place: u64,
    pub answer: A,
}

/// A freeze that was made and filed, and the token of its entry once more.
pub type Opened<K, V, Q, I> = (
    Event<K, V, Q, I, Result<(u64, View<K, V>), Refusal>>,
    Token<K, V, Q, I>,
);

/// What was foreseen, where it makes an entry.
pub(crate) fn to_be_filed<T: Drop>(
    foreseen: Result<T, Refusal>,
) -> Result<Result<T, Refusal>, Refusal>
    ensures ok { IfOk result (λ answer. (answer ≡ foreseen) × (is_counted answer ≡ true)) }
    ensures err { IfErr result (λ refusal. (foreseen ≡ Err refusal) × (is_entry refusal ≡ false)) }
{
    match foreseen {
        Ok(value) => Ok(Ok(value)),
        Err(refusal) => {
            if is_entry(refusal) {
                Ok(Err(refusal))
            } else {
                Err(refusal)
            }
        }
    }
}

/// The token of an entry, for the journal and for the seat.
pub(crate) type Twice<K, V, Q, I> = (Token<K, V, Q, I>, Token<K, V, Q, I>);

/// Places the entry of what the caller asked and what was returned, and returns its token twice, with room for one in
/// the journal.
pub(crate) fn entered<K: PathKey + Drop, V: Drop, Q: Drop, I: Drop, R: Wait>(
    rt: &R,
    entries: &Entries<K, V, Q, I>,
    journal: &mut Vec<Token<K, V, Q, I>>,
    caller: Caller,
    asked: Request<K, V, Q>,
    told: Outcome<K, V, I>,
) -> Result<Twice<K, V, Q, I>, NoMemory>
    ensures room { OnOk result (IsTrue caller.has_room) }
    ensures spare { OnOk result (vec_len journal.new < vec_capacity journal.new) }
    ensures items { journal.new.items ≡ journal.old.items }
    ensures shown { IfOk result (λ r. Shows entries.now r.0) }
    ensures entry { IfOk result (λ r. entry_at r.0 ≡ record { seat = caller.seat; request = asked_of asked; outcome = told_of told }) }
    ensures same { IfOk result (λ r. r.1 ≡ r.0) }
{
    let Ok(()) = caller.room() else {
        drop(asked);
        drop(told);
        return Err(NoMemory);
    };
    let Ok(()) = journal.reserve(1) else {
        drop(asked);
        drop(told);
        return Err(NoMemory);
    };
    let entry = Entry::new(caller.seat, asked, told);
    match entries.push_shown(rt, entry) {
        Ok(token) => {
            let again = token.again();
            Ok((token, again))
        }
        Err(entry) => {
            drop(entry);
            Err(NoMemory)
        }
    }
}

/// Places the entry of a call that returns this, and gives its token twice, with room for one in the journal.
pub(crate) fn entered_call<K: PathKey + Drop, V: Drop, Q: Drop, I: Drop, R: Wait>(
    rt: &R,
    entries: &Entries<K, V, Q, I>,
    journal: &mut Vec<Token<K, V, Q, I>>,
    caller: Caller,
    call: &Call<K, V>,
    answer: &Result<CallReply<V>, Refusal>,
) -> Result<Twice<K, V, Q, I>, NoMemory>
    ensures room { OnOk result (IsTrue caller.has_room) }
    ensures spare { OnOk result (vec_len journal.new < vec_capacity journal.new) }
    ensures items { journal.new.items ≡ journal.old.items }
    ensures shown { IfOk result (λ r. Shows entries.now r.0) }
    ensures entry { IfOk result (λ r. entry_at r.0 ≡ record { seat = caller.seat; request = request_of call.now; outcome = answered call_outcome answer.now }) }
    ensures same { IfOk result (λ r. r.1 ≡ r.0) }
{
    let told = outcome_of_call(answer)?;
    let Ok(copy) = call.try_clone::<Q>() else {
        drop(told);
        return Err(NoMemory);
    };
    entered(rt, entries, journal, caller, Request::Call(copy), told)
}

/// Places the entry of a view that returns this, and gives its token twice, with room for one in the journal.
pub(crate) fn entered_view<K: PathKey + Drop, V: Drop, Q: Drop, I: Drop, R: Wait>(
    rt: &R,
    entries: &Entries<K, V, Q, I>,
    journal: &mut Vec<Token<K, V, Q, I>>,
    caller: Caller,
    handle: u32,
    answer: &Result<View<K, V>, Refusal>,
) -> Result<Twice<K, V, Q, I>, NoMemory>
    ensures room { OnOk result (IsTrue caller.has_room) }
    ensures spare { OnOk result (vec_len journal.new < vec_capacity journal.new) }
    ensures items { journal.new.items ≡ journal.old.items }
    ensures shown { IfOk result (λ r. Shows entries.now r.0) }
    ensures entry { IfOk result (λ r. entry_at r.0 ≡ record { seat = caller.seat; request = view handle; outcome = answered view_outcome answer.now }) }
    ensures same { IfOk result (λ r. r.1 ≡ r.0) }
{
    let told = outcome_of_view(answer)?;
    entered(rt, entries, journal, caller, Request::View(handle), told)
}

/// Places the entry of a freeze that returns this, and gives its token twice, with room for one in the journal and
/// beside the jobs.
pub(crate) fn entered_freeze<K: PathKey + Drop, V: Drop, Q: Drop, I: Drop, R: Wait>(
    rt: &R,
    entries: &Entries<K, V, Q, I>,
    journal: &mut Vec<Token<K, V, Q, I>>,
    freezes: &mut Vec<Frozen<K, V, Q, I>>,
    caller: Caller,
    handle: u32,
    query: &Arc<Q>,
    answer: &Result<(u64, View<K, V>), Refusal>,
) -> Result<Twice<K, V, Q, I>, NoMemory>
    ensures room { OnOk result (IsTrue caller.has_room) }
    ensures spare { OnOk result (vec_len journal.new < vec_capacity journal.new) }
    ensures beside { OnOk result (vec_len freezes.new < vec_capacity freezes.new) }
    ensures items { journal.new.items ≡ journal.old.items }
    ensures freezes { freezes.new.items ≡ freezes.old.items }
    ensures shown { IfOk result (λ r. Shows entries.now r.0) }
    ensures entry { IfOk result (λ r. entry_at r.0 ≡ record { seat = caller.seat; request = freeze handle query.now.value; outcome = answered frozen_outcome answer.now }) }
    ensures same { IfOk result (λ r. r.1 ≡ r.0) }
{
    freezes.reserve(1)?;
    let query = Arc::try_clone(query)?;
    let Ok(told) = outcome_of_freeze(answer) else {
        drop(query);
        return Err(NoMemory);
    };
    entered(
        rt,
        entries,
        journal,
        caller,
        Request::Freeze(handle, query),
        told,
    )
}

/// Places the entry of a finish by the part, and gives its token twice, with room for one in the journal.
pub(crate) fn entered_finish<K: PathKey + Drop, V: Eq + Drop, Q: Asks<K, V> + Drop, R: Wait>(
    rt: &R,
    entries: &Entries<K, V, Q, Q::Item>,
    table: &Table<K, V, Q>,
    journal: &mut Vec<Token<K, V, Q, Q::Item>>,
    caller: Caller,
    job: u64,
    part: &Q::Part,
) -> Result<Twice<K, V, Q, Q::Item>, NoMemory>
    requires { (asking : Job K V Q) → job_at table.now job ≡ Some asking → Q.answers asking.query asking.frozen part.now }
    ensures room { OnOk result (IsTrue caller.has_room) }
    ensures spare { OnOk result (vec_len journal.new < vec_capacity journal.new) }
    ensures items { journal.new.items ≡ journal.old.items }
    ensures shown { IfOk result (λ r. Shows entries.now r.0) }
    ensures entry { IfOk result (λ r. entry_at r.0 ≡ record { seat = caller.seat; request = finish job; outcome = finished (plain.summary (Q.answer_of part.now)) }) }
    ensures same { IfOk result (λ r. r.1 ≡ r.0) }
{
    // the job is open: only memory can run out
    let Ok(answer) = table.foresee_finish(job, part) else {
        return Err(NoMemory);
    };
    let (asked, told) = (Request::Finish(job), Outcome::Answer(answer));
    entered(rt, entries, journal, caller, asked, told)
}
