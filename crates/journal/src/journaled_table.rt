//! The table that keeps its journal.
ghost use Rattle.std.specs.Prelude.{◌≡◌, ◌↔◌, ◌≤◌, ◌<◌, ◌+◌, ◌^◌, ◌⊎◌, ◌++◌, ◌∷◌, [], IfErr, IfOk, IfSome, IsErrAnd, IsTrue, MatchResult, OnErr, OnOk, Some, false, filter, vec_capacity, vec_len};
ghost use Rattle.boxcar.specs.Table.{Shows};
ghost use Rattle.bulk_work.specs.Answers as plain;
ghost use Rattle.bulk_work.specs.Summaries.{summary_of};
ghost use Rattle.handles.specs.Machine.{Job, abandon, finish, freeze, let_go, made, nothing, view};
ghost use Rattle.handles.specs.Views.{call_outcome, finished_outcome, frozen_outcome, machine, request_of, view_outcome};
ghost use Rattle.journal.specs.Answers.{IsUnfiled, answered};
ghost use Rattle.journal.specs.Journals.{IsLegal};
ghost use Rattle.journal.specs.Kept.{Files, IsAnothers, WasOpenedBy, is_other, opened_by, opener_at};
ghost use Rattle.journal.specs.Tokens.{AllShown, entries_of};

mod filed_calls;

use crate::caller::Caller;
use crate::filing::{Event, Opened, entered, entered_finish, to_be_filed};
use crate::frozen::{Frozen, beside, close};
use crate::journal_name::{Entries, JournalName, Token};
use bulk_work::{Answer, Asks};
use handles::{Call, CallReply, Limits, MOST_ENTRIES, Outcome, Request, Table};
use hash_path::PathKey;
use std::alloc::Global;
use std::marker::{Model, PhantomData};
use std::sync::{Arc, Wait};
use versions::{MOST_PAIRS, NoMemory, Refusal, View};

/// A table, and the journal that leads to it.
///
/// Each of its calls is one step of the machine and files one entry, or leaves all as it was. Beside each open job
/// stands the token of the freeze that opened it.
///
/// The vector of entries, which is given to each call, is the one that `J` names.
#[derive(Drop)]
pub struct JournaledTable<K: PathKey, V: Eq, Q: Asks<K, V>, J: JournalName> {
    table: Table<K, V, Q>,
    journal: Vec<Token<K, V, Q, Q::Item>>,
    freezes: Vec<Frozen<K, V, Q, Q::Item>>,
    room: PhantomData<J>,
}

impl<K: PathKey, V: Eq, Q: Asks<K, V>, J: JournalName> Model for JournaledTable<K, V, Q, J> {
    ghost use Rattle.bulk_work.specs.Answers as plain;
    ghost use Rattle.handles.specs.Views.{machine};
    ghost use Rattle.journal.specs.Kept.{IsKept, Standing, openers_of};
    ghost use Rattle.journal.specs.Tokens.{entries_of};

    ghost Value = { Standing K V Q (plain.Summary K V Q.Item) };

    ghost view = { λ l. record { state = l.table; journal = entries_of l.journal.items; openers = openers_of l.freezes.items } };

    ghost invariant = { λ l. IsKept (machine K.cmp V.eq Q.target_of Q.answered) J.table l.table l.journal.items l.freezes.items };
}

impl<K: PathKey + Drop, V: Eq + Drop, Q: Asks<K, V> + Drop, J: JournalName> JournaledTable<
    K,
    V,
    Q,
    J,
> {
    /// A table with no handles, and an empty journal.
    pub fn new(alloc: Global, limits: Limits) -> Result<JournaledTable<K, V, Q, J>, NoMemory>
        requires least_pairs { 1 ≤ limits.pairs }
        requires most_pairs { limits.pairs ≤ MOST_PAIRS }
        requires least_entries { 2 ≤ limits.entries }
        requires most_entries { limits.entries ≤ MOST_ENTRIES }
        ensures { IfOk result (λ l. l ≡ record { state = nothing limits; journal = []; openers = [] }) }
    {
        Ok(JournaledTable {
            table: Table::new(alloc, limits)?,
            journal: Vec::new(alloc),
            freezes: Vec::new(alloc),
            room: PhantomData,
        })
    }

    /// The map that the call would release: that of a live handle which it drops or clears. Where the view is kept
    /// until the call was made, the nodes of the map are freed with the view, and not by the call.
    ///
    /// It makes no entry and no request for memory. It is none too where the clone of a handle is refused.
    pub fn discarded_map(&self, call: &Call<K, V>) -> Option<View<K, V>>
        ensures { IfSome result (λ map. let_go self.now.state (request_of call.now) ≡ Some map) }
    {
        self.table.discarded_map(call)
    }

    /// Makes the call, and files it.
    ///
    /// It makes no entry where it is refused as `JournalFull` or `NoMemory`, and leaves all as it was then. It is
    /// refused as `NoMemory` only where no other refusal that is no entry is due.
    pub fn call<R: Wait>(
        &mut self,
        rt: &R,
        alloc: Global,
        entries: &Entries<K, V, Q, Q::Item>,
        caller: Caller,
        call: Call<K, V>,
    ) -> Result<Event<K, V, Q, Q::Item, Result<CallReply<V>, Refusal>>, Refusal>
        requires { entries.now ≡ J.table }
        ensures filed { IfOk result (λ e. Files (machine K.cmp V.eq Q.target_of Q.answered) J.table self.old caller.seat (request_of call) (answered call_outcome e.answer) e.token e.place self.new) }
        ensures shown { IfOk result (λ e. Shows J.table e.token) }
        ensures fits { IfOk result (λ e. e.place + 1 < 2 ^ 64) }
        ensures room { OnOk result (IsTrue caller.has_room) }
        ensures unfiled { IfErr result (λ e. IsUnfiled (machine K.cmp V.eq Q.target_of Q.answered) self.old.state (request_of call) e) }
        ensures err { OnErr result (self.new ≡ self.old) }
    {
        let path = call.path();
        let answer = to_be_filed(self.table.foresee_serve_along(&call, path))?;
        match self.file_call(rt, alloc, entries, caller, call, path, answer) {
            Ok(event) => Ok(event),
            Err(NoMemory) => Err(Refusal::NoMemory),
        }
    }

    /// Shows the map of the handle, and files that.
    ///
    /// It makes no entry where it is refused as `JournalFull` or `NoMemory`, and leaves all as it was then. It is
    /// refused as `NoMemory` only where no other refusal that is no entry is due.
    pub fn view<R: Wait>(
        &mut self,
        rt: &R,
        entries: &Entries<K, V, Q, Q::Item>,
        caller: Caller,
        handle: u32,
    ) -> Result<Event<K, V, Q, Q::Item, Result<View<K, V>, Refusal>>, Refusal>
        requires { entries.now ≡ J.table }
        ensures filed { IfOk result (λ e. Files (machine K.cmp V.eq Q.target_of Q.answered) J.table self.old caller.seat (view handle) (answered view_outcome e.answer) e.token e.place self.new) }
        ensures shown { IfOk result (λ e. Shows J.table e.token) }
        ensures fits { IfOk result (λ e. e.place + 1 < 2 ^ 64) }
        ensures room { OnOk result (IsTrue caller.has_room) }
        ensures unfiled { IfErr result (λ e. IsUnfiled (machine K.cmp V.eq Q.target_of Q.answered) self.old.state (view handle) e) }
        ensures err { OnErr result (self.new ≡ self.old) }
    {
        let answer = to_be_filed(self.table.foresee_view(handle))?;
        match self.file_view(rt, entries, caller, handle, answer) {
            Ok(event) => Ok(event),
            Err(NoMemory) => Err(Refusal::NoMemory),
        }
    }

    /// Opens a job with the query on the handle's map, and files that. The token of its entry stands beside the job,
    /// and is given once more.
    ///
    /// It makes no entry where it is refused as `JournalFull` or `NoMemory`, and leaves all as it was then. It is
    /// refused as `NoMemory` only where no other refusal that is no entry is due.
    pub fn freeze<R: Wait>(
        &mut self,
        rt: &R,
        entries: &Entries<K, V, Q, Q::Item>,
        caller: Caller,
        handle: u32,
        query: Arc<Q>,
    ) -> Result<Opened<K, V, Q, Q::Item>, Refusal>
        requires { entries.now ≡ J.table }
        ensures filed { IfOk result (λ r. Files (machine K.cmp V.eq Q.target_of Q.answered) J.table self.old caller.seat (freeze handle query.value) (answered frozen_outcome r.0.answer) r.0.token r.0.place self.new) }
        ensures shown { IfOk result (λ r. Shows J.table r.0.token × (r.1 ≡ r.0.token)) }
        ensures fits { IfOk result (λ r. r.0.place + 1 < 2 ^ 64) }
        ensures room { OnOk result (IsTrue caller.has_room) }
        ensures unfiled { IfErr result (λ e. IsUnfiled (machine K.cmp V.eq Q.target_of Q.answered) self.old.state (freeze handle query.value) e) }
        ensures err { OnErr result (self.new ≡ self.old) }
    {
        let answer = to_be_filed(self.table.foresee_freeze(handle, &query))?;
        match self.file_freeze(rt, entries, caller, handle, query, answer) {
            Ok(made) => Ok(made),
            Err(NoMemory) => Err(Refusal::NoMemory),
        }
    }

    /// Closes the job without an answer, where it was opened by the entry of this token, and files that.
    ///
    /// It makes no entry where it is refused as `NoJob` or `NoMemory`, and leaves all as it was then. It is refused as
    /// `NoMemory` only where that entry opened the job.
    pub fn abandon<R: Wait>(
        &mut self,
        rt: &R,
        entries: &Entries<K, V, Q, Q::Item>,
        caller: Caller,
        job: u64,
        opener: &Token<K, V, Q, Q::Item>,
    ) -> Result<Event<K, V, Q, Q::Item, ()>, Refusal>
        requires table { entries.now ≡ J.table }
        requires shown { Shows J.table opener.now }
        ensures filed { IfOk result (λ e. Files (machine K.cmp V.eq Q.target_of Q.answered) J.table self.old caller.seat (abandon job) made e.token e.place self.new) }
        ensures shown { IfOk result (λ e. Shows J.table e.token) }
        ensures fits { IfOk result (λ e. e.place + 1 < 2 ^ 64) }
        ensures opened { OnOk result (WasOpenedBy self.old.state job opener.now.value) }
        ensures room { OnOk result (IsTrue caller.has_room) }
        ensures unfiled { IfErr result (λ e. (e ≡ Refusal.NoJob) ⊎ (e ≡ Refusal.NoMemory)) }
        ensures exact { IsErrAnd result (λ e. e ≡ Refusal.NoJob) ↔ IsAnothers self.old job opener.now.index }
        ensures due { IfErr result (λ e. e ≡ Refusal.NoMemory → WasOpenedBy self.old.state job opener.now.value) }
        ensures err { OnErr result (self.new ≡ self.old) }
    {
        if !self.was_opened_by(entries, job, opener) {
            return Err(Refusal::NoJob);
        }
        let (asked, told) = (Request::Abandon(job), Outcome::Abandoned);
        let place = self.journal.len() as u64;
        let journal = &mut self.journal;
        let (token, mine) = entered(rt, entries, journal, caller, asked, told)?;
        // the job is open, so that nothing is refused
        let _ = self.table.abandon(job);
        close(&mut self.freezes, job);
        self.journal.push_reserved(mine);
        Ok(Event {
            token,
            place,
            answer: (),
        })
    }

    /// Closes the job by the part's answer, where it was opened by the entry of this token, and files that.
    ///
    /// It makes no entry where it is refused as `NoJob` or `NoMemory`. It hands the part back then, and leaves all as
    /// it was. It is refused as `NoMemory` only where that entry opened the job.
    pub fn finish<R: Wait>(
        &mut self,
        rt: &R,
        entries: &Entries<K, V, Q, Q::Item>,
        caller: Caller,
        job: u64,
        opener: &Token<K, V, Q, Q::Item>,
        part: Q::Part,
    ) -> Result<Event<K, V, Q, Q::Item, Answer<K, V, Q::Item>>, (Refusal, Q::Part)>
        requires table { entries.now ≡ J.table }
        requires shown { Shows J.table opener.now }
        requires part { (asking : Job K V Q) → opened_by opener.now.value ≡ Some (job, asking) → Q.answers asking.query asking.frozen part }
        ensures filed { IfOk result (λ e. Files (machine K.cmp V.eq Q.target_of Q.answered) J.table self.old caller.seat (finish job) (finished_outcome e.answer) e.token e.place self.new) }
        ensures shown { IfOk result (λ e. Shows J.table e.token) }
        ensures fits { IfOk result (λ e. e.place + 1 < 2 ^ 64) }
        ensures opened { OnOk result (WasOpenedBy self.old.state job opener.now.value) }
        ensures room { OnOk result (IsTrue caller.has_room) }
        ensures told { IfOk result (λ e. summary_of e.answer ≡ plain.summary (Q.answer_of part)) }
        ensures unfiled { IfErr result (λ e. (e.0 ≡ Refusal.NoJob) ⊎ (e.0 ≡ Refusal.NoMemory)) }
        ensures exact { IsErrAnd result (λ e. e.0 ≡ Refusal.NoJob) ↔ IsAnothers self.old job opener.now.index }
        ensures due { IfErr result (λ e. e.0 ≡ Refusal.NoMemory → WasOpenedBy self.old.state job opener.now.value) }
        ensures back { IfErr result (λ e. e.1 ≡ part) }
        ensures err { OnErr result (self.new ≡ self.old) }
    {
        if !self.was_opened_by(entries, job, opener) {
            return Err((Refusal::NoJob, part));
        }
        let place = self.journal.len() as u64;
        let journal = &mut self.journal;
        let entered = entered_finish(rt, entries, &self.table, journal, caller, job, &part);
        let Ok((token, mine)) = entered else {
            return Err((Refusal::NoMemory, part));
        };
        let Ok(answer) = self.table.finish(job, part) else {
            unreachable!();
        };
        close(&mut self.freezes, job);
        self.journal.push_reserved(mine);
        Ok(Event {
            token,
            place,
            answer,
        })
    }

    /// The table and the journal's tokens.
    pub fn into_parts(self) -> (Table<K, V, Q>, Vec<Token<K, V, Q, Q::Item>>)
        ensures shown { AllShown J.table result.1.items }
        ensures legal { IsLegal (machine K.cmp V.eq Q.target_of Q.answered) result.0.limits (entries_of result.1.items) result.0 }
    {
        let JournaledTable {
            table,
            journal,
            freezes: _,
            room: _,
        } = self;
        (table, journal)
    }

    // Whether the open job of the number was opened by the entry of this token.
    fn was_opened_by(
        &self,
        entries: &Entries<K, V, Q, Q::Item>,
        job: u64,
        opener: &Token<K, V, Q, Q::Item>,
    ) -> bool
        requires table { entries.now ≡ J.table }
        requires shown { Shows J.table opener.now }
        ensures opened { IsTrue result → WasOpenedBy self.now.state job opener.now.value }
        ensures here { IsTrue result → opener_at self.now job ≡ Some opener.now.index }
        ensures another { result ≡ false → IsAnothers self.now job opener.now.index }
    {
        let Some(frozen) = beside(&self.freezes, job) else {
            return false;
        };
        if frozen.token.index() != opener.index() {
            return false;
        }
        entries.agrees(&frozen.token, opener);
        true
    }
}

// Puts the token beside the job that was opened, if one was. A number is given once, so no other token is beside it.
fn set_beside<K: PathKey + Drop, V: Drop, Q: Drop, I: Drop>(
    freezes: &mut Vec<Frozen<K, V, Q, I>>,
    answer: &Result<(u64, View<K, V>), Refusal>,
    token: Token<K, V, Q, I>,
)
    requires { vec_len freezes.old < vec_capacity freezes.old }
    ensures { MatchResult answer.now (λ x. freezes.new.items ≡ filter (is_other x.0) freezes.old.items ++ record { number = x.0; token = token } ∷ []) (λ _. freezes.new.items ≡ freezes.old.items) }
{
    let Ok((number, _)) = answer else {
        return;
    };
    close(freezes, *number);
    freezes.push_reserved(Frozen {
        number: *number,
        token,
    });
}
