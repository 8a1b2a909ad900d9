//! The table of handles.
ghost use Rattle.std.specs.Prelude.{◌≡◌, ◌+◌, ◌<◌, ◌≤◌, ◌*◌, ◌^◌, IfOk, IfSome, OnErr, Some, option_map, if◌then◌else◌, false, true};
ghost use Rattle.bulk_work.specs.Answers as plain;
ghost use Rattle.bulk_work.specs.Summaries.{summary_of};
ghost use Rattle.handles.specs.Handles.{IsKept, live_from, maps_in};
ghost use Rattle.handles.specs.Machine.{IsRunOfSome, Job, Run, abandon, drop_handle, finish, freeze, job_at, let_go, nothing, on, open_handle, snapshot, view};
ghost use Rattle.handles.specs.Views.{AnswersWithoutMemory, IsDue, IsStep, call_outcome, command_of, finished_outcome, frozen_outcome, is_counted, lacks_memory, machine, outcomes_of, reply_outcome, request_of, requests_of, unit_outcome, view_outcome};

use crate::call::Call;
use crate::call_reply::CallReply;
use crate::entries::{is_counted, lacks_memory};
use crate::jobs::Jobs;
use crate::limits::{Limits, MOST_ENTRIES};
use crate::no_query::NoQuery;
use crate::request_ref::RequestRef;
use bulk_work::{Answer, Asks};
use hash_path::PathKey;
use held_maps::{Command, Places, Reply};
use std::alloc::Global;
use std::marker::Model;
use std::sync::Arc;
use versions::{MOST_PAIRS, NoMemory, Refusal, Version, View};

mod ends;
mod foreseen;
mod foresight;
mod granted;
mod refusals;

use ends::{close_job, open_job};

/// Maps under handle numbers from 0 to 1023, and up to 64 open jobs. It has one owner, and takes no lock.
///
/// <!-- quoted from crates/example_registry/src/tables.rt -->
/// ```rust
/// table.open(alloc, LIVE)?;
/// let put = Command::Put(Arc::try_clone(billing)?, at(alloc, "10.0.0.9", 8443)?);
/// table.call(alloc, LIVE, put)?;
/// table.snapshot(LIVE, AUDIT)?;
/// ```
///
/// A job asks a query of a handle's map as it stood at its freeze: `freeze` opens the job and shows the map, the query
/// is worked over that, and `finish` closes the job by the part that was worked. A query may reserve the number of a
/// handle that is not live, its target: `finish` opens it with the map that the part made.
///
/// Each call but `entries` and `places` is one step of the machine. Where several refusals are due, the first of this
/// order is returned: `JournalFull`, `BadNumber`, `NoHandle`, `NoJob`, `Taken`, `TooManyJobs`, `Full`. A refusal that
/// is due is returned even if memory runs out. After any refusal all handles and jobs are as before. Each call is one
/// entry of the journal, unless it is refused as `NoJob`, `JournalFull` or `NoMemory`. The journal keeps room for the
/// ends of the open jobs.
///
/// n is the number of pairs of the handle's map, and O(log n) the way down its trie.
#[derive(Drop)]
pub struct Table<K: PathKey, V, Q: Asks<K, V> = NoQuery> {
    limits: Limits,
    places: Places<K, V>,
    jobs: Jobs<K, V, Q>,
    entries: u32,
}

impl<K: PathKey, V, Q: Asks<K, V>> Model for Table<K, V, Q> {
    ghost use Rattle.std.specs.Prelude.{◌≡◌, ◌≤◌, ◌*◌, ◌+◌, length};
    ghost use Rattle.handles.specs.Jobs.{AllCanFinish};
    ghost use Rattle.handles.specs.Machine.{State};

    ghost Value = { State K V Q };

    ghost view = { λ t. record { limits = t.limits; live = t.places.live; jobs = t.jobs.jobs; next = t.jobs.next; entries = t.entries } };

    ghost invariant = { λ t. (t.entries + length t.jobs.jobs ≤ t.limits.entries) × (t.places.limit ≡ t.limits.pairs) × (t.places.issued ≤ 2 * t.entries) × (t.jobs.next ≤ t.entries) × AllCanFinish Q.target_of t.limits.pairs t.jobs.jobs };
}

impl<K: PathKey + Drop, V: Eq + Drop, Q: Asks<K, V> + Drop> Table<K, V, Q> {
    /// A table with no handles and no entries.
    ///
    /// Cost: O(1), no lock. Refused: `NoMemory`, if memory runs out.
    pub fn new(alloc: Global, limits: Limits) -> Result<Table<K, V, Q>, NoMemory>
        requires least_pairs { 1 ≤ limits.pairs }
        requires most_pairs { limits.pairs ≤ MOST_PAIRS }
        requires least_entries { 2 ≤ limits.entries }
        requires most_entries { limits.entries ≤ MOST_ENTRIES }
        ensures { IfOk result (λ t. t ≡ nothing limits) }
    {
        Ok(Table {
            limits,
            places: Places::new(alloc, limits.pairs)?,
            jobs: Jobs::new(alloc)?,
            entries: 0,
        })
    }

    /// How much the table may hold.
    ///
    /// Cost: O(1), no lock. Refused: never.
    pub fn limits(&self) -> Limits
        ensures { result ≡ self.now.limits }
    {
        self.limits
    }

    /// How many entries were made.
    ///
    /// Cost: O(1), no lock. Refused: never.
    pub fn entries(&self) -> u32
        ensures { result ≡ self.now.entries }
    {
        self.entries
    }

    /// The place of each handle number, with the version of its map where it is live. It makes no entry.
    ///
    /// The versions have the table's limit on pairs. Each has a stamp of at most twice the number of entries, and no two
    /// have the same.
    ///
    /// Cost: O(1), no lock. Refused: never.
    pub fn places(&self) -> &[Option<Version<K, V>>]
        ensures live { live_from 0 (maps_in result.now) ≡ self.now.live }
        ensures kept { IsKept self.now.limits.pairs (2 * self.now.entries) result.now }
    {
        self.places.as_slice()
    }

    /// The map that the call would release: that of a live handle which it drops or clears. Where the view is kept
    /// until the call was made, the nodes of the map are freed with the view, and not by the call. It is none too where
    /// the clone of a handle is refused.
    ///
    /// Cost: O(1), no lock; it makes no entry and no request for memory. Refused: never.
    pub fn discarded_map(&self, call: &Call<K, V>) -> Option<View<K, V>>
        ensures { IfSome result (λ map. let_go self.now (request_of call.now) ≡ Some map) }
    {
        match call {
            Call::Drop(handle) | Call::On(handle, Command::Clear) => {
                self.places.version(*handle)?.view().ok()
            }
            _ => None,
        }
    }

    /// The query of the open job of the number, and the map that its freeze recorded. It makes no entry.
    ///
    /// Cost: O(1), no lock: at most 64 jobs are looked at. Refused: never.
    pub fn open_job(&self, job: u64) -> Option<(&Q, &View<K, V>)>
        ensures { option_map (λ x. record { query = x.0.now; frozen = x.1.now }) result ≡ job_at self.now job }
    {
        match self.jobs.get(job) {
            Some(open) => Some((&*open.query, &open.view)),
            None => None,
        }
    }

    /// Opens the handle, with no pairs.
    ///
    /// Cost: O(1), no lock. Refused: `JournalFull`, `BadNumber`, `Taken`; `NoMemory`, if memory runs out.
    pub fn open(&mut self, alloc: Global, handle: u32) -> Result<(), Refusal>
        ensures step { IsStep (machine K.cmp V.eq Q.target_of Q.answered) self.old (open_handle handle) unit_outcome result self.new }
        ensures due { IsDue (machine K.cmp V.eq Q.target_of Q.answered) self.old (open_handle handle) result }
    {
        match self.refusal_of(&RequestRef::Open(handle)) {
            Some(refusal) => counted(&mut self.entries, Err(refusal)),
            None => self.open_granted(alloc, handle),
        }
    }

    /// Opens the handle `to`, with the pairs of the other handle.
    ///
    /// Cost: O(1), no lock and no request for memory. Refused: `JournalFull`, `BadNumber`, `NoHandle`, `Taken`;
    /// `NoMemory`, where a handle on the map cannot be cloned.
    pub fn snapshot(&mut self, handle: u32, to: u32) -> Result<(), Refusal>
        ensures step { IsStep (machine K.cmp V.eq Q.target_of Q.answered) self.old (snapshot handle to) unit_outcome result self.new }
        ensures due { IsDue (machine K.cmp V.eq Q.target_of Q.answered) self.old (snapshot handle to) result }
    {
        match self.refusal_of(&RequestRef::Snapshot(handle, to)) {
            Some(refusal) => counted(&mut self.entries, Err(refusal)),
            None => self.snapshot_granted(handle, to),
        }
    }

    /// The map of the handle as it stands now, which no later call changes.
    ///
    /// Cost: O(1), no lock and no request for memory. Refused: `JournalFull`, `BadNumber`, `NoHandle`; `NoMemory`,
    /// where a handle on the map cannot be cloned.
    pub fn view(&mut self, handle: u32) -> Result<View<K, V>, Refusal>
        ensures step { IsStep (machine K.cmp V.eq Q.target_of Q.answered) self.old (view handle) view_outcome result self.new }
        ensures due { IsDue (machine K.cmp V.eq Q.target_of Q.answered) self.old (view handle) result }
    {
        let answer = match self.refusal_of(&RequestRef::View(handle)) {
            Some(refusal) => Err(refusal),
            None => self.places.view(handle),
        };
        counted(&mut self.entries, answer)
    }

    /// Makes the command on the handle.
    ///
    /// Cost: O(log n), no lock; `Get` makes no request for memory, `Size` takes O(1), and `Clear` O(1) and what the
    /// drops take. Refused: `JournalFull`, `BadNumber`, `NoHandle`, `Full`; `NoMemory`, if memory runs out, but never
    /// of `Size`.
    pub fn call(
        &mut self,
        alloc: Global,
        handle: u32,
        command: Command<K, V>,
    ) -> Result<Reply<V>, Refusal>
        ensures step { IsStep (machine K.cmp V.eq Q.target_of Q.answered) self.old (on handle (command_of command)) reply_outcome result self.new }
        ensures memory { AnswersWithoutMemory (machine K.cmp V.eq Q.target_of Q.answered) (on handle (command_of command)) result }
        ensures due { IsDue (machine K.cmp V.eq Q.target_of Q.answered) self.old (on handle (command_of command)) result }
    {
        if let Err(refusal) = self.version_for(handle) {
            drop(command);
            return counted(&mut self.entries, Err(refusal));
        }
        let path = command.path();
        self.call_live(alloc, handle, command, path)
    }

    /// Closes the handle: it is not live then.
    ///
    /// Cost: O(1), no lock; then what the drops take. Refused: `JournalFull`, `BadNumber` or `NoHandle`; never
    /// `NoMemory`.
    pub fn drop_handle(&mut self, handle: u32) -> Result<(), Refusal>
        ensures step { IsStep (machine K.cmp V.eq Q.target_of Q.answered) self.old (drop_handle handle) unit_outcome result self.new }
        ensures memory { lacks_memory result ≡ false }
    {
        match self.refusal_of(&RequestRef::Drop(handle)) {
            Some(refusal) => counted(&mut self.entries, Err(refusal)),
            None => self.drop_granted(handle),
        }
    }

    /// Opens a job with the query on the handle's map as it stands now, and returns the job's number and that map,
    /// which no later call changes. Where the query has a target, the number is reserved until the job is closed.
    ///
    /// Cost: O(1), no lock and no request for memory. Refused: `JournalFull`, `BadNumber`, `NoHandle`, `Taken`,
    /// `TooManyJobs`; `NoMemory`, where a handle on the map cannot be cloned.
    pub fn freeze(&mut self, handle: u32, query: Arc<Q>) -> Result<(u64, View<K, V>), Refusal>
        ensures step { IsStep (machine K.cmp V.eq Q.target_of Q.answered) self.old (freeze handle query.value) frozen_outcome result self.new }
        ensures due { IsDue (machine K.cmp V.eq Q.target_of Q.answered) self.old (freeze handle query.value) result }
    {
        let answer = match self.refusal_of(&RequestRef::Freeze(handle, &query)) {
            Some(refusal) => Err(refusal),
            None => open_job(&self.places, &mut self.jobs, handle, query),
        };
        counted(&mut self.entries, answer)
    }

    /// Closes the job by the part's answer, and opens its target, if it has one, with the map that the part made. The
    /// part has to answer the job's query for its frozen map; it is dropped where no such job is open. The answer
    /// follows from the part alone.
    ///
    /// Cost: O(1), no lock, and what `conclude` of the query takes. Refused: `NoJob`, where no such job is open; never
    /// `NoMemory`.
    pub fn finish(&mut self, job: u64, part: Q::Part) -> Result<Answer<K, V, Q::Item>, Refusal>
        requires { (j : Job K V Q) → job_at self.old job ≡ Some j → Q.answers j.query j.frozen part }
        ensures step { IsStep (machine K.cmp V.eq Q.target_of Q.answered) self.old (finish job) finished_outcome result self.new }
        ensures told { IfOk result (λ answer. summary_of answer ≡ plain.summary (Q.answer_of part)) }
        ensures memory { lacks_memory result ≡ false }
    {
        let answer = match self.refusal_of(&RequestRef::Finish(job)) {
            Some(refusal) => Err(refusal),
            None => close_job(&mut self.places, &mut self.jobs, job, part),
        };
        counted(&mut self.entries, answer)
    }

    /// Closes the job without an answer; its target stays not live.
    ///
    /// Cost: O(1), no lock. Refused: `NoJob`, where no such job is open; never `NoMemory`.
    pub fn abandon(&mut self, job: u64) -> Result<(), Refusal>
        ensures step { IsStep (machine K.cmp V.eq Q.target_of Q.answered) self.old (abandon job) unit_outcome result self.new }
        ensures memory { lacks_memory result ≡ false }
    {
        let answer = match self.refusal_of(&RequestRef::Abandon(job)) {
            Some(refusal) => Err(refusal),
            None => {
                self.jobs.close(job);
                Ok(())
            }
        };
        counted(&mut self.entries, answer)
    }

    /// Makes the call, as `open`, `snapshot`, `drop_handle` and `call` do.
    ///
    /// Cost: O(log n) at most, no lock. Refused: as these.
    pub fn serve(&mut self, alloc: Global, call: Call<K, V>) -> Result<CallReply<V>, Refusal>
        ensures step { IsStep (machine K.cmp V.eq Q.target_of Q.answered) self.old (request_of call) call_outcome result self.new }
        ensures memory { AnswersWithoutMemory (machine K.cmp V.eq Q.target_of Q.answered) (request_of call) result }
        ensures due { IsDue (machine K.cmp V.eq Q.target_of Q.answered) self.old (request_of call) result }
    {
        match call {
            Call::Open(handle) => match self.open(alloc, handle) {
                Ok(()) => Ok(CallReply::Unit),
                Err(refusal) => Err(refusal),
            },
            Call::Snapshot(handle, to) => match self.snapshot(handle, to) {
                Ok(()) => Ok(CallReply::Unit),
                Err(refusal) => Err(refusal),
            },
            Call::Drop(handle) => match self.drop_handle(handle) {
                Ok(()) => Ok(CallReply::Unit),
                Err(refusal) => Err(refusal),
            },
            Call::On(handle, command) => match self.call(alloc, handle, command) {
                Ok(reply) => Ok(CallReply::Reply(reply)),
                Err(refusal) => Err(refusal),
            },
        }
    }

    /// Makes the calls in order, and returns what each returned. These are the outcomes of a run of the machine.
    ///
    /// Cost: O(k log n) for k calls, no lock. Refused: `NoMemory`, if memory runs out: a first part of the calls was
    /// then made, as a run, and what they returned is lost.
    pub fn run(
        &mut self,
        alloc: Global,
        calls: Vec<Call<K, V>>,
    ) -> Result<Vec<Result<CallReply<V>, Refusal>>, NoMemory>
        ensures run { IfOk result (λ answers. Run (machine K.cmp V.eq Q.target_of Q.answered) self.old (requests_of calls.items) (outcomes_of answers.items) self.new) }
        ensures err { OnErr result (IsRunOfSome (machine K.cmp V.eq Q.target_of Q.answered) self.old (requests_of calls.items) self.new) }
    {
        let mut answers = Vec::new(alloc);
        for call in calls {
            answers.reserve(1)?;
            let answer = self.serve(alloc, call);
            if lacks_memory(&answer) {
                return Err(NoMemory);
            }
            answers.push_reserved(answer);
        }
        Ok(answers)
    }
}

// Counts the entry that a call makes which returns this.
fn counted<T>(entries: &mut u32, answer: Result<T, Refusal>) -> Result<T, Refusal>
    requires { is_counted answer ≡ true → entries.old + 1 < 2 ^ 32 }
    ensures count { entries.new ≡ (if is_counted answer then entries.old + 1 else entries.old) }
    ensures same { result ≡ answer }
{
    if is_counted(&answer) {
        *entries += 1;
    }
    answer
}
