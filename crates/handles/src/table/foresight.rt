//! What the calls of a table would return now, `NoMemory` aside.
ghost use Rattle.std.specs.Prelude.{◌≡◌, MatchOption, Err, IfOk, Ok, Some, false};
ghost use Rattle.bulk_work.specs.Answers as plain;
ghost use Rattle.bulk_work.specs.Summaries.{summary_of};
ghost use Rattle.handles.specs.Machine.{Job, abandon, drop_handle, finish, freeze, job_at, on, open_handle, snapshot, view};
ghost use Rattle.handles.specs.Views.{AnswersWithoutMemory, Foresees, IsPathFor, IsPathOf, call_outcome, command_of, finished_outcome, frozen_outcome, lacks_memory, machine, reply_outcome, request_of, unit_outcome, view_outcome};

use super::Table;
use super::ends::tell_job;
use crate::call::Call;
use crate::call_reply::CallReply;
use crate::request_ref::RequestRef;
use bulk_work::{Answer, Asks};
use hash_path::{Path, PathKey};
use held_maps::{Command, Reply};
use versions::{Refusal, View};

impl<K: PathKey + Drop, V: Eq + Drop, Q: Asks<K, V> + Drop> Table<K, V, Q> {
    /// What `open` would return now.
    ///
    /// Cost: O(1), no lock. Refused: as `open`, but never `NoMemory`.
    pub fn foresee_open(&self, handle: u32) -> Result<(), Refusal>
        ensures now { Foresees (machine K.cmp V.eq Q.target_of Q.answered) self.now (open_handle handle) unit_outcome result }
        ensures memory { lacks_memory result ≡ false }
    {
        granted(self.refusal_of(&RequestRef::Open(handle)))
    }

    /// What `snapshot` would return now.
    ///
    /// Cost: O(1), no lock. Refused: as `snapshot`, but never `NoMemory`.
    pub fn foresee_snapshot(&self, handle: u32, to: u32) -> Result<(), Refusal>
        ensures now { Foresees (machine K.cmp V.eq Q.target_of Q.answered) self.now (snapshot handle to) unit_outcome result }
        ensures memory { lacks_memory result ≡ false }
    {
        granted(self.refusal_of(&RequestRef::Snapshot(handle, to)))
    }

    /// What `view` would return now: the handle's map, which no later call changes.
    ///
    /// Cost: O(1), no lock and no request for memory. Refused: as `view`; `NoMemory` only where no other refusal is
    /// due.
    pub fn foresee_view(&self, handle: u32) -> Result<View<K, V>, Refusal>
        ensures { Foresees (machine K.cmp V.eq Q.target_of Q.answered) self.now (view handle) view_outcome result }
    {
        match self.refusal_of(&RequestRef::View(handle)) {
            Some(refusal) => Err(refusal),
            None => self.places.view(handle),
        }
    }

    /// What `call` with the command would return now: a value that the reply shows is shared with the map.
    ///
    /// Cost: O(log n), no lock and no request for memory. Refused: as `call`; `NoMemory` only where no other refusal is
    /// due, and never of `Size`.
    pub fn foresee_call(&self, handle: u32, command: &Command<K, V>) -> Result<Reply<V>, Refusal>
        ensures now { Foresees (machine K.cmp V.eq Q.target_of Q.answered) self.now (on handle (command_of command.now)) reply_outcome result }
        ensures memory { AnswersWithoutMemory (machine K.cmp V.eq Q.target_of Q.answered) (on handle (command_of command.now)) result }
    {
        self.foresee_call_along(handle, command, command.path())
    }

    // `foresee_call`, where the caller has the path word of the command's key.
    fn foresee_call_along(
        &self,
        handle: u32,
        command: &Command<K, V>,
        path: Path,
    ) -> Result<Reply<V>, Refusal>
        requires path { IsPathFor K.path_of (command_of command.now) path.0 }
        ensures now { Foresees (machine K.cmp V.eq Q.target_of Q.answered) self.now (on handle (command_of command.now)) reply_outcome result }
        ensures memory { AnswersWithoutMemory (machine K.cmp V.eq Q.target_of Q.answered) (on handle (command_of command.now)) result }
    {
        match self.version_for(handle) {
            Ok(version) => command.foresee_on(path, version),
            Err(refusal) => Err(refusal),
        }
    }

    /// What `drop_handle` would return now.
    ///
    /// Cost: O(1), no lock. Refused: as `drop_handle`.
    pub fn foresee_drop_handle(&self, handle: u32) -> Result<(), Refusal>
        ensures now { Foresees (machine K.cmp V.eq Q.target_of Q.answered) self.now (drop_handle handle) unit_outcome result }
        ensures memory { lacks_memory result ≡ false }
    {
        granted(self.refusal_of(&RequestRef::Drop(handle)))
    }

    /// What `freeze` with the query would return now: the number that the job would get, and the handle's map, which no
    /// later call changes.
    ///
    /// Cost: O(1), no lock and no request for memory. Refused: as `freeze`; `NoMemory` only where no other refusal is
    /// due.
    pub fn foresee_freeze(&self, handle: u32, query: &Q) -> Result<(u64, View<K, V>), Refusal>
        ensures { Foresees (machine K.cmp V.eq Q.target_of Q.answered) self.now (freeze handle query.now) frozen_outcome result }
    {
        match self.refusal_of(&RequestRef::Freeze(handle, query)) {
            Some(refusal) => Err(refusal),
            None => Ok((self.jobs.next_number(), self.places.view(handle)?)),
        }
    }

    /// What `finish` with the part would return now. The part, which is lent alone, has to answer the job's query for
    /// its frozen map: a pair that was found is shared with the part. A `finish` that is made then with that part
    /// returns the same answer.
    ///
    /// Cost: O(1), no lock and no request for memory. Refused: as `finish`; `NoMemory`, where a handle cannot be cloned
    /// and no other refusal is due.
    pub fn foresee_finish(&self, job: u64, part: &Q::Part) -> Result<Answer<K, V, Q::Item>, Refusal>
        requires { (j : Job K V Q) → job_at self.now job ≡ Some j → Q.answers j.query j.frozen part.now }
        ensures now { Foresees (machine K.cmp V.eq Q.target_of Q.answered) self.now (finish job) finished_outcome result }
        ensures told { IfOk result (λ answer. summary_of answer ≡ plain.summary (Q.answer_of part.now)) }
    {
        match self.refusal_of(&RequestRef::Finish(job)) {
            Some(refusal) => Err(refusal),
            None => tell_job(&self.jobs, job, part),
        }
    }

    /// What `abandon` would return now.
    ///
    /// Cost: O(1), no lock. Refused: as `abandon`.
    pub fn foresee_abandon(&self, job: u64) -> Result<(), Refusal>
        ensures now { Foresees (machine K.cmp V.eq Q.target_of Q.answered) self.now (abandon job) unit_outcome result }
        ensures memory { lacks_memory result ≡ false }
    {
        granted(self.refusal_of(&RequestRef::Abandon(job)))
    }

    /// What `serve` with the call would return now, as the twins of `open`, `snapshot`, `drop_handle` and `call` do.
    ///
    /// Cost: O(log n) at most, no lock. Refused: as these.
    pub fn foresee_serve(&self, call: &Call<K, V>) -> Result<CallReply<V>, Refusal>
        ensures now { Foresees (machine K.cmp V.eq Q.target_of Q.answered) self.now (request_of call.now) call_outcome result }
        ensures memory { AnswersWithoutMemory (machine K.cmp V.eq Q.target_of Q.answered) (request_of call.now) result }
    {
        self.foresee_serve_along(call, call.path())
    }

    /// `foresee_serve`, where the caller has the path word of the call's key: the key is not hashed again. With it
    /// `serve_foreseen` goes the same way down the map.
    ///
    /// Cost: O(log n) at most, no lock. Refused: as `foresee_serve`.
    pub fn foresee_serve_along(
        &self,
        call: &Call<K, V>,
        path: Path,
    ) -> Result<CallReply<V>, Refusal>
        requires path { IsPathOf K.path_of call.now path.0 }
        ensures now { Foresees (machine K.cmp V.eq Q.target_of Q.answered) self.now (request_of call.now) call_outcome result }
        ensures memory { AnswersWithoutMemory (machine K.cmp V.eq Q.target_of Q.answered) (request_of call.now) result }
    {
        match call {
            Call::Open(handle) => match self.foresee_open(*handle) {
                Ok(()) => Ok(CallReply::Unit),
                Err(refusal) => Err(refusal),
            },
            Call::Snapshot(handle, to) => match self.foresee_snapshot(*handle, *to) {
                Ok(()) => Ok(CallReply::Unit),
                Err(refusal) => Err(refusal),
            },
            Call::Drop(handle) => match self.foresee_drop_handle(*handle) {
                Ok(()) => Ok(CallReply::Unit),
                Err(refusal) => Err(refusal),
            },
            Call::On(handle, command) => match self.foresee_call_along(*handle, command, path) {
                Ok(reply) => Ok(CallReply::Reply(reply)),
                Err(refusal) => Err(refusal),
            },
        }
    }
}

// A call that is not refused is made.
fn granted(refusal: Option<Refusal>) -> Result<(), Refusal>
    ensures { MatchOption refusal (result ≡ Ok tt) (λ e. result ≡ Err e) }
{
    match refusal {
        Some(refusal) => Err(refusal),
        None => Ok(()),
    }
}
