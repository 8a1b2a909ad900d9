//! Why the calls of a table are refused, `NoMemory` aside.
ghost use Rattle.std.specs.Prelude.{◌≡◌, ◌≤◌, ◌-◌, IfErr, IfOk, Some, false, true};
ghost use Rattle.handles.specs.Machine.{held_by, is_bad, is_entry, is_not_live, is_taken, is_unknown_job, on, refusal, room};
ghost use Rattle.handles.specs.Views.{IsFullAlone, lacks_memory, machine, requested};
ghost use Rattle.versions.specs.Commands as commands;

use super::Table;
use crate::limits::MOST_JOBS;
use crate::request_ref::RequestRef;
use bulk_work::Asks;
use hash_path::PathKey;
use held_maps::LAST_HANDLE;
use versions::{Refusal, Version};

// How much room the journal has to have for a call to be made.
const LEAST_ROOM: u32 = 2;

impl<K: PathKey + Drop, V: Eq + Drop, Q: Asks<K, V> + Drop> Table<K, V, Q> {
    /// Why the request is refused, if it is: the first reason, in the order in which they count. No such request is
    /// refused as `Full`.
    #[tactic(auto, using(crate::proofs::Refusals::never_full))]
    pub(super) fn refusal_of(&self, request: &RequestRef<'_, Q>) -> Option<Refusal>
        ensures { result ≡ refusal (machine K.cmp V.eq Q.target_of Q.answered) self.now (requested request.now) }
    {
        let source = request.source::<K, V>();
        let wanted = request.wanted::<K, V>();
        if request.needs_room::<K, V>() && self.room() < LEAST_ROOM {
            return Some(Refusal::JournalFull);
        }
        if is_bad(source) || is_bad(wanted) {
            return Some(Refusal::BadNumber);
        }
        if self.is_not_live(source) {
            return Some(Refusal::NoHandle);
        }
        if self.is_unknown_job(request.job::<K, V>()) {
            return Some(Refusal::NoJob);
        }
        if self.is_taken(wanted) {
            return Some(Refusal::Taken);
        }
        if request.is_freeze::<K, V>() && self.jobs.len() >= MOST_JOBS {
            return Some(Refusal::TooManyJobs);
        }
        None
    }

    /// The version of the handle, where a command on it is refused as `Full` alone, if at all; else the first reason why
    /// it is refused. The handle is looked up once.
    #[tactic(auto, using(crate::proofs::Refusals::live_is_full_alone))]
    pub(super) fn version_for(&self, handle: u32) -> Result<&Version<K, V>, Refusal>
        ensures ok { IfOk result (λ version. (c : commands.Command K V) → IsFullAlone (machine K.cmp V.eq Q.target_of Q.answered) self.now handle c) }
        ensures entries { IfOk result (λ version. version.now.entries ≡ held_by self.now handle) }
        ensures limit { IfOk result (λ version. version.now.limit ≡ self.now.limits.pairs) }
        ensures err { IfErr result (λ e. (c : commands.Command K V) → refusal (machine K.cmp V.eq Q.target_of Q.answered) self.now (on handle c) ≡ Some e) }
        ensures room { IfErr result (λ e. is_entry e ≡ true → 2 ≤ room self.now) }
        ensures memory { lacks_memory result ≡ false }
    {
        if self.room() < LEAST_ROOM {
            return Err(Refusal::JournalFull);
        }
        if handle > LAST_HANDLE {
            return Err(Refusal::BadNumber);
        }
        let Some(version) = self.places.version(handle) else {
            return Err(Refusal::NoHandle);
        };
        Ok(version)
    }

    // How many entries may still be made besides the ends of the open jobs.
    fn room(&self) -> u32
        ensures { result ≡ room self.now }
    {
        self.limits.entries - self.entries - self.jobs.len() as u32
    }

    // Whether a handle is named that is not live.
    fn is_not_live(&self, handle: Option<u32>) -> bool
        ensures { result ≡ is_not_live self.now handle }
    {
        match handle {
            Some(handle) => self.places.version(handle).is_none(),
            None => false,
        }
    }

    // Whether a job is named that is not open.
    fn is_unknown_job(&self, job: Option<u64>) -> bool
        ensures { result ≡ is_unknown_job self.now job }
    {
        match job {
            Some(job) => self.jobs.get(job).is_none(),
            None => false,
        }
    }

    // Whether a number is named that is live, or that an open job reserves.
    fn is_taken(&self, number: Option<u32>) -> bool
        ensures { result ≡ is_taken (machine K.cmp V.eq Q.target_of Q.answered) self.now number }
    {
        match number {
            Some(number) => self.places.version(number).is_some() || self.jobs.reserves(number),
            None => false,
        }
    }
}

// Whether a number is named that is no handle's.
fn is_bad(number: Option<u32>) -> bool
    ensures { result ≡ is_bad number }
{
    match number {
        Some(number) => number > LAST_HANDLE,
        None => false,
    }
}
