//! What calls but commands ask of a table, as far as they may be refused for it.
ghost use Rattle.std.specs.Prelude.{◌≡◌};
ghost use Rattle.handles.specs.Machine.{is_freeze, job_of, needs_room, source, wanted};
ghost use Rattle.handles.specs.Views.{machine, requested};

use bulk_work::Asks;
use hash_path::PathKey;

/// What a call asks of the handles and jobs where it makes no command, with its query lent.
#[derive(Drop)]
pub enum RequestRef<'c, Q> {
    /// That the handle is opened.
    Open(u32),
    /// That the second handle is opened with the pairs of the first.
    Snapshot(u32, u32),
    /// That the handle is closed.
    Drop(u32),
    /// That the handle's map is shown.
    View(u32),
    /// That a job with the query is opened on the handle's map.
    Freeze(u32, &'c Q),
    /// That the job is closed by an answer.
    Finish(u64),
    /// That the job is closed without an answer.
    Abandon(u64),
}

impl<Q> RequestRef<'_, Q> {
    /// The handle that is read, dropped, frozen or snapshotted.
    pub fn source<K, V>(&self) -> Option<u32>
        ensures { result ≡ source (requested {K = K} {V = V} self.now) }
    {
        match self {
            RequestRef::Snapshot(handle, _)
            | RequestRef::Drop(handle)
            | RequestRef::View(handle)
            | RequestRef::Freeze(handle, _) => Some(*handle),
            RequestRef::Open(_) | RequestRef::Finish(_) | RequestRef::Abandon(_) => None,
        }
    }

    /// The number that would be opened or reserved.
    pub fn wanted<K: PathKey, V: Eq>(&self) -> Option<u32>
    where
        Q: Asks<K, V>,
        ensures { result ≡ wanted (machine K.cmp V.eq Q.target_of Q.answered) (requested self.now) }
    {
        match self {
            RequestRef::Open(to) | RequestRef::Snapshot(_, to) => Some(*to),
            RequestRef::Freeze(_, query) => query.target(),
            RequestRef::Drop(_) | RequestRef::View(_) => None,
            RequestRef::Finish(_) | RequestRef::Abandon(_) => None,
        }
    }

    /// The job that is closed.
    pub fn job<K, V>(&self) -> Option<u64>
        ensures { result ≡ job_of (requested {K = K} {V = V} self.now) }
    {
        match self {
            RequestRef::Finish(job) | RequestRef::Abandon(job) => Some(*job),
            _ => None,
        }
    }

    /// Whether it needs room in the journal.
    pub fn needs_room<K, V>(&self) -> bool
        ensures { result ≡ needs_room (requested {K = K} {V = V} self.now) }
    {
        !matches!(self, RequestRef::Finish(_) | RequestRef::Abandon(_))
    }

    /// Whether it opens a job.
    pub fn is_freeze<K, V>(&self) -> bool
        ensures { result ≡ is_freeze (requested {K = K} {V = V} self.now) }
    {
        matches!(self, RequestRef::Freeze(_, _))
    }
}
