//! The table of handles as a plain program: the rows of each live handle, the open jobs, and how many entries the
//! journal has.

use crate::questions::Question;
use crate::requests::{Do, Request};
use crate::rows::{PlainPair, reply_to, rows_after, value_of, write_of};
use crate::table_outcome::{TableOutcome, answer};
use handles::Limits;
use std::alloc::{AllocError, Global};
use versions::Refusal;

/// The last handle number.
const LAST: u32 = 1_023;

/// How many jobs may be open.
const MOST_JOBS: usize = 64;

/// An open job, with the rows that were frozen.
#[derive(Drop)]
pub struct OpenJob {
    pub number: u64,
    pub question: Question,
    pub rows: Vec<PlainPair>,
}

/// What a table keeps: the rows of each live handle, and the open jobs.
#[derive(Drop)]
pub struct PlainTable {
    pub limits: Limits,
    pub jobs: Vec<OpenJob>,
    /// The number of the job that would be next.
    pub next: u64,
    pub entries: u32,
    live: Vec<(u32, Vec<PlainPair>)>,
}

/// The outcome of a request, and the rows that it shows: those of a view or of a freeze, those of a map that is made,
/// and those that a find may give.
#[derive(Drop)]
pub struct Expected {
    pub outcome: TableOutcome,
    pub rows: Vec<PlainPair>,
}

// The outcome, with no rows.
fn with_no_rows(alloc: Global, outcome: TableOutcome) -> Expected {
    Expected {
        outcome,
        rows: Vec::new(alloc),
    }
}

// Whether the number is no handle's.
fn is_bad(number: Option<u32>) -> bool {
    match number {
        Some(number) => number > LAST,
        None => false,
    }
}

impl PlainTable {
    /// No handles and no jobs.
    pub fn new(alloc: Global, limits: Limits) -> PlainTable {
        PlainTable {
            limits,
            jobs: Vec::new(alloc),
            next: 0,
            entries: 0,
            live: Vec::new(alloc),
        }
    }

    /// Makes the request.
    ///
    /// # Errors
    ///
    /// There is no memory for the rows. The table is then of no more use.
    pub fn serve(&mut self, alloc: Global, request: Request) -> Result<Expected, AllocError> {
        let expected = match self.refusal_of(request) {
            Some(refusal) => with_no_rows(alloc, TableOutcome::Refused(refusal)),
            None => self.granted(alloc, request)?,
        };
        if expected.outcome.is_entry() {
            self.entries = self.entries.saturating_add(1);
        }
        Ok(expected)
    }

    /// The rows of a handle that is live.
    pub fn rows(&self, handle: u32) -> Option<&[PlainPair]> {
        for (number, rows) in &self.live {
            if *number == handle {
                return Some(rows.as_slice());
            }
        }
        None
    }

    /// An open job.
    pub fn job(&self, number: u64) -> Option<&OpenJob> {
        let at = self.jobs.iter().position(|job| job.number == number)?;
        self.jobs.get(at)
    }

    // The first reason to refuse a request.
    fn refusal_of(&self, request: Request) -> Option<Refusal> {
        let (source, wanted, closed) = (request.source(), request.wanted(), request.closed());
        if closed.is_none() && self.room() < 2 {
            return Some(Refusal::JournalFull);
        }
        if is_bad(source) || is_bad(wanted) {
            return Some(Refusal::BadNumber);
        }
        if source.is_some_and(|handle| self.rows(handle).is_none()) {
            return Some(Refusal::NoHandle);
        }
        if closed.is_some_and(|job| self.job(job).is_none()) {
            return Some(Refusal::NoJob);
        }
        if wanted.is_some_and(|handle| self.is_taken(handle)) {
            return Some(Refusal::Taken);
        }
        if request.is_freeze() && self.jobs.len() >= MOST_JOBS {
            return Some(Refusal::TooManyJobs);
        }
        if self.is_full(request) {
            return Some(Refusal::Full);
        }
        None
    }

    // How many entries there may be besides the ends of the open jobs.
    fn room(&self) -> u64 {
        let used = u64::from(self.entries).saturating_add(self.jobs.len() as u64);
        u64::from(self.limits.entries).saturating_sub(used)
    }

    // Whether the number is live or is the target of an open job.
    fn is_taken(&self, handle: u32) -> bool {
        self.rows(handle).is_some()
            || self
                .jobs
                .iter()
                .any(|job| job.question.target() == Some(handle))
    }

    // Whether a new key would be put into a map that is full.
    fn is_full(&self, request: Request) -> bool {
        let Request::On(handle, what) = request else {
            return false;
        };
        let (Some(rows), Some(key)) = (self.rows(handle), what.puts()) else {
            return false;
        };
        rows.len() as u64 >= self.limits.pairs && value_of(rows, key).is_none()
    }

    // A copy of the rows of a handle.
    fn copy_of(&self, alloc: Global, handle: u32) -> Result<Vec<PlainPair>, AllocError> {
        Vec::from_slice(alloc, self.rows(handle).unwrap_or(&[]))
    }

    // The handle is live, with these rows.
    fn add(&mut self, handle: u32, rows: Vec<PlainPair>) -> Result<(), AllocError> {
        self.live.push((handle, rows))?;
        Ok(())
    }

    // The handle is no longer live.
    fn drop_handle(&mut self, handle: u32) {
        self.live.retain(|live| live.0 != handle);
    }

    // The job is no longer open.
    fn close(&mut self, number: u64) {
        self.jobs.retain(|open| open.number != number);
    }

    // A request that nothing refuses.
    fn granted(&mut self, alloc: Global, request: Request) -> Result<Expected, AllocError> {
        match request {
            Request::View(handle) => Ok(Expected {
                outcome: TableOutcome::Viewed,
                rows: self.copy_of(alloc, handle)?,
            }),
            Request::Freeze(handle, question) => self.freeze(alloc, handle, question),
            Request::Finish(job) => self.finish(alloc, job),
            _ => Ok(with_no_rows(alloc, self.changed(alloc, request)?)),
        }
    }

    // The same, where no rows are shown.
    fn changed(&mut self, alloc: Global, request: Request) -> Result<TableOutcome, AllocError> {
        match request {
            Request::Open(handle) => {
                self.add(handle, Vec::new(alloc))?;
                Ok(TableOutcome::Unit)
            }
            Request::Snapshot(handle, to) => {
                let rows = self.copy_of(alloc, handle)?;
                self.add(to, rows)?;
                Ok(TableOutcome::Unit)
            }
            Request::Drop(handle) => {
                self.drop_handle(handle);
                Ok(TableOutcome::Unit)
            }
            Request::On(handle, what) => self.on(alloc, handle, what),
            Request::Abandon(job) => {
                self.close(job);
                Ok(TableOutcome::Abandoned)
            }
            Request::View(_) | Request::Freeze(_, _) | Request::Finish(_) => Ok(TableOutcome::Unit),
        }
    }

    // What is done on the rows of a handle.
    fn on(&mut self, alloc: Global, handle: u32, what: Do) -> Result<TableOutcome, AllocError> {
        let rows = self.copy_of(alloc, handle)?;
        if let Some(write) = write_of(&rows, what) {
            let after = rows_after(alloc, &rows, write)?;
            self.drop_handle(handle);
            self.add(handle, after)?;
        }
        Ok(reply_to(&rows, what))
    }

    fn freeze(
        &mut self,
        alloc: Global,
        handle: u32,
        question: Question,
    ) -> Result<Expected, AllocError> {
        let number = self.next;
        let job = OpenJob {
            number,
            question,
            rows: self.copy_of(alloc, handle)?,
        };
        self.jobs.push(job)?;
        self.next = number.saturating_add(1);
        Ok(Expected {
            outcome: TableOutcome::Frozen(number),
            rows: self.copy_of(alloc, handle)?,
        })
    }

    // The answer of a job for all its rows. A map that is made goes to its handle.
    fn finish(&mut self, alloc: Global, number: u64) -> Result<Expected, AllocError> {
        let Some(job) = self.job(number) else {
            return Ok(with_no_rows(alloc, TableOutcome::Refused(Refusal::NoJob)));
        };
        let (question, all) = (job.question, job.rows.len());
        let rows = question.chosen(alloc, &job.rows)?;
        self.close(number);
        if let Some(to) = question.target() {
            self.add(to, Vec::from_slice(alloc, &rows)?)?;
        }
        Ok(Expected {
            outcome: answer(question, &rows, all),
            rows,
        })
    }
}
