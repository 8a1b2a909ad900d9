//! The open jobs of a table.
ghost use Rattle.std.specs.Prelude.{◌≡◌, ◌<◌, ◌≤◌, ◌+◌, ◌^◌, length, [], IfOk, Option, option_map};
ghost use Rattle.std.specs.List.{list_any};
ghost use Rattle.std.specs.Ordering.{nat_cmp};
ghost use Rattle.handles.specs.Jobs.{Opened, job_of};
ghost use Rattle.handles.specs.Machine.{is_number};
ghost use Rattle.versions.specs.Map.{value_at, with_pair, without};

use crate::limits::MOST_JOBS;
use bulk_work::Asks;
use hash_path::PathKey;
use std::alloc::Global;
use std::marker::Model;
use std::sync::Arc;
use versions::{NoMemory, View};

/// An open job: its number, its query, and the map that its freeze recorded.
#[derive(Drop)]
pub struct OpenJob<K: PathKey, V, Q> {
    pub number: u64,
    pub query: Arc<Q>,
    pub view: View<K, V>,
}

/// The open jobs, and the number of the next.
///
/// Numbers are given in order, from 0 on, each once. The places of the jobs are made with it, so it takes no memory
/// later.
#[derive(Drop)]
pub struct Jobs<K: PathKey, V, Q> {
    open: Vec<OpenJob<K, V, Q>>,
    next: u64,
}

impl<K: PathKey, V, Q> Model for Jobs<K, V, Q> {
    ghost use Rattle.std.specs.Prelude.{◌≤◌, vec_capacity, vec_len};
    ghost use Rattle.handles.specs.Jobs.{AllBelow, Opened, jobs_of};
    ghost use Rattle.handles.specs.declared.limits.TheConstants.{MOST_JOBS};

    ghost Value = { Opened K V Q };

    ghost view = { λ j. record { jobs = jobs_of j.open.items; next = j.next } };

    ghost invariant = { λ j. AllBelow j.next j.open.items × (vec_len j.open ≤ MOST_JOBS) × (MOST_JOBS ≤ vec_capacity j.open) };
}

impl<K: PathKey + Drop, V: Drop, Q: Drop> Jobs<K, V, Q> {
    /// No open job, and places for as many as there may be.
    pub fn new(alloc: Global) -> Result<Jobs<K, V, Q>, NoMemory>
        ensures { IfOk result (λ jobs. jobs ≡ record { jobs = []; next = 0 }) }
    {
        Ok(Jobs {
            open: Vec::with_capacity(alloc, MOST_JOBS)?,
            next: 0,
        })
    }

    /// How many jobs are open.
    pub fn len(&self) -> usize
        ensures count { result ≡ length self.now.jobs }
        ensures most { result ≤ MOST_JOBS }
    {
        self.open.len()
    }

    /// The number of the job that is opened next.
    pub fn next_number(&self) -> u64
        ensures { result ≡ self.now.next }
    {
        self.next
    }

    /// The open job of the number, if there is one.
    pub fn get(&self, number: u64) -> Option<&OpenJob<K, V, Q>>
        ensures { option_map (λ job. (job_of job.now).1) result ≡ value_at nat_cmp self.now.jobs number }
    {
        for job in &self.open {
            if job.number == number {
                return Some(job);
            }
        }
        None
    }

    /// Opens a job with the query and the map that its freeze records, and gives its number.
    pub fn add(&mut self, query: Arc<Q>, view: View<K, V>) -> u64
        requires few { length self.old.jobs < MOST_JOBS }
        requires next { self.old.next < 2 ^ 63 }
        ensures number { result ≡ self.old.next }
        ensures jobs { self.new.jobs ≡ with_pair nat_cmp self.old.jobs self.old.next (record { query = query.value; frozen = view }) }
        ensures next { self.new.next ≡ self.old.next + 1 }
    {
        let number = self.next;
        self.open.push_reserved(OpenJob {
            number,
            query,
            view,
        });
        self.next += 1;
        number
    }

    /// Closes the job of the number, if it is open. The number is not given again.
    pub fn close(&mut self, number: u64)
        ensures jobs { self.new.jobs ≡ without nat_cmp self.old.jobs number }
        ensures next { self.new.next ≡ self.old.next }
    {
        self.open.retain(|job| job.number != number);
    }
}

impl<K: PathKey + Drop, V: Drop, Q: Asks<K, V> + Drop> Jobs<K, V, Q> {
    /// Whether an open job reserves the number.
    pub fn reserves(&self, number: u32) -> bool
        ensures { result ≡ list_any (λ job. is_number (Q.target_of job.1.query) number) self.now.jobs }
    {
        for job in &self.open {
            if is_number(job.query.target(), number) {
                return true;
            }
        }
        false
    }
}

// Whether a number is named and is this one.
fn is_number(named: Option<u32>, number: u32) -> bool
    ensures { result ≡ is_number named number }
{
    match named {
        Some(named) => named == number,
        None => false,
    }
}
