//! Jobs that are done by threads, or by the caller alone.
use crate::fork::run_jobs;
use crate::map_vec;
use crate::room::room_for;
use crate::work::Work;
use std::alloc::{AllocError, Global};
use std::sync::atomic::{AtomicU64, Ordering};
use std::sync::{Barrier, Wait};
use std::test::Fail;
use std::thread::Threads;
use std::{hint, thread};

// A stack that no thread can have.
const TOO_LARGE: usize = usize::MAX;

// A small one.
const SMALL: usize = 128 * 1024;

// Counts how often it was done, and returns the job's number with a one behind it.
#[derive(Drop)]
struct Counted<'a>(&'a AtomicU64);

impl Work for Counted<'_> {
    type Job = u32;

    type Out = u64;

    ghost use Rattle.std.specs.Prelude.{◌≡◌, ◌+◌, ◌*◌};

    ghost needs = { λ _ _. Unit {0} };

    ghost gives = { λ _ j r. r ≡ 10 * j + 1 };

    fn run(&self, job: u32) -> u64 {
        self.0.fetch_add(1, Ordering::SeqCst);
        10 * job as u64 + 1
    }
}

// How often a job looks whether another has begun.
const LOOKS: u32 = 200_000;

// Counts how often it was begun, and returns the job's number, and whether another job was begun meanwhile.
#[derive(Drop)]
struct Alone<'a>(&'a AtomicU64);

impl Work for Alone<'_> {
    type Job = u32;

    type Out = (u32, bool);

    ghost needs = { λ _ _. Unit {0} };

    ghost gives = { λ _ _ _. Unit {0} };

    fn run(&self, job: u32) -> (u32, bool) {
        let begun = self.0.fetch_add(1, Ordering::SeqCst).wrapping_add(1);
        for _ in 0..LOOKS {
            if self.0.load(Ordering::SeqCst) != begun {
                return (job, true);
            }
            hint::spin_loop();
        }
        (job, false)
    }
}

// Each job waits until all have begun.
#[derive(Drop)]
struct Met<'a, R> {
    rt: &'a R,
    all: Barrier,
}

impl<R: Wait> Work for Met<'_, R> {
    type Job = u32;

    type Out = u32;

    ghost needs = { λ _ _. Unit {0} };

    ghost gives = { λ _ _ _. Unit {0} };

    fn run(&self, job: u32) -> u32 {
        self.all.wait(self.rt);
        job
    }
}

// The results of the jobs, each with a stack of `stack` bytes, and how often the work was done.
fn done_of<R: Threads + Wait + Sync>(
    rt: &R,
    alloc: Global,
    stack: usize,
    jobs: Vec<u32>,
) -> Result<(Vec<u64>, u64), AllocError> {
    let count = AtomicU64::new(0);
    let done = map_vec(rt, alloc, stack, jobs, &Counted(&count))?;
    Ok((done, count.load(Ordering::SeqCst)))
}

#[test]
fn each_job_is_done_once_and_results_stand_in_order(rt: HostRuntime) -> Result<(), Fail> {
    let alloc = rt.alloc();
    let (done, count) = done_of(&rt, alloc, SMALL, vec![in alloc; 5, 3, 8, 1]?)?;
    assert_eq!(rt; done.as_slice(), [51, 31, 81, 11].as_slice());
    assert_eq!(rt; count, 4);
    let (done, count) = done_of(&rt, alloc, SMALL, vec![in alloc; 7]?)?;
    assert_eq!(rt; done.as_slice(), [71].as_slice());
    assert_eq!(rt; count, 1);
    let (done, count) = done_of(&rt, alloc, SMALL, Vec::new(alloc))?;
    assert!(rt; done.is_empty());
    assert_eq!(rt; count, 0);
    Ok(())
}

/// There is no room for a thread, so none is tried.
#[test]
fn jobs_are_done_by_the_caller_where_there_is_no_room(rt: HostRuntime) -> Result<(), Fail> {
    let alloc = rt.alloc();
    let (done, count) = done_of(&rt, alloc, TOO_LARGE, vec![in alloc; 5, 3, 8]?)?;
    assert_eq!(rt; done.as_slice(), [51, 31, 81].as_slice());
    assert_eq!(rt; count, 3);
    Ok(())
}

// Jobs with threads that are tried and refused.
fn refused<R: Threads + Wait + Sync>(
    rt: &R,
    alloc: Global,
    jobs: Vec<u32>,
    count: &AtomicU64,
) -> Result<Vec<(u32, bool)>, AllocError> {
    let work = Alone(count);
    let work = &work;
    thread::scope(
        thread::scope_env(),
        rt,
        move |scope| -> Result<Vec<(u32, bool)>, AllocError> {
            run_jobs(scope, rt, alloc, TOO_LARGE, 2, work, jobs)
        },
    )
}

/// Each thread is tried and refused, so each job is done when those before it are.
#[test]
fn a_job_whose_thread_is_refused_is_done_by_the_caller(rt: HostRuntime) -> Result<(), Fail> {
    let alloc = rt.alloc();
    let count = AtomicU64::new(0);
    let done = refused(&rt, alloc, vec![in alloc; 5, 3, 8, 2]?, &count)?;
    let alone = [(5, false), (3, false), (8, false), (2, false)];
    assert_eq!(rt; done.as_slice(), alone.as_slice());
    assert_eq!(rt; count.load(Ordering::SeqCst), 4);
    Ok(())
}

/// It does not end where a job is left to the thread of another one.
#[test]
fn jobs_are_done_at_the_same_time(rt: HostRuntime) -> Result<(), Fail> {
    let alloc = rt.alloc();
    let met = Met {
        rt: &rt,
        all: Barrier::new(4),
    };
    let done = map_vec(&rt, alloc, SMALL, vec![in alloc; 1, 2, 3, 4]?, &met)?;
    assert_eq!(rt; done.as_slice(), [1, 2, 3, 4].as_slice());
    Ok(())
}

#[test]
fn there_is_room_for_some_threads_and_for_none_with_too_large_a_stack(rt: HostRuntime) {
    assert_eq!(rt; room_for(rt.alloc(), SMALL, 3), 3);
    assert_eq!(rt; room_for(rt.alloc(), SMALL, 0), 0);
    assert_eq!(rt; room_for(rt.alloc(), TOO_LARGE, 3), 0);
}
