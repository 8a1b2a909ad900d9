//! The workers, which answer the requests of all users side by side.
use crate::service::{OK, Service};
use std::alloc::Global;
use std::sync::Wait;
use std::sync::atomic::{AtomicU64, Ordering};
use std::thread;
use std::thread::Threads;
use tambyulo::PutError;

/// How many workers there are.
pub const WORKERS: usize = 4;

/// How many users there are, and how often each of them asks each worker.
pub const USERS: u64 = 50;

const REQUESTS: u64 = 5;

/// Answers the requests that one worker gets, and returns how many it allowed.
fn work<R: Wait>(rt: &R, alloc: Global, service: &Service, worker: usize) -> Result<u64, PutError> {
    let mut allowed = 0u64;
    for request in 0..USERS * REQUESTS {
        // Each worker begins at another user.
        let user = request.wrapping_add(worker as u64) % USERS;
        if service.log_in(rt, alloc, user)? == OK {
            allowed = allowed.saturating_add(1);
        }
    }
    Ok(allowed)
}

/// Runs all workers, each of which counts itself as finished in the end, and returns how many requests they allowed.
pub fn run_workers<R: AllocGlobal + Threads + Wait + Sync>(
    rt: &R,
    service: &Service,
    finished: &AtomicU64,
) -> Result<u64, PutError> {
    let alloc = rt.alloc();
    let work_one = |worker: usize| {
        let allowed = work(rt, alloc, service, worker);
        finished.fetch_add(1, Ordering::SeqCst);
        allowed
    };
    let mut all = 0u64;
    for allowed in thread::map_indices(rt, alloc, WORKERS, &work_one)? {
        all = all.saturating_add(allowed?);
    }
    Ok(all)
}
