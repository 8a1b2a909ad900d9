//! Jobs by threads of a scope.
ghost use Rattle.std.specs.Prelude.{◌≡◌, ◌<◌, ℕ, All, IfOk, slice_index_or, vec_len};

use crate::room::room_for;
use crate::work::Work;
use core::thread::Stack;
use std::alloc::{AllocError, Global};
use std::snapshot::Snapshot;
use std::sync::Wait;
use std::thread;
use std::thread::{Promise, Scope, Threads};

/// Does the work with each job, and gives what it came to in the order of the jobs.
///
/// Each job has a thread of its own, with a stack of `stack` bytes, rounded up to a multiple of 128 KiB; the first is
/// done by the caller's thread. A job whose thread cannot be started, or for whose thread there is not the address
/// space, is done by the caller's thread after those before it.
///
/// On `Err`, which means that memory ran out, the results are dropped, and some jobs may have been dropped with no call.
/// The caller's stack grows by some hundred bytes for each job.
pub fn map_vec<R, W>(
    rt: &R,
    alloc: Global,
    stack: usize,
    jobs: Vec<W::Job>,
    work: &W,
) -> Result<Vec<W::Out>, AllocError>
where
    R: Threads + Wait + Sync,
    W: Work + Sync,
    W::Job: Send + Drop,
    W::Out: Send + Drop,
    requires { All (λ j. W.needs work.now j) jobs.items }
    ensures len { IfOk result (λ v. vec_len v ≡ vec_len jobs) }
    ensures each { IfOk result (λ v. (k : ℕ) (j : W.Job) (x : W.Out) → k < vec_len jobs → W.gives work.now (slice_index_or jobs.items k j) (slice_index_or v.items k x)) }
{
    let threads = room_for(alloc, stack, jobs.len().saturating_sub(1));
    thread::scope(
        thread::scope_env(),
        rt,
        move |scope| -> Result<Vec<W::Out>, AllocError>
            requires { All (λ j. W.needs work.now j) jobs.items }
            ensures { IfOk result (λ v. (vec_len v ≡ vec_len jobs) × ((k : ℕ) (j : W.Job) (x : W.Out) → k < vec_len jobs → W.gives work.entry.now (slice_index_or jobs.items k j) (slice_index_or v.items k x))) }
        { run_jobs(scope, rt, alloc, stack, threads, work, jobs) },
    )
}

// That a result is one which the work may give with the job.
#[derive(Drop)]
struct OfJob<W: Work> {
    work: Snapshot<W>,
    job: Snapshot<W::Job>,
}

impl<W: Work> Promise<W::Out> for OfJob<W> {
    ghost kept_by = { λ p r. W.gives p.work.value p.job.value r };
}

// The last job goes to a thread, and then those before it.
#[cycle(jobs)]
pub(crate) fn run_jobs<'s, E, R, W>(
    scope: &Scope<'s, E>,
    rt: &R,
    alloc: Global,
    stack: usize,
    threads: usize,
    work: &'s W,
    mut jobs: Vec<W::Job>,
) -> Result<Vec<W::Out>, AllocError>
where
    R: Threads,
    W: Work + Sync + 's,
    W::Job: Send + Drop + 's,
    W::Out: Send + Drop + 's,
    requires { All (λ j. W.needs work.now j) jobs.items }
    ensures len { IfOk result (λ v. vec_len v ≡ vec_len jobs) }
    ensures each { IfOk result (λ v. (k : ℕ) (j : W.Job) (x : W.Out) → k < vec_len jobs → W.gives work.now (slice_index_or jobs.items k j) (slice_index_or v.items k x)) }
{
    let Some(job) = jobs.pop() else {
        return Ok(Vec::new(alloc));
    };
    if threads == 0 || jobs.is_empty() {
        let mut done = run_jobs(scope, rt, alloc, stack, threads, work, jobs)?;
        done.push(work.run(job))?;
        return Ok(done);
    }
    let promise = OfJob {
        work: Snapshot::of(work),
        job: Snapshot::of(&job),
    };
    let began = Stack::new().stack_size(stack).spawn_scoped_with(
        scope,
        promise,
        move || -> W::Out
            requires { W.needs work.now job }
            ensures { W.gives work.entry.now job result }
        { work.run(job) },
    );
    let mut done = run_jobs(scope, rt, alloc, stack, threads - 1, work, jobs)?;
    done.push(match began {
        Ok(thread) => thread.join(rt),
        Err(refused) => (refused.value)(),
    })?;
    Ok(done)
}
