//! Steps as plain values, and as steps of a core.

ghost use Rattle.std.specs.Prelude.{All, IfOk};
ghost use Rattle.bulk_ops.specs.Queries.{IsReady};
ghost use Rattle.core_steps.specs.Steps.{CanAsk, asked_by};

use core_steps::{Core, Move, Step};
use handles::Call;
use std::alloc::{AllocError, Global};
use std::sync::Arc;
use test_keys::ChosenKey;
use test_machine::{Do, Question, Request, TestQuery, command_of, query_of};

/// A core of the tests.
pub type TestCore = Core<ChosenKey, u64, TestQuery>;

/// A step of the tests.
pub type TestStep = Step<ChosenKey, u64, TestQuery>;

/// A step as a plain value.
#[derive(Clone, Copy)]
pub enum Plan {
    Open(u32),
    Snapshot(u32, u32),
    Drop(u32),
    On(u32, Do),
    View(u32),
    Freeze(u32, Question),
    Finish(u64),
    Abandon(u64),
    Move(u64, Move),
}

/// The step of a plan.
pub fn step_of(alloc: Global, plan: Plan) -> Result<TestStep, AllocError>
    ensures { IfOk result (λ step. CanAsk IsReady (asked_by step)) }
{
    Ok(match plan {
        Plan::Open(handle) => Step::Call(Call::Open(handle)),
        Plan::Snapshot(handle, to) => Step::Call(Call::Snapshot(handle, to)),
        Plan::Drop(handle) => Step::Call(Call::Drop(handle)),
        Plan::On(handle, what) => Step::Call(Call::On(handle, command_of(alloc, what)?)),
        Plan::View(handle) => Step::View(handle),
        Plan::Freeze(handle, question) => Step::Freeze(handle, shared_query(alloc, question)?),
        Plan::Finish(job) => Step::Finish(job),
        Plan::Abandon(job) => Step::Abandon(job),
        Plan::Move(job, chosen) => step_of_move(job, chosen),
    })
}

// The step of a worker's move.
fn step_of_move(job: u64, chosen: Move) -> TestStep
    ensures { CanAsk IsReady (asked_by result) }
{
    match chosen {
        Move::Take(worker) => Step::Take(job, worker),
        Move::Steal(worker, from) => Step::Steal(job, worker, from),
        Move::Split(worker) => Step::Split(job, worker),
        Move::Work(worker) => Step::Work(job, worker),
    }
}

// The query of a question, which a job shares.
fn shared_query(alloc: Global, question: Question) -> Result<Arc<TestQuery>, AllocError>
    ensures { IfOk result (λ query. IsReady query.value) }
{
    Ok(Arc::new(alloc, query_of(question))?)
}

/// The steps of plans.
pub fn steps_of(alloc: Global, plans: &[Plan]) -> Result<Vec<TestStep>, AllocError>
    ensures { IfOk result (λ steps. All (λ step. CanAsk IsReady (asked_by step)) steps.items) }
{
    let mut steps = Vec::new(alloc);
    for plan in plans {
        steps.push(step_of(alloc, *plan)?)?;
    }
    Ok(steps)
}

impl Plan {
    /// What a client asks, where it is a client's step.
    pub fn request(self) -> Option<Request> {
        match self {
            Plan::Open(handle) => Some(Request::Open(handle)),
            Plan::Snapshot(handle, to) => Some(Request::Snapshot(handle, to)),
            Plan::Drop(handle) => Some(Request::Drop(handle)),
            Plan::On(handle, what) => Some(Request::On(handle, what)),
            Plan::View(handle) => Some(Request::View(handle)),
            Plan::Freeze(handle, question) => Some(Request::Freeze(handle, question)),
            Plan::Finish(job) => Some(Request::Finish(job)),
            Plan::Abandon(job) => Some(Request::Abandon(job)),
            Plan::Move(_, _) => None,
        }
    }
}
