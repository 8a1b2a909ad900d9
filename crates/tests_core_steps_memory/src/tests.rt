//! Cores with requests for memory refused, and what laws show of cores and boards.
//!
//! Most tests are a list of steps, each beside its outcome: a list is no work to prove. A step that has no memory where it
//! is given some ends its test where it stands, so that no test has values to drop on the way.
ghost use Rattle.bulk_ops.specs.Queries.{IsReady};
ghost use Rattle.core_steps.specs.Steps.{CanAsk, asked_by};

mod clients;
mod memory;
mod refusals;
mod twins;
mod worked;

use handles::Limits;
use std::alloc::Global;
use std::fmt::Debug;
use std::panic::Expect;
use std::process::Abort;
use test_cores::{Case, PlainOutcome, Plan, TestCore, TestOutcome, TestStep, plain_of, step_of};

// The largest limits.
const LARGEST: Limits = Limits {
    pairs: 1 << 24,
    entries: 1 << 20,
};

// A core with the largest limits, two workers and grain 1.
fn core_of_two(rt: &impl Abort, alloc: Global) -> TestCore {
    TestCore::new(alloc, LARGEST, 2, 1).expect(rt, "no core")
}

// What the core answers to a step.
fn answer_to(rt: &impl Abort, alloc: Global, core: &mut TestCore, step: TestStep) -> TestOutcome
    requires { CanAsk IsReady (asked_by step) }
{
    core.step(alloc, step).expect(rt, "no answer")
}

// What the core returns for a step.
fn take_step(rt: &impl Abort, alloc: Global, core: &mut TestCore, plan: Plan) -> PlainOutcome {
    let step = step_of(alloc, plan).expect(rt, "no step");
    plain_of(&answer_to(rt, alloc, core, step))
}

// The core returns these outcomes for the steps, one after another.
fn assert_steps(rt: &impl Abort, alloc: Global, core: &mut TestCore, rows: &[Case]) {
    for (plan, returned) in rows {
        assert_outcome(rt, take_step(rt, alloc, core, *plan), *returned);
    }
}

// The outcome is the one that is expected.
fn assert_outcome(rt: &impl Abort, returned: PlainOutcome, want: PlainOutcome) {
    assert_is(rt, returned, want);
}

// It is so.
fn assert_true(rt: &impl Abort, is_so: bool) {
    assert_is(rt, is_so, true);
}

// What is seen is what is wanted. An assertion is proved wherever it is written out, so it stands here once.
fn assert_is<T: PartialEq + Debug + Drop>(rt: &impl Abort, seen: T, want: T) {
    assert_eq!(rt; seen, want);
}
