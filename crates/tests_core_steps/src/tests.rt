//! Cores and boards beside what they should return.
//!
//! Most tests are a list of steps, each beside its outcome. A step that has no memory ends its test where it stands.

mod boards;
mod calls;
mod kinds;
mod random;
mod rows;
mod twins;

use handles::{Limits, MOST_ENTRIES};
use splitter::{MOST_GRAIN, MOST_WORKERS};
use std::alloc::Global;
use std::fmt::Debug;
use std::panic::Expect;
use std::process::Abort;
use test_cores::{
    Case, PlainOutcome, Plan, TestCore, TestOutcome, TestStep, plain_of, step_of, steps_of,
};
use versions::MOST_PAIRS;

// The largest limits.
const LARGEST: Limits = Limits {
    pairs: 1 << 24,
    entries: 1 << 20,
};

// The plans of steps.
fn plans_of(rt: &impl Abort, alloc: Global, rows: &[Case]) -> Vec<Plan> {
    let mut plans = Vec::new(alloc);
    for row in rows {
        plans.push(row.0).expect(rt, "no room");
    }
    plans
}

// The outcomes of the steps.
fn outcomes_of(rt: &impl Abort, alloc: Global, rows: &[Case]) -> Vec<PlainOutcome> {
    let mut returned = Vec::new(alloc);
    for row in rows {
        returned.push(row.1).expect(rt, "no room");
    }
    returned
}

// A core. No check of the crate proves what a call asks for, so it is asserted here.
fn core_of(rt: &impl Abort, alloc: Global, limits: Limits, workers: u32, grain: u64) -> TestCore {
    assert!(rt; 1 <= limits.pairs && limits.pairs <= MOST_PAIRS);
    assert!(rt; 2 <= limits.entries && limits.entries <= MOST_ENTRIES);
    assert!(rt; 1 <= workers && workers <= MOST_WORKERS);
    assert!(rt; 1 <= grain && grain <= MOST_GRAIN);
    TestCore::new(alloc, limits, workers, grain).expect(rt, "no core")
}

// A core with the largest limits, two workers and grain 1.
fn core_of_two(rt: &impl Abort, alloc: Global) -> TestCore {
    core_of(rt, alloc, LARGEST, 2, 1)
}

// What the core answers to a step.
fn answer_to(rt: &impl Abort, alloc: Global, core: &mut TestCore, step: TestStep) -> TestOutcome {
    core.step(alloc, step).expect(rt, "no answer")
}

// What the core returns for a step.
fn take_step(rt: &impl Abort, alloc: Global, core: &mut TestCore, plan: Plan) -> PlainOutcome {
    let step = step_of(alloc, plan).expect(rt, "no step");
    plain_of(&answer_to(rt, alloc, core, step))
}

// The core returns these outcomes for the steps, one after another.
fn assert_steps(rt: &impl Abort, alloc: Global, core: &mut TestCore, rows: &[Case]) {
    for (plan, returned) in rows {
        assert_outcome(rt, take_step(rt, alloc, core, *plan), *returned);
    }
}

// The core returns these outcomes for the plans as one list.
fn assert_run(
    rt: &impl Abort,
    alloc: Global,
    core: &mut TestCore,
    plans: &[Plan],
    returned: &[PlainOutcome],
) {
    let steps = steps_of(alloc, plans).expect(rt, "no steps");
    match core.run(alloc, steps.as_slice()) {
        Ok(trace) => assert_outcomes(rt, &trace.outcomes, returned),
        Err(_) => panic!(rt; "no memory"),
    }
}

// Each outcome is the one that is expected.
fn assert_outcomes(rt: &impl Abort, outcomes: &[TestOutcome], returned: &[PlainOutcome]) {
    assert_is(rt, outcomes.len(), returned.len());
    for (outcome, returned) in outcomes.iter().zip(returned) {
        assert_outcome(rt, plain_of(outcome), *returned);
    }
}

// The outcome is the one that is expected.
fn assert_outcome(rt: &impl Abort, returned: PlainOutcome, want: PlainOutcome) {
    assert_is(rt, returned, want);
}

// It is so.
fn assert_true(rt: &impl Abort, is_so: bool) {
    assert_is(rt, is_so, true);
}

// What is seen is what is wanted.
fn assert_is<T: PartialEq + Debug + Drop>(rt: &impl Abort, seen: T, want: T) {
    assert_eq!(rt; seen, want);
}
