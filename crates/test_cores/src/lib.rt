//! What the tests of a core share: steps and outcomes as plain values, and the worked steps of two workers.
#![tactic(auto)]

mod plain_outcome;
mod plans;
mod worked;

pub use plain_outcome::{
    PlainOutcome, TestOutcome, TestPart, found_row, outcome_of, plain_of, plain_part, rows_of_map,
    rows_of_view,
};
pub use plans::{Plan, TestCore, TestStep, step_of, steps_of};
pub use worked::{COUNT, Case, END, WORKED, all_worked, begun};
