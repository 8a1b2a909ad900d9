//! What the tests of a table share: steps of it as plain values, queries, and outcomes as plain values. A finish is made by
//! a part that answers the job, and a call as it was foreseen, which the contracts of a table ask for.
#![tactic(auto)]

mod asking;
mod foreseen;
mod plain_outcome;
mod steps;

pub use asking::{Ask, Asked, Asking, ThreeItems, Within, query_of};
pub use foreseen::{foresee, take_foreseen};
pub use plain_outcome::{
    PlainOutcome, call_outcome_of, finish_outcome, freeze_outcome, unit_outcome, value_in,
    view_outcome,
};
pub use steps::{Act, Do, Prepared, close, command_of, part_of, step_of, take, worked};
