//! Operations on whole maps over plain closures.
//!
//! A query keeps each closure beside the fact that it means something (`bulk_ops::Stored`). An operation of this crate
//! takes the closure as it is, with no fact beside it. What it promises is exact for each meaning that the closure has.
#![tactic(auto)]

mod closure;
mod counts;
mod filters;
mod folds;
mod made;
mod new_values;

pub use closure::{answer_at, answer_in};
pub use counts::Counts;
pub use filters::Filters;
pub use folds::Folds;
pub use made::{no_pairs, put_within};
pub use new_values::NewValues;
