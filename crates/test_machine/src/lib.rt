//! The table of handles as a plain program over lists, beside which tests run the table itself: requests and questions
//! as plain values, a map as a list of rows, and the outcome of each request.
#![tactic(auto)]

mod questions;
mod requests;
mod rows;
mod table;
mod table_outcome;

pub use questions::{ALL, EVEN, Passing, Question, TestQuery, query_of};
pub use requests::{Do, Request, command_of, shared_key};
pub use rows::{Place, PlainPair, row_of, value_of};
pub use table::{Expected, OpenJob, PlainTable};
pub use table_outcome::{TableOutcome, answer, outcome_of_answer, outcome_of_reply};
