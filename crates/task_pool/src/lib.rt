//! Crews of threads that work an operation over a view.
#![tactic(auto)]

mod asking;
mod calls;
mod crew;
mod gate;
mod gather;
mod jobs;
mod report;
mod report_making;
mod sequential;
mod shared;
mod threads;
mod worker;

pub use asking::ask_crew;
pub use calls::{run_crew, run_crew_in};
pub use crew::Crew;
pub use gate::{Free, Gate};
pub use report::Report;
pub use splitter::{MOST_GRAIN, MOST_WORKERS};
