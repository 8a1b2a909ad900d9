//! What each worker of a job has, and its moves: it takes a piece, cuts it, and works it.
#![tactic(auto)]

mod progress;
mod state;
mod working;

pub use progress::Progress;
pub use state::WorkerState;
pub use working::work_held;
