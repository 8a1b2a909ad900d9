//! A machine that any scheduler may drive: clients' steps and workers' steps, in any interleaving.
//!
//! Beside the machine of handles stands a board for each open job: what waits for each worker, what it holds and what
//! it has worked. A client's step is the machine's; a worker's is the board's, and leaves the machine as it is. The
//! states, steps and runs are definitions in `specs/`; the laws say what is true of every run. A `Core` is stepped so,
//! and the contract of `Core::run` is that its steps are a run.
#![tactic(auto)]

mod board;
mod collecting;
mod cores;
mod job_state;
mod laws;
mod moves;
mod outcome;
mod step;

pub use board::{Board, first_board, work_on};
pub use collecting::collected;
pub use cores::Core;
pub use laws::{
    law_of_boards, law_of_cores, law_of_coverings, law_of_jobs, law_of_runs, law_of_tilings,
};
pub use moves::{Move, make_move};
pub use outcome::{Outcome, Trace};
pub use step::Step;
pub use worker_states::Progress;
