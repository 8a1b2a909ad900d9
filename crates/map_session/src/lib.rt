//! Sessions: the calls of one thread on a map that has a history of its writes, whose contracts say what others wrote.
//!
//! A `Session` has seen a beginning of the history, and each of its calls goes on from there: what it finds is what the
//! history leaves the key that is seen then, and what it writes is an entry of it. The history exists in proofs alone.
#![tactic(auto)]

mod handles;
mod history_law;
mod put_error;
mod session;
mod steps;

pub use handles::handles_in;
pub use history_law::law_of_last_put;
pub use put_error::PutError;
pub use session::Session;
pub use steps::{made_at, passes, put_present};
