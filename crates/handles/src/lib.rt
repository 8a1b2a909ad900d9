//! A table of maps under handle numbers, each call of which is one step of a machine.
//!
//! The machine keeps one plain finite map for each handle that is live, the query and the frozen map of each open job,
//! and counts the entries of a journal. Its states, steps and runs are definitions in `specs/Machine.antt`; the
//! contract of each call of a `Table` is a step.
#![tactic(auto)]

mod call;
mod call_reply;
mod copying;
mod entries;
mod jobs;
mod laws;
mod limits;
mod no_query;
mod outcome;
mod request;
mod request_ref;
mod table;

pub use call::Call;
pub use call_reply::CallReply;
pub use entries::{is_entry, lacks_memory};
pub use held_maps::{Command, Reply};
pub use laws::{
    law_of_answers, law_of_foresight, law_of_freezes, law_of_open_jobs, law_of_other_handles,
    law_of_refusals,
};
pub use limits::{Limits, MOST_ENTRIES};
pub use no_query::NoQuery;
pub use outcome::Outcome;
pub use request::Request;
pub use table::Table;
