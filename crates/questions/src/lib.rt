//! What a program of scripts asks of a map: the queries of the bulk verbs with their closures and folds, the calls of
//! the other verbs, and the replies that show what is returned.
//!
//! Contracts see the table of such a program as one machine, whose laws are here too.
#![tactic(auto)]

mod closures;
mod fold;
mod laws;
mod line_replies;
mod listing;
mod query;
mod request;

pub use laws::{finishes_leave_one_state, finishes_tell_one_answer, requests_have_one_outcome};
pub use line_replies::{reply_shown, reply_to_answer};
pub use listing::listing_of;
pub use query::{ScriptPart, ScriptQuery};
pub use request::{ScriptRequest, request_of};
