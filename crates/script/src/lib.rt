//! Scripts of clients: their text, what it says, and the text of replies.
//!
//! [`parse_script`] reads a script: its command lines, or its first fault. A line is a client, a verb and its
//! arguments. A verb stands in `specs/Grammar.antt` with the places of its arguments, in `specs/Statements.antt` with
//! the words of its statement, and in one arm of the parser, `line.rt`. What a field spells in its place is read by the
//! crate `arguments`.
#![tactic(auto)]

mod argument;
mod fault;
mod fields;
mod laws;
mod limits;
mod line;
mod lines;
mod listing;
mod parse;
mod parse_error;
mod reply;
mod statement;

pub use fault::{Reason, ScriptFault};
pub use laws::{spelled_text_has_no_fault, text_has_one_fault, text_has_one_script};
pub use limits::MOST_CLIENTS;
pub use listing::Listing;
pub use parse::{Script, parse_script, statement_in};
pub use reply::{LineReply, push_line, push_reply};
pub use statement::{CommandLine, Statement};
