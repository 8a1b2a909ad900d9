//! The audit of the text of a journal: whether it is that of a legal journal, and else the first line that spoils it.
//!
//! A text is read line by line. Each line is held to the one spelling of an entry with its own number, and the entry to
//! the table that the entries before it lead to: what was asked is asked again, and what is returned is compared.
#![tactic(auto)]

mod auditing;
mod entry;
mod images;
mod judging;
mod laws;
mod pairs;
mod reply_parts;
mod values;
mod verdict;

pub use auditing::{LARGEST, audit};
pub use laws::{law_of_entries, law_of_runs, law_of_statements, law_of_verdicts};
pub use verdict::Verdict;
