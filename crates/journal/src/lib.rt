//! A table of maps that keeps a journal of all that was asked of it and returned.
//!
//! Each call is one step of the machine of handles, and one entry of the journal: who asked, what, and what was
//! returned. The journal is legal after each: a run of that machine, which leads to the table as it stands. An entry is
//! placed once in a vector that any thread may read, and a token shows where. So the journal itself is a list of
//! tokens, and whoever asked keeps a token of each of its entries.
#![tactic(auto)]

mod caller;
mod entry;
mod filing;
mod frozen;
mod journal;
mod journal_name;
mod journaled_table;
mod outcomes;

pub use caller::Caller;
pub use entry::Entry;
pub use filing::{Event, Opened};
pub use journal::Journal;
pub use journal_name::{Entries, JournalName, Token};
pub use journaled_table::JournaledTable;
