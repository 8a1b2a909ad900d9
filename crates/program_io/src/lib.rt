//! What the program reads and prints besides replies: the words of its command line, by a grammar of the crate `clap`, the
//! bytes that they name, the file of a journal, and why it failed.
#![tactic(auto)]

mod arguments;
mod faults;
mod grammar;
mod journal_file;
mod parsing;
mod reading;
mod standard_error;
mod words;

pub use arguments::{ArgFault, Options};
pub use faults::{DONE, FAILED, REFUSED, RunFault, failed, shown};
pub use journal_file::{JournalFile, keep, opened_journal, write_journal};
pub use parsing::options;
pub use reading::{input, read_journal, read_script};
pub use standard_error::StandardError;
pub use words::given_options;
