//! The run of a script of clients, each on a thread of its own over one map.
//!
//! The crate `script` reads a script; [`run_script`] runs it, writes the replies and gives the journal, and [`execute`]
//! reads and runs it, or audits a journal, and gives the status of the program. Of the crate `program_io` [`options`] reads
//! the words of the command line, [`read_script`] and [`read_journal`] read the bytes that it names, and [`write_journal`]
//! writes a journal's.
#![tactic(auto)]

mod auditing;
mod client;
mod events;
mod gate;
mod journaling;
mod run;
mod status;

pub use arguments::{Folding, Key, MapKey, Mapping, Test};
pub use client::ScriptClient;
pub use gate::{Free, LineGate};
pub use program_io::{
    ArgFault, Options, RunFault, options, read_journal, read_script, write_journal,
};
pub use questions::ScriptQuery;
pub use run::{Journal, run_script};
pub use script::{
    CommandLine, LineReply, Listing, Reason, Script, ScriptFault, Statement, parse_script,
    spelled_text_has_no_fault, text_has_one_fault, text_has_one_script,
};
pub use script_runs::{run_has_legal_text, script_has_one_output};
pub use status::execute;
pub use task_pool::Crew;
