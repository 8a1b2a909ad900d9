//! What a run of a script is, and its laws: which events each line makes, which journals a run has, and what is written.
//!
//! The definitions stand in `specs/`. The crate `batch_cli` runs scripts so.
#![tactic(auto)]

mod laws;

pub use laws::{run_has_lawful_entries, run_has_legal_text, script_has_one_output};
