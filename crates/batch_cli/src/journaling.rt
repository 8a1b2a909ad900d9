//! The text of a run's journal.

ghost use Rattle.std.specs.Prelude.{◌≡◌, ◌≢◌, ◌≤◌, None, option_map};
ghost use Rattle.journal_text.specs.Entries.{AreLawful};
ghost use Rattle.script_runs.specs.Runs.{IsKept};

use crate::run::Journal;
use journal_text::journal_text;
use program_io::{DONE, RunFault, failed};
use std::alloc::Global;
use std::io::Write;

/// The text of the journal where it is asked for, with the status: 0, or 1 where memory for it is refused, which is
/// then reported on `err`.
pub fn kept<E: Write>(
    alloc: Global,
    asked: bool,
    journal: &Journal,
    err: &mut E,
) -> (u8, Option<Vec<u8>>)
    requires { AreLawful journal.now }
    ensures kept { result.0 ≡ 0 → IsKept asked journal.now (option_map (λ kept. kept.items) result.1) }
    ensures failed { result.0 ≢ 0 → result.1 ≡ None }
    ensures statuses { result.0 ≤ 1 }
{
    if !asked {
        return (DONE, None);
    }
    match journal_text(alloc, journal) {
        Ok(text) => (DONE, Some(text)),
        Err(_) => (failed(err, &RunFault::Memory), None),
    }
}
