//! Laws of scripts and of their runs. Each function says one, and does nothing.

ghost use Rattle.std.specs.Prelude.{◌≡◌, ℕ, List};
ghost use Rattle.script_runs.specs.Legality.{RunsHaveLawfulEntries, RunsHaveLegalTexts};
ghost use Rattle.script_runs.specs.Runs.{LeavesNoChoice, HasOneClient, IsOutputOf};
ghost use Rattle.script.specs.declared.statement.CommandLine.{CommandLine};

use audit::{law_of_entries, law_of_runs, law_of_statements};
use handles::law_of_freezes;
use keys::ByteText;
use questions::{ScriptQuery, finishes_tell_one_answer, requests_have_one_outcome};

/// What is written for a script of one client is a function of the script, if no line of it is a `find`, which may
/// return any pair that passes, or a `mappairs`, which may keep any of the images of a key.
pub fn script_has_one_output()
    ensures { (script : List CommandLine) (one other : List ℕ) → HasOneClient script → LeavesNoChoice script → IsOutputOf script one → IsOutputOf script other → one ≡ other }
{
    law_of_freezes::<ByteText, i64, ScriptQuery>();
    requests_have_one_outcome();
    finishes_tell_one_answer();
}

/// The text of the journal of a run is legal: `audit` says so of it, or that memory was refused.
pub fn run_has_legal_text()
    ensures { RunsHaveLegalTexts }
{
    law_of_runs();
    law_of_statements();
}

/// The entries of the journal of a run are lawful, so that `journal_text` may write it.
pub fn run_has_lawful_entries()
    ensures { RunsHaveLawfulEntries }
{
    law_of_entries();
    law_of_statements();
}
