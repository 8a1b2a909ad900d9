//! The text of a journal.

ghost use Rattle.std.specs.Prelude.{◌≡◌, ◌++◌, IfOk, IsUtf8, OnOk};
ghost use Rattle.journal_lines.specs.Lines.{ended};
ghost use Rattle.journal_text.specs.Calls.{call_text, outcome_text};
ghost use Rattle.journal_text.specs.Entries.{AreLawful, entry_line, text_of_journal};

use crate::call::push_call;
use crate::outcome::push_outcome;
use journal::{Entry, Journal};
use journal_lines::{last_line, line_text};
use keys::ByteText;
use questions::ScriptQuery;
use std::alloc::Global;
use versions::NoMemory;

/// The journal of a program.
pub type ProgramJournal = Journal<ByteText, i64, ScriptQuery, Option<i128>>;

/// The text of the journal: a line for each entry, and a last one that says how many there are.
///
/// The entries have to be lawful, as those of a script's run are. So their calls and replies are text, as JSON wants it.
///
/// # Errors
///
/// Memory was refused.
pub fn journal_text(alloc: Global, journal: &ProgramJournal) -> Result<Vec<u8>, NoMemory>
    requires { AreLawful journal.now }
    ensures { IfOk result (λ text. text.items ≡ text_of_journal journal.now) }
{
    let mut text = Vec::new(alloc);
    for place in 0..journal.len() {
        let Some(entry) = journal.entry(place) else {
            unreachable!();
        };
        push_entry(alloc, &mut text, place as u64 + 1, entry)?;
    }
    let last = last_line(alloc, journal.len() as u64)?;
    text.extend_from_slice(last.as_bytes())?;
    text.push(b'\n')?;
    Ok(text)
}

/// Appends the line of the entry of this number. What it asked and what was returned is written as text.
fn push_entry(
    alloc: Global,
    text: &mut Vec<u8>,
    number: u64,
    entry: &Entry<ByteText, i64, ScriptQuery, Option<i128>>,
) -> Result<(), NoMemory>
    requires call { IsUtf8 (call_text entry.now.request) }
    requires reply { IsUtf8 (outcome_text entry.now.outcome) }
    ensures { OnOk result (text.new.items ≡ text.old.items ++ ended (entry_line number entry.now)) }
{
    let mut call = Vec::new(alloc);
    if push_call(&mut call, entry.request()).is_err() {
        return Err(NoMemory);
    }
    let mut reply = Vec::new(alloc);
    push_outcome(alloc, &mut reply, entry.outcome())?;
    let call = as_text(&call);
    let reply = as_text(&reply);
    let line = line_text(alloc, number, call, reply, u64::from(entry.seat()))?;
    text.extend_from_slice(line.as_bytes())?;
    text.push(b'\n')?;
    Ok(())
}

/// The bytes as the text that they are.
fn as_text(bytes: &[u8]) -> &str
    requires { IsUtf8 bytes.now }
    ensures { result.now ≡ bytes.now }
{
    let Ok(text) = str::from_utf8(bytes) else {
        unreachable!();
    };
    text
}
