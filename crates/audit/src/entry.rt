//! The lines of entries, and the last line.

ghost use Rattle.std.specs.Prelude.{◌≡◌, ◌↔◌, false, IfOk, IsTrue, List, MatchBool, MatchOption, ℕ};
ghost use Rattle.journal_lines.specs.Lines.{end_line, ended};
ghost use Rattle.audit.specs.Answers.{IsNext, IsNoneNext};

use crate::judging::{ProgramTable, judge};
use journal_lines::{last_line, line_in};
use journal_text::asked_in;
use script::MOST_CLIENTS;
use std::alloc::Global;
use versions::NoMemory;

/// Whether the line is the last line of a journal of `entries` entries.
///
/// # Errors
///
/// Memory was refused.
pub fn is_end(alloc: Global, entries: u64, line: &[u8]) -> Result<bool, NoMemory>
    ensures { IfOk result (λ yes. IsTrue yes ↔ (line.now ≡ ended (end_line entries))) }
{
    // Most lines are an entry's: the last one is spelled only for a line that begins as it does.
    if !begins_as_end(line) {
        return Ok(false);
    }
    let mut last = last_line(alloc, entries)?.into_bytes();
    last.push(b'\n')?;
    Ok(last.as_slice() == line)
}

/// Whether the line begins as a last one does.
#[tactic(auto, using(crate::proofs::EndLemmas::begins_so))]
fn begins_as_end(line: &[u8]) -> bool
    ensures { result ≡ false → (entries : ℕ) → line.now ≡ ended (end_line entries) → ⊥ }
{
    line.starts_with(b"{\"entries\":")
}

/// Makes the step of the next entry, if the line is that of one. If not, the table may be in another state.
///
/// # Errors
///
/// Memory was refused.
pub fn is_next(alloc: Global, table: &mut ProgramTable, line: &[u8]) -> Result<bool, NoMemory>
    ensures { IfOk result (λ yes. MatchBool yes (IsNext table.old line.now table.new) (IsNoneNext table.old line.now)) }
{
    let number = u64::from(table.entries()) + 1;
    let Some(bytes) = without_newline(line) else {
        return Ok(false);
    };
    let Some(found) = line_in(alloc, number, bytes)? else {
        return Ok(false);
    };
    if found.seat >= u64::from(MOST_CLIENTS) {
        return Ok(false);
    }
    let Some(asked) = asked_in(alloc, found.call.as_bytes())? else {
        return Ok(false);
    };
    judge(alloc, table, asked, found.reply.as_bytes())
}

/// The line without its newline, if it has one at its end.
fn without_newline(line: &[u8]) -> Option<&[u8]>
    ensures { MatchOption result ((bytes : List ℕ) → line.now ≡ ended bytes → ⊥) (λ bytes. line.now ≡ ended bytes.now) }
{
    let (last, bytes) = line.split_last()?;
    if *last == b'\n' { Some(bytes) } else { None }
}
