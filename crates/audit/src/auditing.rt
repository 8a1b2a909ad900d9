//! The audit of a text.

ghost use Rattle.std.specs.Prelude.{IfOk};
ghost use Rattle.audit.specs.Verdicts.{IsVerdict};

use crate::entry::{is_end, is_next};
use crate::judging::ProgramTable;
use crate::verdict::Verdict;
use handles::{Limits, MOST_ENTRIES, Table};
use journal_lines::Lines;
use std::alloc::Global;
use versions::{MOST_PAIRS, NoMemory};

/// How much the maps and the journal of a program may hold.
pub const LARGEST: Limits = Limits {
    pairs: MOST_PAIRS,
    entries: MOST_ENTRIES,
};

/// Whether the text is that of a legal journal, and of how many entries; else the first line with which no legal
/// journal's text begins so.
///
/// # Errors
///
/// Memory was refused.
pub fn audit(alloc: Global, text: &[u8]) -> Result<Verdict, NoMemory>
    ensures { IfOk result (IsVerdict text.now) }
{
    let mut table: ProgramTable = Table::new(alloc, LARGEST)?;
    let mut over = false;
    for line in Lines(text) {
        let entries = u64::from(table.entries());
        if over {
            return Ok(Verdict::Bad(entries + 2));
        }
        if is_end(alloc, entries, line)? {
            over = true;
        } else if !is_next(alloc, &mut table, line)? {
            return Ok(Verdict::Bad(entries + 1));
        }
    }
    let entries = u64::from(table.entries());
    if over {
        Ok(Verdict::Legal(entries))
    } else {
        Ok(Verdict::Bad(entries + 1))
    }
}
