//! The audit of a journal's text, from its bytes to the status of the program.

ghost use Rattle.std.specs.Prelude.{◌≡◌, ◌≢◌, ◌≤◌, IfOk, string_bytes};
ghost use Rattle.batch_cli.specs.Audits.{TellsVerdict, status_for, verdict_line};

use audit::{Verdict, audit};
use line_faults::bad_line_in;
use program_io::{DONE, RunFault, failed};
use std::alloc::{AllocError, Global};
use std::io::Write;

/// The text is that of no legal journal.
const BAD: u8 = 3;

/// Writes whether the text is that of a legal journal and of how many entries, or which line spoils it first, and to
/// `err` what is wrong in that line. It gives the status: 0 where the text is legal, 3 where it is not, and 1 where
/// memory or the output failed.
pub fn audited<W: Write, E: Write>(alloc: Global, text: &[u8], out: &mut W, err: &mut E) -> u8
    ensures told { result ≢ 1 → TellsVerdict text.now result (W.contents out.old) (W.contents out.new) }
    ensures other { result ≢ 2 }
    ensures statuses { result ≤ 3 }
{
    let Ok(verdict) = audit(alloc, text) else {
        return failed(err, &RunFault::Memory);
    };
    let Ok(line) = line_of(alloc, verdict) else {
        return failed(err, &RunFault::Memory);
    };
    match out.write_all(line.as_bytes()) {
        Ok(()) => {
            explain(alloc, text, verdict, err);
            status_of(verdict)
        }
        Err(_) => failed(err, &RunFault::Write),
    }
}

/// Writes what is wrong in the first bad line, if there is one.
fn explain<E: Write>(alloc: Global, text: &[u8], verdict: Verdict, err: &mut E) {
    let Verdict::Bad(number) = verdict else {
        return;
    };
    if let Ok(bad) = bad_line_in(alloc, text, number) {
        let _ = writeln!(err, "trierun: line {number}: {bad}");
    }
}

/// The line that is written for the verdict.
fn line_of(alloc: Global, verdict: Verdict) -> Result<String, AllocError>
    ensures { IfOk result (λ line. string_bytes line ≡ verdict_line verdict) }
{
    match verdict {
        Verdict::Legal(entries) => format!(in alloc; "legal {entries}\n"),
        Verdict::Bad(line) => format!(in alloc; "bad {line}\n"),
    }
}

/// The status for the verdict.
fn status_of(verdict: Verdict) -> u8
    ensures status { result ≡ status_for verdict }
    ensures other { result ≢ 2 }
    ensures most { result ≤ 3 }
{
    match verdict {
        Verdict::Legal(_) => DONE,
        Verdict::Bad(_) => BAD,
    }
}
