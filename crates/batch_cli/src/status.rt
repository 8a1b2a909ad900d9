//! From the bytes of a script or a journal to the status of the program.

ghost use Rattle.std.specs.Prelude.{◌≡◌, ◌≢◌, ◌≤◌, IfErr, IfOk, List, None, false, is_some, option_map, true, ℕ};
ghost use Rattle.std.specs.Io.KnownBytes.{Appends, Keeps};
ghost use Rattle.batch_cli.specs.Audits.{TellsVerdict};
ghost use Rattle.batch_cli.specs.CommandLine.{AreInRange};
ghost use Rattle.journal_text.specs.Entries.{AreLawful};
ghost use Rattle.script_runs.specs.Runs.{HasRun, IsRunOf, RunsText};
ghost use Rattle.script.specs.Scripts.{HasFault};

use crate::auditing::audited;
use crate::gate::Free;
use crate::journaling::kept;
use crate::run::{Journal, run_script};
use line_faults::bad_byte_at;
use program_io::{Options, REFUSED, failed};
use script::{Reason, Script, ScriptFault, parse_script};
use std::alloc::Global;
use std::io::Write;
use std::sync::Wait;
use std::thread::Threads;
use task_pool::Crew;

/// How many rounds of a worker find no piece before it ends.
const PATIENCE: u32 = 1_000;

/// Runs the script that the text spells, with the crews that the options name; or audits the text as a journal's, if
/// they ask for that. The replies or the verdict go to `out`. Why it failed goes to `err` as one line, if that takes it,
/// and where a byte or a line is bad, what is wrong there as a further one.
///
/// The first part of what it gives is the status of the program: 0 where it is done, 1 where memory or the output
/// failed, 2 where the script has a fault, of which nothing was run then, and 3 where the text is that of no legal
/// journal. The second is the text of the journal of the run, where the options name a file for it.
pub fn execute<R: Threads + Wait + Sync, W: Write, E: Write>(
    rt: &R,
    alloc: Global,
    options: &Options,
    text: &[u8],
    out: &mut W,
    err: &mut E,
) -> (u8, Option<Vec<u8>>)
    requires crew { AreInRange options.now.workers options.now.grain }
    ensures done { result.0 ≡ 0 → options.now.audit ≡ false → RunsText text.now (W.contents out.old) (W.contents out.new) (is_some options.now.journal) (option_map (λ kept. kept.items) result.1) }
    ensures refused { result.0 ≡ 2 → HasFault text.now }
    ensures nothing_run { result.0 ≡ 2 → Keeps (W.contents out.old) (W.contents out.new) }
    ensures audited { options.now.audit ≡ true → result.0 ≢ 1 → TellsVerdict text.now result.0 (W.contents out.old) (W.contents out.new) }
    ensures bad { result.0 ≡ 3 → options.now.audit ≡ true }
    ensures audit_keeps_none { options.now.audit ≡ true → result.1 ≡ None }
    ensures failure_keeps_none { result.0 ≢ 0 → result.1 ≡ None }
    ensures statuses { result.0 ≤ 3 }
{
    if options.audit {
        return (audited(alloc, text, out, err), None);
    }
    match ran(rt, alloc, crew_of(options), text, out, err) {
        Ok(journal) => kept(alloc, options.journal.is_some(), &journal, err),
        Err(status) => (status, None),
    }
}

/// The crew of each bulk verb.
fn crew_of(options: &Options) -> Crew
    ensures { (result.workers ≡ options.now.workers) × (result.grain ≡ options.now.grain) }
{
    Crew {
        workers: options.workers,
        grain: options.grain,
        patience: PATIENCE,
    }
}

/// Reads and runs the script, and gives the journal of the run; or the status where it fails.
fn ran<R: Threads + Wait + Sync, W: Write, E: Write>(
    rt: &R,
    alloc: Global,
    crew: Crew,
    text: &[u8],
    out: &mut W,
    err: &mut E,
) -> Result<Journal, u8>
    requires crew { AreInRange crew.workers crew.grain }
    ensures done { IfOk result (λ journal. HasRun text.now journal (W.contents out.old) (W.contents out.new)) }
    ensures lawful { IfOk result (λ journal. AreLawful journal) }
    ensures refused { IfErr result (λ status. status ≡ 2 → HasFault text.now × Keeps (W.contents out.old) (W.contents out.new)) }
    ensures statuses { IfErr result (λ status. (1 ≤ status) × (status ≤ 2)) }
{
    match parse_script(alloc, text) {
        Ok(script) => run(rt, alloc, crew, &script, out, err),
        Err(ScriptFault::Memory) => Err(failed(err, &ScriptFault::Memory)),
        Err(fault) => {
            let _ = writeln!(err, "{fault}");
            explain(text, &fault, err);
            Err(REFUSED)
        }
    }
}

/// Writes which byte of the faulty line is a bad one, where that is the fault.
fn explain<E: Write>(text: &[u8], fault: &ScriptFault, err: &mut E) {
    let ScriptFault::Line {
        number,
        reason: Reason::BadByte,
    } = fault
    else {
        return;
    };
    if let Some(bad) = bad_byte_at(text, *number) {
        let _ = writeln!(err, "trierun: {bad}");
    }
}

/// Runs the script, and gives the journal of the run; or the status where it fails.
fn run<R: Threads + Wait + Sync, W: Write, E: Write>(
    rt: &R,
    alloc: Global,
    crew: Crew,
    script: &Script,
    out: &mut W,
    err: &mut E,
) -> Result<Journal, u8>
    requires crew { AreInRange crew.workers crew.grain }
    ensures done { IfOk result (λ journal. (output : List ℕ) × IsRunOf script.now journal output × Appends (W.contents out.old) (W.contents out.new) output) }
    ensures lawful { IfOk result (λ journal. AreLawful journal) }
    ensures failed { IfErr result (λ status. status ≡ 1) }
{
    match run_script(rt, alloc, script, crew, out, &Free) {
        Ok(journal) => Ok(journal),
        Err(fault) => Err(failed(err, &fault)),
    }
}
