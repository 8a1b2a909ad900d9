//! The run of a script.

ghost use Rattle.std.specs.Prelude.{◌≡◌, ◌<◌, ◌≤◌, All, IfOk, IsErrOf, List, slice_index_or, ℕ, vec_len};
ghost use Rattle.std.specs.Io.KnownBytes.{Appends, Keeps};
ghost use Rattle.script.specs.Statements.{IsLawfulLine};
ghost use Rattle.batch_cli.specs.CommandLine.{AreInRange};
ghost use Rattle.journal_text.specs.Entries.{AreLawful};
ghost use Rattle.script_runs.specs.Runs.{IsRunOf};

use crate::client::ScriptClient;
use crate::gate::LineGate;
use audit::LARGEST;
use keys::ByteText;
use locked_map::{MOST_SEATS, NoJournal, with_clients};
use program_io::RunFault;
use questions::ScriptQuery;
use reply_order::{all_of, replies_in_order};
use script::{CommandLine, Script};
use script_runs::run_has_lawful_entries;
use std::alloc::{AllocError, Global};
use std::io::Write;
use std::sync::Wait;
use std::thread::Threads;
use task_pool::Crew;

/// The journal of a run: what each client asked and was returned, in the order in which it was done. A freeze holds
/// the question of its line.
pub type Journal = locked_map::Journal<ByteText, i64, ScriptQuery, Option<i128>>;

/// Runs the lines of each client in the order of their numbers, each client on a thread of its own over one map, and
/// writes a line for each, in the order of all numbers: its number, a space and its reply. All replies are there before
/// the first is written. It gives the journal of the run, whose entries are lawful: `journal_text` writes it.
///
/// A crew of its own works each bulk verb. A client asks the gate before each of its lines. The clients are those from 0
/// to the greatest number in the script; one without a line ends at once. A client whose thread cannot be started runs
/// on the caller's when those before it have ended.
///
/// # Errors
///
/// Memory runs out, with nothing written; or the writer fails.
pub fn run_script<R, W, G>(
    rt: &R,
    alloc: Global,
    script: &Script,
    crew: Crew,
    writer: &mut W,
    gate: &G,
) -> Result<Journal, RunFault>
where
    R: Threads + Wait + Sync,
    W: Write,
    G: LineGate + Sync,
    requires crew { AreInRange crew.workers crew.grain }
    ensures ok { IfOk result (λ journal. (text : List ℕ) × IsRunOf script.now journal text × Appends (W.contents writer.old) (W.contents writer.new) text) }
    ensures lawful { IfOk result (λ journal. AreLawful journal) }
    ensures memory { IsErrOf result RunFault.Memory → Keeps (W.contents writer.old) (W.contents writer.new) }
{
    run_has_lawful_entries();
    let Ok((replies, journal)) = replies_to(rt, alloc, script.lines(), crew, gate) else {
        // A run is not torn, and so it has no fault of that name.
        return Err(RunFault::Memory);
    };
    match writer.write_all(replies.as_slice()) {
        Ok(()) => Ok(journal),
        Err(_) => Err(RunFault::Write),
    }
}

/// The replies of the lines, run from no handles, and the journal of that run.
fn replies_to<R: Threads + Wait + Sync, G: LineGate + Sync>(
    rt: &R,
    alloc: Global,
    lines: &[CommandLine],
    crew: Crew,
    gate: &G,
) -> Result<(Vec<u8>, Journal), NoJournal>
    requires lines { All IsLawfulLine lines.now }
    requires crew { AreInRange crew.workers crew.grain }
    ensures { IfOk result (λ run. IsRunOf lines.now run.1 run.0.items) }
{
    let clients = clients_of(alloc, lines, crew, gate)?;
    let (outs, closed) = with_clients(rt, alloc, LARGEST, clients)?;
    let replies = all_of(alloc, outs)?;
    let text = replies_in_order(alloc, lines, replies.as_slice())?;
    Ok((text, closed.journal))
}

/// The clients of the lines, by their numbers.
fn clients_of<'a, G: LineGate>(
    alloc: Global,
    lines: &'a [CommandLine],
    crew: Crew,
    gate: &'a G,
) -> Result<Vec<ScriptClient<'a, G>>, AllocError>
    requires { All IsLawfulLine lines.now }
    ensures each { IfOk result (λ clients. (k : ℕ) (c : _) → k < vec_len clients → ((slice_index_or clients.items k c).number ≡ k) × ((slice_index_or clients.items k c).lines.now ≡ lines.now)) }
    ensures crews { IfOk result (λ clients. (k : ℕ) (c : _) → k < vec_len clients → (slice_index_or clients.items k c).crew ≡ crew) }
    ensures all { IfOk result (λ clients. All (λ line. line.client < vec_len clients) lines.now) }
    ensures most { IfOk result (λ clients. vec_len clients ≤ MOST_SEATS) }
{
    let count = count_of(lines);
    let mut clients = Vec::with_capacity(alloc, count as usize)?;
    for number in 0..count {
        clients.push(ScriptClient {
            number,
            lines,
            crew,
            gate,
        })?;
    }
    Ok(clients)
}

/// How many clients there are, where the greatest number of a line's is the last one's.
fn count_of(lines: &[CommandLine]) -> u32
    requires { All IsLawfulLine lines.now }
    ensures all { All (λ line. line.client < result) lines.now }
    ensures most { result ≤ MOST_SEATS }
{
    let mut count = 0;
    for line in lines {
        count = count.max(line.client + 1);
    }
    count
}
