//! Runs a script of clients on a table of maps, and prints the reply to each line; or audits the journal of a run.
#![tactic(auto)]

ghost use Rattle.program_io.specs.CommandLine.{AreInRange};

use batch_cli::execute;
use program_io::{
    JournalFile, Options, StandardError, given_options, input, keep, opened_journal, shown,
};
use std::io;
use std::process::ExitCode;
use std::rt::Runtime;
use std::sync::Wait;
use std::thread::Threads;

fn main(rt: HostRuntime) -> ExitCode {
    ExitCode::from(status(&rt))
}

/// Does what the words after the program's name ask for, and gives the status. Where standard error fails there is
/// nowhere to say so, and the status is the same.
fn status<R: Runtime + AllocGlobal + Threads + Wait + Sync>(rt: &R) -> u8 {
    match given_options(rt) {
        Ok(options) => run(rt, &options),
        Err(fault) => shown(&fault, &mut io::writer(rt), &mut StandardError(rt)),
    }
}

/// Runs the script that the options name, or audits a journal. A journal's file is open before the run.
fn run<R: Runtime + AllocGlobal + Threads + Wait + Sync>(rt: &R, options: &Options) -> u8
    requires { AreInRange options.now.workers options.now.grain }
{
    let err = &mut StandardError(rt);
    let text = match input(rt, options, err) {
        Ok(text) => text,
        Err(status) => return status,
    };
    match opened_journal(rt, options, err) {
        Ok(file) => executed(rt, options, &text, file),
        Err(status) => status,
    }
}

/// Runs the script of this text, and writes the journal of the run to its file; or audits the text as a journal's.
fn executed<R: Runtime + AllocGlobal + Threads + Wait + Sync>(
    rt: &R,
    options: &Options,
    text: &[u8],
    file: Option<JournalFile<R::File>>,
) -> u8
    requires { AreInRange options.now.workers options.now.grain }
{
    let (out, err) = (&mut io::writer(rt), &mut StandardError(rt));
    let (status, journal) = execute(rt, rt.alloc(), options, text, out, err);
    keep(rt, options, file, status, journal, err)
}
