//! The grammar of the command line.

ghost use Rattle.std.specs.Prelude.{◌≡◌, IfOk, false};
ghost use Rattle.clap.specs.Words.{app_of, rule_of};
ghost use Rattle.program_io.specs.CommandLine.{audit_rule, command_line, file_rule, grain_rule, journal_rule, workers_rule};

use clap::{Arg, ArgAction, Command, value_parser};
use std::alloc::{AllocError, Global};

/// The version of the program, which `--version` shows.
const VERSION: &str = "0.1.0";

/// How many workers a crew has, where the words do not say.
pub const DEFAULT_WORKERS: u32 = 4;

/// The grain of a crew, where the words do not say.
pub const DEFAULT_GRAIN: u32 = 1024;

/// The grammar of the command line.
pub fn grammar<'a>(alloc: Global) -> Result<Command<'a>, AllocError>
    ensures { IfOk result (λ command. app_of command ≡ command_line) }
{
    Command::new(alloc, "trierun")
        .version(VERSION)
        .about("Runs a script of clients on a table of maps, and prints the reply to each line")
        .arg(workers(alloc))?
        .arg(grain(alloc))?
        .arg(journal(alloc))?
        .arg(audit(alloc))?
        .arg(file(alloc))
}

/// How many workers a crew has.
fn workers<'a>(alloc: Global) -> Arg<'a>
    ensures rule { rule_of result ≡ workers_rule }
    ensures local { result.global ≡ false }
{
    Arg::new(alloc, "workers")
        .long("workers")
        .value_name("N")
        .value_parser(value_parser!(u32).range(1..=16))
        .default_value("4")
        .help("How many threads work a bulk verb, from 1 to 16")
}

/// How many pairs a piece of a crew's has at most.
fn grain<'a>(alloc: Global) -> Arg<'a>
    ensures rule { rule_of result ≡ grain_rule }
    ensures local { result.global ≡ false }
{
    Arg::new(alloc, "grain")
        .long("grain")
        .value_name("N")
        .value_parser(value_parser!(u32).range(1..=65_536))
        .default_value("1024")
        .help("How many pairs a thread takes at once, from 1 to 65536; 1 is slow on large maps")
}

/// The file for the journal.
fn journal<'a>(alloc: Global) -> Arg<'a>
    ensures rule { rule_of result ≡ journal_rule }
    ensures local { result.global ≡ false }
{
    Arg::new(alloc, "journal")
        .long("journal")
        .value_name("FILE")
        .help("Writes the journal of the run to this file, when the replies are printed")
}

/// Whether a journal is audited.
fn audit<'a>(alloc: Global) -> Arg<'a>
    ensures rule { rule_of result ≡ audit_rule }
    ensures local { result.global ≡ false }
{
    Arg::new(alloc, "audit")
        .long("audit")
        .action(ArgAction::SetTrue)
        .help("Reads a journal in place of a script, and prints whether it is legal")
}

/// The file that is read.
fn file<'a>(alloc: Global) -> Arg<'a>
    ensures rule { rule_of result ≡ file_rule }
    ensures local { result.global ≡ false }
{
    Arg::new(alloc, "file").value_name("FILE").help(
        "The script to run, or the journal to audit; without it, or for -, standard input is read",
    )
}
