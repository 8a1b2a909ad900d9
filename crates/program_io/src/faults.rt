//! Why the program failed, as it is printed, and the status that it ends with.

ghost use Rattle.std.specs.Prelude.{◌≡◌};
ghost use Rattle.program_io.specs.Faults.{IsShownBy};

use crate::arguments::ArgFault;
use std::fmt::Display;
use std::io;
use std::io::Write;
use thiserror::Error;

/// The status where all is done.
pub const DONE: u8 = 0;

/// The status where memory, the output or a file failed.
pub const FAILED: u8 = 1;

/// The status where the command line or the script was refused.
pub const REFUSED: u8 = 2;

/// Why a run failed.
#[derive(Debug, Drop, Error)]
pub enum RunFault {
    /// Memory was refused. No reply was written.
    #[error("out of memory")]
    Memory,
    /// The writer failed. Some of the replies may have been written.
    #[error("cannot write output")]
    Write,
}

/// Writes the help or the version to `out` where one was asked for, and else why the words give no options to `err`, if
/// that takes it; and gives the status of the program.
pub fn shown<W: Write, E: Write>(fault: &ArgFault, out: &mut W, err: &mut E) -> u8
    ensures { IsShownBy fault.now result (W.contents out.old) (W.contents out.new) }
{
    match fault {
        ArgFault::Help(text) => match out.write_all(text.as_bytes()) {
            Ok(()) => DONE,
            Err(_) => failed(err, &RunFault::Write),
        },
        ArgFault::Parser(_) | ArgFault::NotText => {
            let _ = write!(err, "{fault}");
            REFUSED
        }
        ArgFault::AuditJournal => refused(err, fault),
        ArgFault::Memory => failed(err, fault),
    }
}

/// Writes why the program failed, behind its name, and gives the status. Where standard error fails there is nowhere to
/// say so.
pub fn failed<E: Write, D: Display>(err: &mut E, reason: &D) -> u8
    ensures { result ≡ 1 }
{
    let _ = writeln!(err, "trierun: {reason}");
    FAILED
}

/// Writes why the program failed, and on a line of its own what the system says of it; and gives the status.
pub(crate) fn failed_by<E: Write, D: Display>(err: &mut E, reason: &D, error: &io::Error) -> u8
    ensures { result ≡ 1 }
{
    let _ = writeln!(err, "trierun: {reason}\ntrierun: {error}");
    FAILED
}

/// Writes why the program does not begin, behind its name, and gives the status.
pub(crate) fn refused<E: Write, D: Display>(err: &mut E, reason: &D) -> u8
    ensures { result ≡ 2 }
{
    let _ = writeln!(err, "trierun: {reason}");
    REFUSED
}
