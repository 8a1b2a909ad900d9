//! Reading the bytes of a script or of a journal.

ghost use Rattle.std.specs.Prelude.{◌≡◌, ◌≤◌, IfErr, IfOk, IfSome, take};

use crate::arguments::Options;
use crate::faults::{RunFault, failed, failed_by, refused};
use crate::journal_file::{fault_of_names, file_of};
use std::alloc::Global;
use std::fs::{File, Files};
use std::io;
use std::io::{Input, Read, Write};

/// The most bytes that are read of a script: those of 65,536 lines of 256 bytes and their newlines, and one more.
/// A text that has this many bytes has a fault among them, and further bytes change neither that fault nor its line.
const MOST_BYTES: u64 = 16_842_753;

/// The bytes of the file that the options name, or of standard input where they name none or `-`; or the status of the
/// program where they could not be read, where the journal would be written over the script, or where its file is `-`.
/// Why goes to `err` then, if that takes it: what failed, and on a further line what the system says of it.
pub fn input<R: Files + Input + AllocGlobal, E: Write>(
    rt: &R,
    options: &Options,
    err: &mut E,
) -> Result<Vec<u8>, u8>
    ensures least { IfErr result (λ status. 1 ≤ status) }
    ensures most { IfErr result (λ status. status ≤ 2) }
{
    if let Some(fault) = fault_of_names(rt, options) {
        return Err(refused(err, &fault));
    }
    match bytes(rt, options) {
        Ok(bytes) => Ok(bytes),
        Err(error) => Err(unread(options, &error, err)),
    }
}

/// The bytes of the script's file, or of standard input.
fn bytes<R: Files + Input + AllocGlobal>(rt: &R, options: &Options) -> io::Result<Vec<u8>> {
    match file_of(options) {
        Some(name) => bytes_of(rt.alloc(), options, File::open(rt, name)?),
        None => bytes_of(rt.alloc(), options, rt.reader()),
    }
}

/// The bytes that the reader gives: a journal's are read whole, and a script's as far as they matter.
fn bytes_of<T: Read + Drop>(alloc: Global, options: &Options, reader: T) -> io::Result<Vec<u8>> {
    if options.audit {
        read_journal(alloc, reader)
    } else {
        read_script(alloc, reader)
    }
}

/// The bytes that the reader gives, up to the most that a script may have and one more.
///
/// # Errors
///
/// The reader failed, or memory for the bytes was refused.
pub fn read_script<R: Read + Drop>(alloc: Global, reader: R) -> io::Result<Vec<u8>>
    ensures { IfOk result (λ bytes. IfSome (R.remaining reader) (λ all. bytes.items ≡ take 16842753 all)) }
{
    let mut bytes = Vec::new(alloc);
    reader.take(MOST_BYTES).read_to_end(&mut bytes)?;
    Ok(bytes)
}

/// All bytes that the reader gives: the text of a journal has any length.
///
/// # Errors
///
/// The reader failed, or memory for the bytes was refused.
pub fn read_journal<R: Read + Drop>(alloc: Global, mut reader: R) -> io::Result<Vec<u8>>
    ensures { IfOk result (λ bytes. IfSome (R.remaining reader) (λ all. bytes.items ≡ all)) }
{
    let mut bytes = Vec::new(alloc);
    reader.read_to_end(&mut bytes)?;
    Ok(bytes)
}

/// Writes that the bytes could not be read, and gives the status.
fn unread<E: Write>(options: &Options, error: &io::Error, err: &mut E) -> u8
    ensures { result ≡ 1 }
{
    if error.kind() == io::ErrorKind::OutOfMemory {
        return failed(err, &RunFault::Memory);
    }
    match file_of(options) {
        Some(name) => failed_by(err, &format_args!("cannot read {name}"), error),
        None => failed_by(err, &"cannot read standard input", error),
    }
}
