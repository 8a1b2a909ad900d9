//! The file of a journal: it is opened before the run, and has its text when the run is over.

ghost use Rattle.std.specs.Prelude.{◌≡◌, ◌≤◌, ◌⊎◌, IfErr, None};

use crate::arguments::Options;
use crate::faults::{DONE, RunFault, failed, failed_by};
use std::alloc::{AllocError, Global};
use std::fs::{File, Files, Metadata, OpenFile};
use std::io::Write;
use std::os::unix::fs::MetadataExt;
use std::path::PathBuf;
use std::{fs, io};

/// The word that stands for standard input as a script.
pub(crate) const DASH: &str = "-";

/// The name under which the system has the file of standard input.
const STANDARD_INPUT: &str = "/dev/stdin";

/// How many names are tried for the file beside a journal's.
const MOST_NAMES: u32 = 100;

/// The file of a journal, which is open before the run.
#[derive(Drop)]
pub struct JournalFile<F> {
    file: F,
    place: Place,
}

/// Where the text of a journal is written.
#[derive(Drop)]
enum Place {
    /// To a file under the first name, which takes the second when the text is whole.
    Beside(PathBuf, PathBuf),
    /// Where the file stands, which was made for it.
    Made,
    /// Where the file stands.
    There,
}

/// Opens the file that the options name for the journal of the run, if they name one. Nothing is run where this fails.
///
/// The text of a regular file, or of one that is not there yet, is written beside it, so that what stood there is kept
/// until the new text is whole. Where no file can be made beside it, and where it is no regular file, as a pipe, it is
/// written where it stands.
///
/// # Errors
///
/// The file can be neither made nor opened, or memory was refused. Why goes to `err` then, if that takes it, and the
/// error is the status of the program.
pub fn opened_journal<R: Files + AllocGlobal, E: Write>(
    rt: &R,
    options: &Options,
    err: &mut E,
) -> Result<Option<JournalFile<R::File>>, u8>
    ensures { IfErr result (λ status. status ≡ 1) }
{
    let Some(name) = &options.journal else {
        return Ok(None);
    };
    match opened(rt, name) {
        Ok(file) => Ok(Some(file)),
        Err(error) => Err(unwritten(name, &error, err)),
    }
}

/// Writes the text of a journal to the file of this name, as a run does.
///
/// What it gives is the status of the program: 0, or 1 where the file could not be written. Why goes to `err` then, if
/// that takes it.
pub fn write_journal<R: Files + AllocGlobal, E: Write>(
    rt: &R,
    name: &str,
    text: &[u8],
    err: &mut E,
) -> u8
    ensures { result ≤ 1 }
{
    match opened(rt, name) {
        Ok(file) => wrote(rt, name, file, text, err),
        Err(error) => unwritten(name, &error, err),
    }
}

/// Writes the text of a journal, where a run left one, to the file that was opened for it, and otherwise leaves what
/// stood there. The program had this status before, and what it gives is the one that it has then.
pub fn keep<R: Files, E: Write>(
    rt: &R,
    options: &Options,
    file: Option<JournalFile<R::File>>,
    status: u8,
    journal: Option<Vec<u8>>,
    err: &mut E,
) -> u8
    ensures none { journal ≡ None → result ≡ status }
    ensures some { (result ≡ status) ⊎ (result ≤ 1) }
{
    match (&options.journal, file, journal) {
        (Some(name), Some(file), Some(text)) => wrote(rt, name, file, &text, err),
        (Some(name), Some(file), None) => {
            discard(rt, name, file);
            status
        }
        _ => status,
    }
}

/// Writes the text to the file, and gives the status.
fn wrote<R: Files, E: Write>(
    rt: &R,
    name: &str,
    file: JournalFile<R::File>,
    text: &[u8],
    err: &mut E,
) -> u8
    ensures { result ≤ 1 }
{
    match written(rt, file, text) {
        Ok(()) => DONE,
        Err(error) => unwritten(name, &error, err),
    }
}

/// Writes that the file could not be written, and gives the status.
fn unwritten<E: Write>(name: &str, error: &io::Error, err: &mut E) -> u8
    ensures { result ≡ 1 }
{
    if error.kind() == io::ErrorKind::OutOfMemory {
        return failed(err, &RunFault::Memory);
    }
    failed_by(err, &format_args!("cannot write {name}"), error)
}

/// The file of this name, open for the text of a journal.
fn opened<R: Files + AllocGlobal>(rt: &R, name: &str) -> io::Result<JournalFile<R::File>> {
    match fs::metadata(rt, name) {
        Ok(found) => opened_standing(rt, name, &found),
        Err(_) => opened_new(rt, name),
    }
}

/// The file of this name, which is there, or a file beside it that has its permissions.
fn opened_standing<R: Files + AllocGlobal>(
    rt: &R,
    name: &str,
    found: &Metadata,
) -> io::Result<JournalFile<R::File>> {
    let file = File::options().write(true).open(rt, name)?;
    if !found.is_file() {
        return Ok(there(file));
    }
    // A link is followed, and stays one.
    match fs::canonicalize(rt, name) {
        Ok(whole) => match opened_beside(rt, whole) {
            Ok(beside) => {
                let _ = beside.file.set_permissions(found.permissions());
                Ok(beside)
            }
            Err(_) => Ok(there(file)),
        },
        Err(_) => Ok(there(file)),
    }
}

/// A new file for this name, which no file has.
fn opened_new<R: Files + AllocGlobal>(rt: &R, name: &str) -> io::Result<JournalFile<R::File>> {
    if fs::symlink_metadata(rt, name).is_ok() {
        return made(rt, name, Place::There);
    }
    let whole = PathBuf::from_str(rt.alloc(), name)?;
    match opened_beside(rt, whole) {
        Err(error) if error.kind() != io::ErrorKind::OutOfMemory => made(rt, name, Place::Made),
        opened => opened,
    }
}

/// A file that stands where it is written.
fn there<F>(file: F) -> JournalFile<F> {
    JournalFile {
        file,
        place: Place::There,
    }
}

/// A new file of this name.
fn made<R: Files>(rt: &R, name: &str, place: Place) -> io::Result<JournalFile<R::File>> {
    let file = File::options().write(true).create(true).open(rt, name)?;
    Ok(JournalFile { file, place })
}

/// A new file beside the one of this name, which it is to replace.
fn opened_beside<R: Files + AllocGlobal>(
    rt: &R,
    whole: PathBuf,
) -> io::Result<JournalFile<R::File>> {
    for number in 0..MOST_NAMES {
        let beside = name_beside(rt.alloc(), &whole, number)?;
        match File::create_new(rt, &beside) {
            Ok(file) => {
                return Ok(JournalFile {
                    file,
                    place: Place::Beside(beside, whole),
                });
            }
            Err(error) if error.kind() == io::ErrorKind::AlreadyExists => {}
            Err(error) => return Err(error),
        }
    }
    Err(io::Error::from(io::ErrorKind::AlreadyExists))
}

/// A name beside this one: what an earlier run left under it, since it was killed, is left alone.
fn name_beside(alloc: Global, whole: &PathBuf, number: u32) -> Result<PathBuf, AllocError> {
    let name = format!(in alloc; "{}.new-{number}", whole.as_str())?;
    Ok(PathBuf::from(name))
}

/// Writes the text to the file, which has its name then.
fn written<R: Files>(rt: &R, file: JournalFile<R::File>, text: &[u8]) -> io::Result<()> {
    let JournalFile { mut file, place } = file;
    match place {
        Place::Beside(beside, whole) => {
            let done = replaced(rt, file, text, &beside, &whole);
            if done.is_err() {
                let _ = fs::remove_file(rt, &beside);
            }
            done
        }
        Place::Made | Place::There => {
            if file.metadata()?.is_file() {
                file.set_len(0)?;
            }
            file.write_all(text)
        }
    }
}

/// Writes the text to the file of the first name, which then takes the second.
fn replaced<R: Files>(
    rt: &R,
    mut file: R::File,
    text: &[u8],
    beside: &PathBuf,
    whole: &PathBuf,
) -> io::Result<()> {
    file.write_all(text)?;
    file.sync_all()?;
    fs::rename(rt, beside, whole)
}

/// Leaves what stood there before the file was opened.
fn discard<R: Files>(rt: &R, name: &str, file: JournalFile<R::File>) {
    let _ = match &file.place {
        Place::Beside(beside, _) => fs::remove_file(rt, beside),
        Place::Made => fs::remove_file(rt, name),
        Place::There => Ok(()),
    };
}

/// Why the words name no file for a journal, if they do not.
pub(crate) fn fault_of_names<R: Files>(rt: &R, options: &Options) -> Option<&'static str> {
    let Some(journal) = &options.journal else {
        return None;
    };
    if journal.as_str() == DASH {
        return Some("--journal takes a file, and - is none");
    }
    if are_one_file(rt, journal, script_name(options)).unwrap_or(false) {
        return Some("the journal is the script");
    }
    None
}

/// The file of the script, where the words name one: `-` stands for standard input.
pub(crate) fn file_of(options: &Options) -> Option<&str> {
    match &options.file {
        Some(name) if name.as_str() != DASH => Some(name.as_str()),
        _ => None,
    }
}

/// The name of the script's file.
fn script_name(options: &Options) -> &str {
    file_of(options).unwrap_or(STANDARD_INPUT)
}

/// Whether the names are those of one regular file, which has several where there are links. What is no regular file, as
/// a terminal, is not written over.
fn are_one_file<R: Files>(rt: &R, one: &str, other: &str) -> io::Result<bool> {
    let (one, other) = (fs::metadata(rt, one)?, fs::metadata(rt, other)?);
    Ok(one.is_file() && other.is_file() && one.dev() == other.dev() && one.ino() == other.ino())
}
