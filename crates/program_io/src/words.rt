//! The words of the process.

ghost use Rattle.std.specs.Prelude.{IfOk};
ghost use Rattle.program_io.specs.CommandLine.{AreInRange};

use crate::arguments::{ArgFault, Options};
use crate::parsing::options;
use std::alloc::AllocError;
use std::rt::Runtime;
use std::{env, io};

/// The options that the words after the program's name give.
///
/// # Errors
///
/// A word is no text, or memory was refused; or [`options`] gives none.
pub fn given_options<R: Runtime + AllocGlobal>(rt: &R) -> Result<Options, ArgFault>
    ensures { IfOk result (λ options. AreInRange options.workers options.grain) }
{
    let arguments = arguments(rt)?;
    let words: Result<Vec<&str>, AllocError> = arguments
        .iter()
        .skip(1)
        .map(|word| word.as_str())
        .collect(rt.alloc());
    match words {
        Ok(words) => options(rt.alloc(), words.as_slice()),
        Err(_) => Err(ArgFault::Memory),
    }
}

/// The words of the command line, the program's name first.
fn arguments<R: Runtime + AllocGlobal>(rt: &R) -> Result<Vec<String>, ArgFault> {
    let words = match env::args(rt) {
        Ok(words) => words,
        Err(error) => return Err(no_words(&error)),
    };
    match words.collect(rt.alloc()) {
        Ok(words) => Ok(words),
        Err(_) => Err(ArgFault::Memory),
    }
}

/// Why there are no words.
fn no_words(error: &io::Error) -> ArgFault {
    if error.kind() == io::ErrorKind::InvalidData {
        ArgFault::NotText
    } else {
        ArgFault::Memory
    }
}
