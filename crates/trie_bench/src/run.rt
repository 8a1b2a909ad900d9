//! The measurements that were asked for.

use crate::arguments::{Arguments, arguments_of};
use crate::numbers::numbers;
use crate::texts::texts;
use bench_kit::{Fault, Storage, words_of};
use slots::{InPlace, Shared};
use std::rt::Runtime;

/// Measures what the words after the program's name ask for.
pub fn run<R: Runtime + AllocGlobal>(rt: &R) -> Result<(), Fault> {
    let Arguments {
        storage,
        texts: of_texts,
        numbers: of_numbers,
        load,
    } = arguments_of(words_of(rt)?.as_slice())?;
    if of_texts {
        match storage {
            Storage::Rows => texts::<InPlace, R>(rt, load)?,
            Storage::Handles => texts::<Shared, R>(rt, load)?,
        }
    }
    if of_numbers {
        match storage {
            Storage::Rows => numbers::<InPlace, R>(rt, load)?,
            Storage::Handles => numbers::<Shared, R>(rt, load)?,
        }
    }
    Ok(())
}
