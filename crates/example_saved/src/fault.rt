//! Why a map is not saved, and why one is not loaded.
use serde_json::{Category, Error};
use std::io;
use tambyulo::{NoMemory, PutError};
use thiserror::Error as Fault;

/// Why a view was not saved. Some of its lines may have been written.
#[derive(Debug, Drop, Fault)]
pub enum SaveFault {
    /// The bytes of a key are no text, and JSON has no other.
    #[error("a key is no text")]
    NoText,
    /// A value refused to be written.
    #[error("cannot write a value: {0}")]
    Value(Error),
    /// The writer failed.
    #[error("cannot write: {0}")]
    Write(io::Error),
    /// A request for memory was refused.
    #[error("out of memory")]
    NoMemory,
}

/// Why no map was loaded.
#[derive(Debug, Drop, Fault)]
pub enum LoadFault {
    /// The line with this number, of which the first is 1, is no pair of the map.
    #[error("line {line}, column {}: {}", .reason.column(), what(.reason))]
    Line { line: u64, reason: Error },
    /// The key of the line with this number has a line before it.
    #[error("line {0}: a line before it has the same key")]
    Repeated(u64),
    /// The line with this number has a new key, and the map has no room for it.
    #[error("line {0}: the map is full")]
    Full(u64),
    /// The reader failed.
    #[error("cannot read: {0}")]
    Read(io::Error),
    /// A request for memory was refused.
    #[error("out of memory")]
    NoMemory,
}

/// What is wrong with a line, in words.
fn what(reason: &Error) -> &'static str {
    match reason.classify() {
        Category::Data => "no pair of this map",
        Category::Eof => "the line is cut short",
        _ => "no JSON",
    }
}

impl SaveFault {
    /// What the writer failed by.
    pub fn of_writer(error: io::Error) -> SaveFault {
        match error.kind() {
            io::ErrorKind::OutOfMemory => SaveFault::NoMemory,
            _ => SaveFault::Write(error),
        }
    }
}

impl LoadFault {
    /// What the reader failed by.
    pub fn of_reader(error: io::Error) -> LoadFault {
        match error.kind() {
            io::ErrorKind::OutOfMemory => LoadFault::NoMemory,
            _ => LoadFault::Read(error),
        }
    }

    /// Why the line with this number could not be read as a pair.
    pub fn of_line(line: u64, reason: Error) -> LoadFault {
        if reason.is_memory() {
            return LoadFault::NoMemory;
        }
        LoadFault::Line { line, reason }
    }

    /// Why the pair of the line with this number could not be put.
    pub fn of_put(line: u64, error: PutError) -> LoadFault {
        match error {
            PutError::Full => LoadFault::Full(line),
            PutError::NoMemory => LoadFault::NoMemory,
        }
    }
}

impl From<Error> for SaveFault {
    fn from(error: Error) -> SaveFault {
        if error.is_memory() {
            return SaveFault::NoMemory;
        }
        SaveFault::Value(error)
    }
}

impl From<NoMemory> for LoadFault {
    fn from(_: NoMemory) -> LoadFault {
        LoadFault::NoMemory
    }
}
