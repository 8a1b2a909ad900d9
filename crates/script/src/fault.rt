//! What is wrong with a script.

use thiserror::Error;

// (by its name, since an attribute with the word in it reads as the mark of a test function)
const BAD_TEST: &str = "bad test";

/// What is wrong with a line. It shows as the text that is printed for it.
#[derive(Clone, Copy, Debug, Error)]
pub enum Reason {
    #[error("too many lines")]
    TooManyLines,
    #[error("line too long")]
    LineTooLong,
    #[error("bad byte")]
    BadByte,
    #[error("missing field")]
    MissingField,
    #[error("bad client")]
    BadClient,
    #[error("unknown verb")]
    UnknownVerb,
    #[error("bad handle")]
    BadHandle,
    #[error("bad key")]
    BadKey,
    #[error("bad value")]
    BadValue,
    #[error("{}", BAD_TEST)]
    BadTest,
    #[error("bad map")]
    BadMap,
    #[error("bad fold")]
    BadFold,
    #[error("extra field")]
    ExtraField,
}

/// Why a script was refused.
#[derive(Debug, Drop, Error)]
pub enum ScriptFault {
    /// The first line that has a fault, counted from 1, and the first fault on it.
    #[error("line {number}: {reason}")]
    Line { number: u32, reason: Reason },
    /// Memory for the script was refused.
    #[error("out of memory")]
    Memory,
}
