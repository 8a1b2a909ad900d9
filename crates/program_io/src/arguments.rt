//! What a command line says.

use thiserror::Error;

/// What the words of a command line ask for.
#[derive(Debug, Drop)]
pub struct Options {
    /// How many workers the crew of a bulk verb has, from 1 to 16.
    pub workers: u32,
    /// The crew's pieces are cut until they have at most this many pairs, from 1 to 65,536.
    pub grain: u64,
    /// A journal is to be audited in place of a script to be run.
    pub audit: bool,
    /// The file for the journal of the run, if one is wanted.
    pub journal: Option<String>,
    /// The script to run, or the journal to audit; none is standard input.
    pub file: Option<String>,
}

/// Why the words of a command line give no options. It shows as the text that is printed for it.
#[derive(Debug, Drop, Error)]
pub enum ArgFault {
    /// Help or the version was asked for: its text, for standard output.
    #[error("{0}")]
    Help(String),
    /// The words were refused: the text that says why, for standard error.
    #[error("{0}")]
    Parser(String),
    /// A word is no text. The program finds this before it has words to read.
    #[error("error: invalid UTF-8 was detected in one or more arguments\n\nUsage: trierun [OPTIONS] [FILE]\n\nFor more information, try '--help'.\n")]
    NotText,
    /// An audit runs no script, so it has no journal to write. The text stands behind the program's name.
    #[error("--audit takes no --journal")]
    AuditJournal,
    /// Memory was refused. The text stands behind the program's name.
    #[error("out of memory")]
    Memory,
}
