//! The limits of a script.

/// How many clients a script may have: their numbers are below it.
pub const MOST_CLIENTS: u32 = 64;

/// The most lines of a script, those that are skipped among them.
pub const MOST_LINES: u32 = 65_536;

/// The most bytes of a line.
pub const MOST_LINE_BYTES: usize = 256;
