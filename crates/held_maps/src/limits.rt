//! The numbers that handles may have.

/// How many handle numbers there are: they are below it.
pub const HANDLES: usize = 1024;

/// The last handle number.
pub const LAST_HANDLE: u32 = HANDLES as u32 - 1;
