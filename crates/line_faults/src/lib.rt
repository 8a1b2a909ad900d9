//! What is wrong in a line of a text that was refused, for whoever has to mend it: a byte of a script's line, or an
//! entry of a journal.
#![tactic(auto)]

mod bad_byte;
mod bad_line;

pub use bad_byte::{BadByte, BadPart, bad_byte_at, bad_byte_in};
pub use bad_line::{BadLine, bad_line_in};
