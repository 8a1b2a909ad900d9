//! The lines of a journal's text, read and written.
//!
//! The line of an entry is an object of JSON with the members `call`, `entry`, `reply` and `seat`, in this order and with
//! no space; the last line has the one member `entries`. A line has one spelling: another one of the same members is no
//! line.
#![tactic(auto)]

mod laws;
mod line;
mod lines;

pub use laws::{law_of_last_line_ends, law_of_last_lines, law_of_line_ends, law_of_lines};
pub use line::{Line, last_line, line_in, line_text};
pub use lines::Lines;
