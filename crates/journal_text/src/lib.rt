//! The text of journals: a line for each entry, and a last one with their number.
//!
//! What an entry asked is written in the words of a script's statement, with one space between; behind `freeze` where a
//! job is opened. What was returned is written as a script's reply, an opened job as its number, and a map of images
//! as its pairs, since their number, a script's reply, does not say which map it is. Each text is read back, and has
//! one spelling.
#![tactic(auto)]

mod asked;
mod call;
mod laws;
mod outcome;
mod text;

pub use asked::asked_in;
pub use call::push_call;
pub use laws::law_of_calls;
pub use outcome::{ScriptOutcome, push_outcome};
pub use text::{ProgramJournal, journal_text};
