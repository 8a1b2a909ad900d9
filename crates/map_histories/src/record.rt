//! What is kept of a call.

use crate::answer::Answer;
use crate::caller::Made;
use std::fmt;

/// A call, the tickets that were taken before and after it, and what it returned.
#[derive(Clone, Copy)]
pub struct Record {
    pub before: u64,
    pub after: u64,
    pub call: Made,
    pub answer: Answer,
}

impl fmt::Display for Record {
    fn fmt<W: fmt::Write>(&self, f: &mut fmt::Formatter<W>) -> fmt::Result {
        write!(
            f,
            "{} {} {} -> {}",
            self.before, self.after, self.call, self.answer
        )
    }
}
