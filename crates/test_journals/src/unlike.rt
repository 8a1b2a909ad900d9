//! What is not as a test wants it.
use std::alloc::AllocError;
use test_clients::{Entered, Outcome, Seen};
use test_machine::Request;
use versions::{NoMemory, Refusal};

/// What is not as it is to be: what was found, and then what was wanted.
#[derive(Clone, Copy, Debug)]
pub enum Unlike {
    /// The test itself found no memory.
    NoMemory,
    /// No map may have these limits, or so many seats.
    NotAllowed,
    /// The map is torn.
    Torn,
    /// How many outcomes there are.
    Outcomes(usize, usize),
    /// The outcome of a step.
    Outcome(Outcome, Outcome),
    /// What a view that is kept shows.
    Kept(Option<Seen>, Seen),
    /// An entry of the journal.
    Entry(Option<Entered>, Option<Entered>),
    /// What the plain table returns for the request of an entry, and the outcome that the entry has.
    Replayed(Request, Outcome, Outcome),
    /// What the handle shows, if it is live.
    Handle(u32, Option<Seen>, Option<Seen>),
    /// Whether the job is open.
    Job(u64, bool, bool),
    /// How many entries the table has counted.
    Entries(u32, u32),
    /// Why the job may not be abandoned, if so.
    End(u64, Option<Refusal>, Option<Refusal>),
}

impl From<AllocError> for Unlike {
    fn from(_: AllocError) -> Unlike {
        Unlike::NoMemory
    }
}

impl From<NoMemory> for Unlike {
    fn from(_: NoMemory) -> Unlike {
        Unlike::NoMemory
    }
}
