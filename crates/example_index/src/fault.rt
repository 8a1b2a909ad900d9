//! Why the program stops before its end.

use std::alloc::{AllocError, AllocFailed};
use std::{fmt, io};
use tambyulo_clients::{NoJournal, Refusal};

/// Why the program stops before its end.
#[derive(Debug, Drop)]
pub enum Fault {
    /// A call was refused where no refusal is due, and memory had not run out.
    Refused(Refusal),
    /// There is no journal of the clients' calls.
    NoJournal(NoJournal),
    /// The output cannot be written.
    Output(io::Error),
}

impl fmt::Display for Fault {
    fn fmt<W: fmt::Write>(&self, f: &mut fmt::Formatter<W>) -> fmt::Result {
        match self {
            Fault::Refused(refusal) => write!(f, "refused: {refusal:?}"),
            Fault::NoJournal(reason) => write!(f, "no journal: {reason:?}"),
            Fault::Output(error) => write!(f, "{error}"),
        }
    }
}

impl From<Refusal> for Fault {
    fn from(refusal: Refusal) -> Fault {
        Fault::Refused(refusal)
    }
}

impl From<NoJournal> for Fault {
    fn from(reason: NoJournal) -> Fault {
        Fault::NoJournal(reason)
    }
}

impl From<AllocError> for Fault {
    fn from(_: AllocError) -> Fault {
        Fault::Refused(Refusal::NoMemory)
    }
}

impl<T: Drop> From<AllocFailed<T>> for Fault {
    fn from(_: AllocFailed<T>) -> Fault {
        Fault::Refused(Refusal::NoMemory)
    }
}

impl From<io::Error> for Fault {
    fn from(error: io::Error) -> Fault {
        Fault::Output(error)
    }
}
