//! Why the program stops before its end.

use std::alloc::AllocFailed;
use std::{fmt, io};
use tambyulo_clients::{Refusal, Torn};

/// Why the program stops before its end.
#[derive(Debug, Drop)]
pub enum Fault {
    /// A call was refused where no refusal is due, and memory had not run out.
    Refused(Refusal),
    /// A seat's list is not what the journal has of it.
    Torn,
    /// The output cannot be written.
    Output(io::Error),
}

impl fmt::Display for Fault {
    fn fmt<W: fmt::Write>(&self, f: &mut fmt::Formatter<W>) -> fmt::Result {
        match self {
            Fault::Refused(refusal) => write!(f, "refused: {refusal:?}"),
            Fault::Torn => write!(f, "the map is torn"),
            Fault::Output(error) => write!(f, "{error}"),
        }
    }
}

impl From<Refusal> for Fault {
    fn from(refusal: Refusal) -> Fault {
        Fault::Refused(refusal)
    }
}

impl From<Torn> for Fault {
    fn from(_: Torn) -> Fault {
        Fault::Torn
    }
}

impl<T: Drop> From<AllocFailed<T>> for Fault {
    fn from(_: AllocFailed<T>) -> Fault {
        Fault::Refused(Refusal::NoMemory)
    }
}

impl From<io::Error> for Fault {
    fn from(error: io::Error) -> Fault {
        Fault::Output(error)
    }
}
