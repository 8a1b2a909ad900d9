//! Why a benchmark stops.

use std::alloc::{AllocError, AllocFailed};
use std::io;
use thiserror::Error;
use trie_node::NoMemory;
use versions::Refusal;

/// Why a benchmark stops.
#[derive(Debug, Drop, Error)]
pub enum Fault {
    /// The words after the program's name are not those of a measurement. The error says which are.
    #[error("usage: {0}")]
    Usage(&'static str),
    /// A request for memory was refused.
    #[error("out of memory")]
    Memory,
    /// There is no journal of a shared map's calls.
    #[error("no journal")]
    NoJournal,
    /// The clock, an argument or an output failed.
    #[error(transparent)]
    System(#[from] io::Error),
}

impl From<AllocError> for Fault {
    fn from(_: AllocError) -> Fault {
        Fault::Memory
    }
}

impl<T: Drop> From<AllocFailed<T>> for Fault {
    fn from(_: AllocFailed<T>) -> Fault {
        Fault::Memory
    }
}

impl From<NoMemory> for Fault {
    fn from(_: NoMemory) -> Fault {
        Fault::Memory
    }
}

// A map of the benchmarks is never full, nor is a stripe or a journal, so a refusal is always `NoMemory`.
impl From<Refusal> for Fault {
    fn from(_: Refusal) -> Fault {
        Fault::Memory
    }
}
