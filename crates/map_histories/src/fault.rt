//! Why the program stops.

use std::alloc::{AllocError, AllocFailed};
use std::io;
use thiserror::Error;
use trie_map::{NoMemory, PutError};

/// Why the program stops.
#[derive(Debug, Drop, Error)]
pub enum Fault {
    /// The words after the program's name are none that it knows.
    #[error("usage: {0}")]
    Usage(&'static str),
    /// A request for memory was refused.
    #[error("out of memory")]
    Memory,
    /// An argument or the output failed.
    #[error(transparent)]
    System(#[from] io::Error),
}

impl From<AllocError> for Fault {
    fn from(_: AllocError) -> Fault {
        Fault::Memory
    }
}

impl<T: Drop> From<AllocFailed<T>> for Fault {
    fn from(_: AllocFailed<T>) -> Fault {
        Fault::Memory
    }
}

impl From<NoMemory> for Fault {
    fn from(_: NoMemory) -> Fault {
        Fault::Memory
    }
}

// A map of four keys is never full, so the only error is `NoMemory`.
impl From<PutError> for Fault {
    fn from(_: PutError) -> Fault {
        Fault::Memory
    }
}
