//! Why a call is refused, with one enum for every layer.

use std::alloc::{AllocError, AllocFailed};
use thiserror::Error;
use trie_node::NoMemory;

/// Why a call was refused. All that the call was made on is then as it was before.
///
/// <!-- quoted from crates/example_registry/src/maps.rt -->
/// ```rust
/// match registry.put(alloc, name(alloc, "login")?, at(alloc, "10.0.0.8", 8080)?) {
///     Err(Refusal::Full) => rt.println(format_args!("there is no room for login"))?,
///     Err(refusal) => return Err(refusal.into()),
///     Ok(_) => rt.println(format_args!("login was put"))?,
/// }
/// ```
#[derive(Clone, Copy, Debug, PartialEq, Eq, Error)]
pub enum Refusal {
    /// The handle that is read, written, dropped, frozen or snapshotted is not live.
    #[error("no map is open under this handle")]
    NoHandle,
    /// The number to be opened or reserved is live, or is reserved by an open job.
    #[error("the handle is live, or an open job reserves it")]
    Taken,
    /// The key is new, and the map holds as many pairs as it may.
    #[error("the key is new and the map is full")]
    Full,
    /// No open job has the number.
    #[error("no open job has this number")]
    NoJob,
    /// Neither is the whole map worked nor is the answer settled.
    #[error("the job is not finished: not every pair is worked, and its answer is not settled")]
    Unfinished,
    /// No worker has the number.
    #[error("no worker has this number")]
    NoWorker,
    /// As many jobs are open as may be.
    #[error("too many jobs are open")]
    TooManyJobs,
    /// The journal has no room for the entry beside the ends of the open jobs.
    #[error("the journal is full")]
    JournalFull,
    /// A request for memory, or the clone of an `Arc`, was refused.
    #[error("out of memory")]
    NoMemory,
    /// The number is above every handle's.
    #[error("the number is too large for a handle")]
    BadNumber,
}

impl From<AllocError> for Refusal {
    ghost use Rattle.std.specs.Prelude.{◌≡◌};
    ghost use Rattle.versions.specs.declared.refusal.Refusal.TheVariants.{NoMemory};

    ghost from_gives = { λ _ e. e ≡ NoMemory };

    fn from(_: AllocError) -> Refusal {
        Refusal::NoMemory
    }
}

impl<T: Drop> From<AllocFailed<T>> for Refusal {
    ghost use Rattle.std.specs.Prelude.{◌≡◌};
    ghost use Rattle.versions.specs.declared.refusal.Refusal.TheVariants.{NoMemory};

    ghost from_gives = { λ _ e. e ≡ NoMemory };

    fn from(_: AllocFailed<T>) -> Refusal {
        Refusal::NoMemory
    }
}

impl From<NoMemory> for Refusal {
    ghost use Rattle.std.specs.Prelude.{◌≡◌};
    ghost use Rattle.versions.specs.declared.refusal.Refusal.TheVariants.{NoMemory};

    ghost from_gives = { λ _ e. e ≡ NoMemory };

    fn from(_: NoMemory) -> Refusal {
        Refusal::NoMemory
    }
}
