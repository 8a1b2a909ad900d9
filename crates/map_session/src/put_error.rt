//! Why a put is refused.
ghost use Rattle.std.specs.Prelude.{◌≡◌, ◌↔◌};
ghost use Rattle.stripe.specs.Rules.{IsPutRefusal};

use std::alloc::{AllocError, AllocFailed};
use thiserror::Error;
use trie_node::NoMemory;
use versions::Refusal;

/// Why a put was refused. The map is then as it was before.
///
/// <!-- quoted from crates/example_leases/src/main.rt -->
/// ```rust
/// match tour(&rt) {
///     Ok(figures) => print_figures(&rt, figures),
///     Err(error) => println!(rt; "refused: {error}"),
/// ```
#[derive(Clone, Copy, Debug, PartialEq, Eq, Error)]
pub enum PutError {
    /// The key is new, and its stripe holds as many pairs as it may.
    #[error("the key is new and its part of the map is full")]
    Full,
    /// A request for memory, or the clone of an `Arc`, was refused.
    #[error("out of memory")]
    NoMemory,
}

impl PutError {
    /// What a stripe refused, as one of these two.
    ///
    /// Cost: O(1), no lock. Refused: never.
    pub fn of(refusal: Refusal) -> PutError
        requires { IsPutRefusal refusal }
        ensures full { (result ≡ PutError.Full) ↔ (refusal ≡ Refusal.Full) }
        ensures memory { (result ≡ PutError.NoMemory) ↔ (refusal ≡ Refusal.NoMemory) }
    {
        match refusal {
            Refusal::Full => PutError::Full,
            Refusal::NoMemory => PutError::NoMemory,
            _ => unreachable!(),
        }
    }
}

impl From<AllocError> for PutError {
    ghost use Rattle.std.specs.Prelude.{◌≡◌};
    ghost use Rattle.map_session.specs.declared.put_error.PutError.TheVariants.{NoMemory};

    ghost from_gives = { λ _ e. e ≡ NoMemory };

    fn from(_: AllocError) -> PutError {
        PutError::NoMemory
    }
}

impl<T: Drop> From<AllocFailed<T>> for PutError {
    ghost use Rattle.std.specs.Prelude.{◌≡◌};
    ghost use Rattle.map_session.specs.declared.put_error.PutError.TheVariants.{NoMemory};

    ghost from_gives = { λ _ e. e ≡ NoMemory };

    fn from(_: AllocFailed<T>) -> PutError {
        PutError::NoMemory
    }
}

impl From<NoMemory> for PutError {
    ghost use Rattle.std.specs.Prelude.{◌≡◌};
    ghost use Rattle.map_session.specs.declared.put_error.PutError.TheVariants.{NoMemory};

    ghost from_gives = { λ _ e. e ≡ NoMemory };

    fn from(_: NoMemory) -> PutError {
        PutError::NoMemory
    }
}

impl From<PutError> for Refusal {
    ghost use Rattle.std.specs.Prelude.{◌≡◌};
    ghost use Rattle.map_session.specs.declared.put_error.PutError.TheVariants as put;
    ghost use Rattle.versions.specs.declared.refusal.Refusal.TheVariants as refusal;

    ghost from_gives = { λ error e. (error ≡ put.Full → e ≡ refusal.Full) × (error ≡ put.NoMemory → e ≡ refusal.NoMemory) };

    fn from(error: PutError) -> Refusal {
        match error {
            PutError::Full => Refusal::Full,
            PutError::NoMemory => Refusal::NoMemory,
        }
    }
}
