//! Why reading stopped.

ghost use Rattle.std.specs.Prelude.{◌≡◌};
ghost use Rattle.script.specs.declared.parse_error.ParseError.TheVariants.{Memory};

use crate::fault::Reason;
use std::alloc::AllocError;

#[derive(Debug, Drop)]
pub enum ParseError {
    Memory,
    Fault(Reason),
}

impl From<AllocError> for ParseError {
    ghost from_gives = { λ _ e. e ≡ Memory };

    fn from(_e: AllocError) -> ParseError {
        ParseError::Memory
    }
}
