//! What takes little room may lie in a row where it may be missing.

use crate::inline::{Half, Inline, Quarter};
use std::alloc::AllocError;

impl<T: Half> Inline for Option<T> {
    ghost use Rattle.slots.specs.Parts.{option_small};

    ghost small = { option_small T.row T.Half.half };

    fn another(&self) -> Result<Option<T>, AllocError> {
        match self {
            Some(value) => Ok(Some(value.another()?)),
            None => Ok(None),
        }
    }
}

impl<T: Quarter> Half for Option<T> {
    ghost use Rattle.slots.specs.Parts.{option_half};

    ghost half = { option_half T.row T.Quarter.quarter };
}
