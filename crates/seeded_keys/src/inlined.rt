//! A text with its word may lie in a row of a trie.

use crate::seeded::SeededText;
use slots::Inline;
use std::alloc::AllocError;

/// Another requests memory only where the bytes do not lie in place.
impl Inline for SeededText {
    ghost use Rattle.std.proofs.Common.{rules};

    ghost small = { Prim.search rules };

    fn another(&self) -> Result<SeededText, AllocError> {
        self.clone()
    }
}
