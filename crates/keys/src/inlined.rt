//! A byte text may lie in a row of a trie.

use crate::text::ByteText;
use slots::{Half, Inline};
use std::alloc::AllocError;

/// Another requests memory only where the bytes do not lie in place.
impl Inline for ByteText {
    ghost use Rattle.std.proofs.Common.{rules};

    ghost small = { Prim.search rules };

    fn another(&self) -> Result<ByteText, AllocError> {
        self.clone()
    }
}

impl Half for ByteText {
    ghost use Rattle.std.proofs.Common.{rules};

    ghost half = { Prim.search rules };
}
