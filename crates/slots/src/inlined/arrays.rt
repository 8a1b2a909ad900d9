//! Arrays of bytes may lie in a row.

use crate::inline::{Half, Inline, Quarter};
use std::alloc::AllocError;

impl Inline for [u8; 4] {
    ghost use Rattle.std.proofs.Common.{rules};

    ghost small = { Prim.search rules };

    fn another(&self) -> Result<[u8; 4], AllocError> {
        Ok(*self)
    }
}

impl Half for [u8; 4] {
    ghost use Rattle.std.proofs.Common.{rules};

    ghost half = { Prim.search rules };
}

impl Quarter for [u8; 4] {
    ghost use Rattle.std.proofs.Common.{rules};

    ghost quarter = { Prim.search rules };
}

impl Inline for [u8; 8] {
    ghost use Rattle.std.proofs.Common.{rules};

    ghost small = { Prim.search rules };

    fn another(&self) -> Result<[u8; 8], AllocError> {
        Ok(*self)
    }
}

impl Half for [u8; 8] {
    ghost use Rattle.std.proofs.Common.{rules};

    ghost half = { Prim.search rules };
}

impl Quarter for [u8; 8] {
    ghost use Rattle.std.proofs.Common.{rules};

    ghost quarter = { Prim.search rules };
}

impl Inline for [u8; 12] {
    ghost use Rattle.std.proofs.Common.{rules};

    ghost small = { Prim.search rules };

    fn another(&self) -> Result<[u8; 12], AllocError> {
        Ok(*self)
    }
}

impl Half for [u8; 12] {
    ghost use Rattle.std.proofs.Common.{rules};

    ghost half = { Prim.search rules };
}

impl Quarter for [u8; 12] {
    ghost use Rattle.std.proofs.Common.{rules};

    ghost quarter = { Prim.search rules };
}

impl Inline for [u8; 16] {
    ghost use Rattle.std.proofs.Common.{rules};

    ghost small = { Prim.search rules };

    fn another(&self) -> Result<[u8; 16], AllocError> {
        Ok(*self)
    }
}

impl Half for [u8; 16] {
    ghost use Rattle.std.proofs.Common.{rules};

    ghost half = { Prim.search rules };
}

impl Quarter for [u8; 16] {
    ghost use Rattle.std.proofs.Common.{rules};

    ghost quarter = { Prim.search rules };
}

impl Inline for [u8; 20] {
    ghost use Rattle.std.proofs.Common.{rules};

    ghost small = { Prim.search rules };

    fn another(&self) -> Result<[u8; 20], AllocError> {
        Ok(*self)
    }
}

impl Half for [u8; 20] {
    ghost use Rattle.std.proofs.Common.{rules};

    ghost half = { Prim.search rules };
}

impl Inline for [u8; 32] {
    ghost use Rattle.std.proofs.Common.{rules};

    ghost small = { Prim.search rules };

    fn another(&self) -> Result<[u8; 32], AllocError> {
        Ok(*self)
    }
}

impl Half for [u8; 32] {
    ghost use Rattle.std.proofs.Common.{rules};

    ghost half = { Prim.search rules };
}

impl Inline for [u8; 64] {
    ghost use Rattle.std.proofs.Common.{rules};

    ghost small = { Prim.search rules };

    fn another(&self) -> Result<[u8; 64], AllocError> {
        Ok(*self)
    }
}
