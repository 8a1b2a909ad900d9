//! Numbers from 0 on may lie in a row.

use crate::inline::{Half, Inline, Quarter};
use std::alloc::AllocError;

impl Inline for u8 {
    ghost use Rattle.std.proofs.Common.{rules};

    ghost small = { Prim.search rules };

    fn another(&self) -> Result<u8, AllocError> {
        Ok(*self)
    }
}

impl Half for u8 {
    ghost use Rattle.std.proofs.Common.{rules};

    ghost half = { Prim.search rules };
}

impl Quarter for u8 {
    ghost use Rattle.std.proofs.Common.{rules};

    ghost quarter = { Prim.search rules };
}

impl Inline for u16 {
    ghost use Rattle.std.proofs.Common.{rules};

    ghost small = { Prim.search rules };

    fn another(&self) -> Result<u16, AllocError> {
        Ok(*self)
    }
}

impl Half for u16 {
    ghost use Rattle.std.proofs.Common.{rules};

    ghost half = { Prim.search rules };
}

impl Quarter for u16 {
    ghost use Rattle.std.proofs.Common.{rules};

    ghost quarter = { Prim.search rules };
}

impl Inline for u32 {
    ghost use Rattle.std.proofs.Common.{rules};

    ghost small = { Prim.search rules };

    fn another(&self) -> Result<u32, AllocError> {
        Ok(*self)
    }
}

impl Half for u32 {
    ghost use Rattle.std.proofs.Common.{rules};

    ghost half = { Prim.search rules };
}

impl Quarter for u32 {
    ghost use Rattle.std.proofs.Common.{rules};

    ghost quarter = { Prim.search rules };
}

impl Inline for u64 {
    ghost use Rattle.std.proofs.Common.{rules};

    ghost small = { Prim.search rules };

    fn another(&self) -> Result<u64, AllocError> {
        Ok(*self)
    }
}

impl Half for u64 {
    ghost use Rattle.std.proofs.Common.{rules};

    ghost half = { Prim.search rules };
}

impl Quarter for u64 {
    ghost use Rattle.std.proofs.Common.{rules};

    ghost quarter = { Prim.search rules };
}

impl Inline for u128 {
    ghost use Rattle.std.proofs.Common.{rules};

    ghost small = { Prim.search rules };

    fn another(&self) -> Result<u128, AllocError> {
        Ok(*self)
    }
}

impl Half for u128 {
    ghost use Rattle.std.proofs.Common.{rules};

    ghost half = { Prim.search rules };
}

impl Quarter for u128 {
    ghost use Rattle.std.proofs.Common.{rules};

    ghost quarter = { Prim.search rules };
}

impl Inline for usize {
    ghost use Rattle.std.proofs.Common.{rules};

    ghost small = { Prim.search rules };

    fn another(&self) -> Result<usize, AllocError> {
        Ok(*self)
    }
}

impl Half for usize {
    ghost use Rattle.std.proofs.Common.{rules};

    ghost half = { Prim.search rules };
}

impl Quarter for usize {
    ghost use Rattle.std.proofs.Common.{rules};

    ghost quarter = { Prim.search rules };
}
