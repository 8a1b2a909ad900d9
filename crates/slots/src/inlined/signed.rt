//! Integers with a sign may lie in a row.

use crate::inline::{Half, Inline, Quarter};
use std::alloc::AllocError;

impl Inline for i8 {
    ghost use Rattle.std.proofs.Common.{rules};

    ghost small = { Prim.search rules };

    fn another(&self) -> Result<i8, AllocError> {
        Ok(*self)
    }
}

impl Half for i8 {
    ghost use Rattle.std.proofs.Common.{rules};

    ghost half = { Prim.search rules };
}

impl Quarter for i8 {
    ghost use Rattle.std.proofs.Common.{rules};

    ghost quarter = { Prim.search rules };
}

impl Inline for i16 {
    ghost use Rattle.std.proofs.Common.{rules};

    ghost small = { Prim.search rules };

    fn another(&self) -> Result<i16, AllocError> {
        Ok(*self)
    }
}

impl Half for i16 {
    ghost use Rattle.std.proofs.Common.{rules};

    ghost half = { Prim.search rules };
}

impl Quarter for i16 {
    ghost use Rattle.std.proofs.Common.{rules};

    ghost quarter = { Prim.search rules };
}

impl Inline for i32 {
    ghost use Rattle.std.proofs.Common.{rules};

    ghost small = { Prim.search rules };

    fn another(&self) -> Result<i32, AllocError> {
        Ok(*self)
    }
}

impl Half for i32 {
    ghost use Rattle.std.proofs.Common.{rules};

    ghost half = { Prim.search rules };
}

impl Quarter for i32 {
    ghost use Rattle.std.proofs.Common.{rules};

    ghost quarter = { Prim.search rules };
}

impl Inline for i64 {
    ghost use Rattle.std.proofs.Common.{rules};

    ghost small = { Prim.search rules };

    fn another(&self) -> Result<i64, AllocError> {
        Ok(*self)
    }
}

impl Half for i64 {
    ghost use Rattle.std.proofs.Common.{rules};

    ghost half = { Prim.search rules };
}

impl Quarter for i64 {
    ghost use Rattle.std.proofs.Common.{rules};

    ghost quarter = { Prim.search rules };
}

impl Inline for i128 {
    ghost use Rattle.std.proofs.Common.{rules};

    ghost small = { Prim.search rules };

    fn another(&self) -> Result<i128, AllocError> {
        Ok(*self)
    }
}

impl Half for i128 {
    ghost use Rattle.std.proofs.Common.{rules};

    ghost half = { Prim.search rules };
}

impl Quarter for i128 {
    ghost use Rattle.std.proofs.Common.{rules};

    ghost quarter = { Prim.search rules };
}

impl Inline for isize {
    ghost use Rattle.std.proofs.Common.{rules};

    ghost small = { Prim.search rules };

    fn another(&self) -> Result<isize, AllocError> {
        Ok(*self)
    }
}

impl Half for isize {
    ghost use Rattle.std.proofs.Common.{rules};

    ghost half = { Prim.search rules };
}

impl Quarter for isize {
    ghost use Rattle.std.proofs.Common.{rules};

    ghost quarter = { Prim.search rules };
}
