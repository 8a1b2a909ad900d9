//! Truth values, characters, floats and the unit may lie in a row.

use crate::inline::{Half, Inline, Quarter};
use std::alloc::AllocError;

impl Inline for bool {
    ghost use Rattle.std.proofs.Common.{rules};

    ghost small = { Prim.search rules };

    fn another(&self) -> Result<bool, AllocError> {
        Ok(*self)
    }
}

impl Half for bool {
    ghost use Rattle.std.proofs.Common.{rules};

    ghost half = { Prim.search rules };
}

impl Quarter for bool {
    ghost use Rattle.std.proofs.Common.{rules};

    ghost quarter = { Prim.search rules };
}

impl Inline for char {
    ghost use Rattle.std.proofs.Common.{rules};

    ghost small = { Prim.search rules };

    fn another(&self) -> Result<char, AllocError> {
        Ok(*self)
    }
}

impl Half for char {
    ghost use Rattle.std.proofs.Common.{rules};

    ghost half = { Prim.search rules };
}

impl Quarter for char {
    ghost use Rattle.std.proofs.Common.{rules};

    ghost quarter = { Prim.search rules };
}

impl Inline for f32 {
    ghost use Rattle.std.proofs.Common.{rules};

    ghost small = { Prim.search rules };

    fn another(&self) -> Result<f32, AllocError> {
        Ok(*self)
    }
}

impl Half for f32 {
    ghost use Rattle.std.proofs.Common.{rules};

    ghost half = { Prim.search rules };
}

impl Quarter for f32 {
    ghost use Rattle.std.proofs.Common.{rules};

    ghost quarter = { Prim.search rules };
}

impl Inline for f64 {
    ghost use Rattle.std.proofs.Common.{rules};

    ghost small = { Prim.search rules };

    fn another(&self) -> Result<f64, AllocError> {
        Ok(*self)
    }
}

impl Half for f64 {
    ghost use Rattle.std.proofs.Common.{rules};

    ghost half = { Prim.search rules };
}

impl Quarter for f64 {
    ghost use Rattle.std.proofs.Common.{rules};

    ghost quarter = { Prim.search rules };
}

impl Inline for () {
    ghost use Rattle.std.proofs.Common.{rules};

    ghost small = { Prim.search rules };

    fn another(&self) -> Result<(), AllocError> {
        Ok(*self)
    }
}

impl Half for () {
    ghost use Rattle.std.proofs.Common.{rules};

    ghost half = { Prim.search rules };
}

impl Quarter for () {
    ghost use Rattle.std.proofs.Common.{rules};

    ghost quarter = { Prim.search rules };
}
