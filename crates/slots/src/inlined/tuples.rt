//! Pairs, triples and quadruples of what takes little room may lie in a row.

use crate::inline::{Half, Inline, Quarter};
use std::alloc::AllocError;

impl<A: Half + Drop, B: Half> Inline for (A, B) {
    ghost use Rattle.slots.specs.Parts.{pair_small};

    ghost small = { pair_small A.row B.row A.Half.half B.Half.half };

    fn another(&self) -> Result<(A, B), AllocError> {
        Ok((self.0.another()?, self.1.another()?))
    }
}

impl<A: Quarter + Drop, B: Quarter> Half for (A, B) {
    ghost use Rattle.slots.specs.Parts.{pair_half};

    ghost half = { pair_half A.row B.row A.Quarter.quarter B.Quarter.quarter };
}

impl<A: Quarter + Drop, B: Quarter + Drop, C: Quarter> Inline for (A, B, C) {
    ghost use Rattle.slots.specs.Parts.{triple_small};

    ghost small = { triple_small A.row B.row C.row A.Quarter.quarter B.Quarter.quarter C.Quarter.quarter };

    fn another(&self) -> Result<(A, B, C), AllocError> {
        Ok((self.0.another()?, self.1.another()?, self.2.another()?))
    }
}

impl<A: Quarter + Drop, B: Quarter + Drop, C: Quarter + Drop, D: Quarter> Inline for (A, B, C, D) {
    ghost use Rattle.slots.specs.Parts.{quadruple_small};

    ghost small = { quadruple_small A.row B.row C.row D.row A.Quarter.quarter B.Quarter.quarter C.Quarter.quarter D.Quarter.quarter };

    fn another(&self) -> Result<(A, B, C, D), AllocError> {
        Ok((
            self.0.another()?,
            self.1.another()?,
            self.2.another()?,
            self.3.another()?,
        ))
    }
}
