//! A key of two fields.
use tambyulo::{Path, PathKey};

/// A page, and the hour in which it was visited. Visits are in the order of the page, and then of the hour.
#[derive(Clone, Copy, PartialEq, Eq, PartialOrd, Ord)]
pub struct Visit {
    pub page: u64,
    pub hour: u64,
}

impl PathKey for Visit {
    ghost use Rattle.tambyulo.specs.Fnv.{fnv1a, fnv1a-below};
    ghost use Rattle.example_keys.specs.Visits.{bytes_of, visit-exact};

    ghost path_of = { λ visit. fnv1a (bytes_of visit) };

    ghost exact = { visit-exact };

    ghost small = { λ visit. fnv1a-below (bytes_of visit) };

    fn path(&self) -> Path {
        Path::fnv1a([self.page.to_le_bytes(), self.hour.to_le_bytes()].as_flattened())
    }
}
