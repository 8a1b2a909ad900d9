//! The key of a session.
use tambyulo::{Path, PathKey};

/// Whose session it is, and its number among that user's. Keys are in the order of the user, and then of the number.
#[derive(Clone, Copy, PartialEq, Eq, PartialOrd, Ord)]
pub struct SessionKey {
    pub user: u64,
    pub number: u64,
}

impl PathKey for SessionKey {
    ghost use Rattle.tambyulo.specs.Fnv.{fnv1a, fnv1a-below};
    ghost use Rattle.example_sessions.specs.SessionKeys.{bytes_of, key-exact};

    ghost path_of = { λ key. fnv1a (bytes_of key) };

    ghost exact = { key-exact };

    ghost small = { λ key. fnv1a-below (bytes_of key) };

    fn path(&self) -> Path {
        Path::fnv1a([self.user.to_le_bytes(), self.number.to_le_bytes()].as_flattened())
    }
}
