//! Byte texts that lie in place.

ghost use Rattle.std.specs.Prelude.{◌≡◌, ◌≤◌, length};

use std::marker::Model;

/// How many bytes of a `ByteText` lie in place at most: as many as make it no longer than its other form, a `Vec`.
pub const MOST_IN_PLACE: usize = 30;

/// A text of at most `MOST_IN_PLACE` bytes: the first `len` of the places. The others are 0.
///
/// Contracts see it as the list of its bytes.
#[derive(Drop)]
pub(crate) struct Short {
    len: u8,
    places: [u8; MOST_IN_PLACE],
}

impl Model for Short {
    ghost use Rattle.std.specs.Prelude.{List, ℕ, ◌≤◌, take};
    ghost use Rattle.keys.specs.declared.short.TheConstants.{MOST_IN_PLACE};

    ghost Value = { List ℕ };

    ghost view = { λ s. take s.len s.places };

    ghost invariant = { λ s. s.len ≤ MOST_IN_PLACE };
}

impl Short {
    /// The text that has a copy of these bytes.
    pub(crate) fn new(bytes: &[u8]) -> Short
        requires { length bytes.now ≤ MOST_IN_PLACE }
        ensures { result ≡ bytes.now }
    {
        let mut places = [0; MOST_IN_PLACE];
        places[..bytes.len()].copy_from_slice(bytes);
        Short {
            len: bytes.len() as u8,
            places,
        }
    }

    /// The text's bytes.
    pub(crate) fn as_slice(&self) -> &[u8]
        ensures { result.now ≡ self.now }
    {
        &self.places[..usize::from(self.len)]
    }

    /// The same text.
    pub(crate) fn copied(&self) -> Short
        ensures { result ≡ self.now }
    {
        Short {
            len: self.len,
            places: self.places,
        }
    }
}
