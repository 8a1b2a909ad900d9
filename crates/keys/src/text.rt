//! The byte text.

ghost use Rattle.std.specs.Prelude.{◌≡◌, ◌≤◌, length, IfOk, IsOk, MatchOption};
ghost use Rattle.std.specs.Str.{IsUtf8};

use crate::short::{MOST_IN_PLACE, Short};
use hash_path::{Path, PathKey};
use std::alloc::{AllocError, Global};
use std::cmp::Ordering;
use std::marker::Model;
use std::{fmt, str};

/// A key of any bytes, in the order of a dictionary. Its path word is the FNV-1a hash of the bytes.
///
/// <!-- quoted from crates/tests_keys/src/tests/texts.rt -->
/// ```rust
/// let plain = ByteText::from_text(rt.alloc(), "h\u{e9}llo")?;
/// assert_eq!(rt; plain.as_str(), Some("h\u{e9}llo"));
/// ```
///
/// Up to `MOST_IN_PLACE` bytes lie in the key itself, and more in memory of their own. Contracts see it as the list of
/// its bytes.
#[derive(Drop)]
pub struct ByteText {
    bytes: Bytes,
}

/// Where the bytes lie.
#[derive(Drop)]
enum Bytes {
    InPlace(Short),
    Apart(Vec<u8>),
}

impl Model for ByteText {
    ghost use Rattle.std.specs.Prelude.{List, ℕ};

    ghost Value = { List ℕ };

    ghost use Rattle.keys.specs.KeyBytes.{held, IsPlaced};

    ghost view = { λ text. held text.bytes };

    ghost invariant = { λ text. IsPlaced text.bytes };
}

impl ByteText {
    /// The key that has these bytes: in place where there are so few, and else where they are.
    ///
    /// Cost: O(1), no lock and no request for memory. Refused: never.
    pub fn new(bytes: Vec<u8>) -> ByteText
        ensures { result ≡ bytes.items }
    {
        if bytes.len() <= MOST_IN_PLACE {
            return ByteText {
                bytes: Bytes::InPlace(Short::new(bytes.as_slice())),
            };
        }
        ByteText {
            bytes: Bytes::Apart(bytes),
        }
    }

    /// The key that has a copy of these bytes. No memory is requested where they lie in place.
    ///
    /// Cost: O(k) for k bytes, no lock. Refused: by `AllocError`, if memory runs out.
    pub fn from_slice(alloc: Global, bytes: &[u8]) -> Result<ByteText, AllocError>
        ensures bytes { IfOk result (λ key. key ≡ bytes.now) }
        ensures in_place { length bytes.now ≤ MOST_IN_PLACE → IsOk result }
    {
        if bytes.len() <= MOST_IN_PLACE {
            return Ok(ByteText {
                bytes: Bytes::InPlace(Short::new(bytes)),
            });
        }
        Ok(ByteText {
            bytes: Bytes::Apart(Vec::from_slice(alloc, bytes)?),
        })
    }

    /// The key that has a copy of this text's bytes. No memory is requested where they lie in place.
    ///
    /// Cost: O(k) for k bytes, no lock. Refused: by `AllocError`, if memory runs out.
    pub fn from_text(alloc: Global, text: &str) -> Result<ByteText, AllocError>
        ensures bytes { IfOk result (λ key. key ≡ text.now) }
        ensures in_place { length text.now ≤ MOST_IN_PLACE → IsOk result }
    {
        ByteText::from_slice(alloc, text.as_bytes())
    }

    /// The key's bytes.
    ///
    /// Cost: O(1), no lock. Refused: never.
    pub fn as_bytes(&self) -> &[u8]
        ensures { result.now ≡ self.now }
    {
        match &self.bytes {
            Bytes::InPlace(short) => short.as_slice(),
            Bytes::Apart(vec) => vec.as_slice(),
        }
    }

    /// The key's bytes as a text, or none if they are not UTF-8.
    ///
    /// Cost: O(k) for k bytes, no lock. Refused: never.
    pub fn as_str(&self) -> Option<&str>
        ensures { MatchOption result (¬ (IsUtf8 self.now)) (λ text. (text.now ≡ self.now) × IsUtf8 self.now) }
    {
        str::from_utf8(self.as_bytes()).ok()
    }

    /// The key that has a copy of this one's bytes. No memory is requested where they lie in place.
    ///
    /// Cost: O(k) for k bytes, no lock. Refused: by `AllocError`, if memory runs out.
    pub fn try_clone(&self, alloc: Global) -> Result<ByteText, AllocError>
        ensures bytes { IfOk result (λ key. key ≡ self.now) }
        ensures in_place { length self.now ≤ MOST_IN_PLACE → IsOk result }
    {
        ByteText::from_slice(alloc, self.as_bytes())
    }
}

impl fmt::Debug for ByteText {
    fn fmt<W: fmt::Write>(&self, f: &mut fmt::Formatter<W>) -> fmt::Result {
        f.debug_struct("ByteText")
            .field("bytes", &self.as_bytes())
            .finish()
    }
}

/// Writes the bytes as a text, with U+FFFD in place of each sequence that is not UTF-8, as `String::from_utf8_lossy` does.
impl fmt::Display for ByteText {
    fn fmt<W: fmt::Write>(&self, f: &mut fmt::Formatter<W>) -> fmt::Result {
        for chunk in self.as_bytes().utf8_chunks() {
            f.write_str(chunk.valid())?;
            if !chunk.invalid().is_empty() {
                f.write_char('\u{FFFD}')?;
            }
        }
        Ok(())
    }
}

/// A clone requests memory only where the bytes do not lie in place.
impl Clone for ByteText {
    ghost use Rattle.std.specs.Prelude.{◌≡◌, ◌≤◌, length};

    ghost is_clone = { λ text clone. clone ≡ text };

    ghost use Rattle.keys.specs.declared.short.TheConstants.{MOST_IN_PLACE};

    ghost is_infallible = { λ text. length text ≤ MOST_IN_PLACE };

    fn clone(&self) -> Result<ByteText, AllocError> {
        let bytes = match &self.bytes {
            Bytes::InPlace(short) => Bytes::InPlace(short.copied()),
            Bytes::Apart(vec) => Bytes::Apart(Vec::from_slice(*vec.allocator(), vec.as_slice())?),
        };
        Ok(ByteText { bytes })
    }
}

impl PartialEq for ByteText {
    ghost use Rattle.keys.specs.Order.{bytes_eq};
    ghost use Rattle.std.proofs.Common.{rules};
    ghost use Rattle.std.specs.Cmp.Rules.{comparing};

    ghost eq = { bytes_eq };

    ghost laws = { Prim.search (comparing, rules) };

    fn eq(&self, other: &ByteText) -> bool {
        self.as_bytes() == other.as_bytes()
    }
}

impl Eq for ByteText {
    ghost use Rattle.std.proofs.Common.{rules};
    ghost use Rattle.std.specs.Cmp.Rules.{comparing};

    ghost laws = { Prim.search (comparing, rules) };
}

impl PartialOrd for ByteText {
    ghost use Rattle.keys.specs.Order.{bytes_cmp};
    ghost use Rattle.std.specs.Ordering.{as_partial_cmp};
    ghost use Rattle.std.proofs.Common.{rules};
    ghost use Rattle.std.specs.Cmp.{partial_order_from_own_ties};
    ghost use Rattle.std.specs.Cmp.Rules.{comparing};

    ghost partial_cmp = { as_partial_cmp bytes_cmp };

    ghost laws = { partial_order_from_own_ties (Prim.search (comparing, rules)) (Prim.search (comparing, rules)) };

    fn partial_cmp(&self, other: &ByteText) -> Option<Ordering> {
        Some(self.cmp(other))
    }
}

impl Ord for ByteText {
    ghost use Rattle.keys.specs.Order.{bytes_cmp};
    ghost use Rattle.std.proofs.Common.{rules};
    ghost use Rattle.std.specs.Cmp.Rules.{comparing};

    ghost cmp = { bytes_cmp };

    ghost total = { Prim.search (comparing, rules) };

    ghost matches_partial_cmp = { Prim.search (comparing, rules) };

    ghost matches_eq = { Prim.search (comparing, rules) };

    fn cmp(&self, other: &ByteText) -> Ordering {
        self.as_bytes().cmp(other.as_bytes())
    }
}

impl PathKey for ByteText {
    ghost use Rattle.hash_path.specs.Fnv.{fnv1a, fnv1a-below};
    ghost use Rattle.std.specs.FinMap.{nat_cmp-IsAntisymmetric, slice_cmp-IsAntisymmetric};

    ghost path_of = { fnv1a };

    ghost exact = { slice_cmp-IsAntisymmetric nat_cmp-IsAntisymmetric };

    ghost small = { fnv1a-below };

    fn path(&self) -> Path {
        Path::fnv1a(self.as_bytes())
    }
}
