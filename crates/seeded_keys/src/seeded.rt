//! Texts with their words.

ghost use Rattle.std.specs.Prelude.{◌≡◌, ◌%◌, ◌^◌, IfOk, MatchOption};
ghost use Rattle.std.specs.Str.{IsUtf8};
ghost use Rattle.hash_path.specs.Widths.{word_bits};

use hash_path::{Path, PathKey};
use keys::ByteText;
use std::alloc::{AllocError, Global};
use std::fmt;

/// A key of any bytes, with its path word under the seed that made it. Keys are in the order of their bytes; those of
/// two seeds are no equal keys, whatever their bytes.
///
/// <!-- quoted from crates/tests_keys/src/tests/seeded.rt -->
/// ```rust
/// assert_eq!(rt; found((&zeros, "alice"), &key), (path, Ordering::Equal));
/// ```
///
/// Contracts see it as the list of its bytes beside its word.
#[derive(Drop, PartialEq, Eq, PartialOrd, Ord)]
pub struct SeededText {
    pub(crate) text: ByteText,
    pub(crate) word: u64,
}

impl SeededText {
    /// The key's bytes.
    ///
    /// Cost: O(1), no lock. Refused: never.
    pub fn as_bytes(&self) -> &[u8]
        ensures { result.now ≡ self.now.text }
    {
        self.text.as_bytes()
    }

    /// The key's bytes as a text, or none if they are not UTF-8.
    ///
    /// Cost: O(k) for k bytes, no lock. Refused: never.
    pub fn as_str(&self) -> Option<&str>
        ensures { MatchOption result (¬ (IsUtf8 self.now.text)) (λ text. (text.now ≡ self.now.text) × IsUtf8 self.now.text) }
    {
        self.text.as_str()
    }

    /// The same key, which is not hashed again.
    ///
    /// Cost: O(k) for k bytes, no lock. Refused: by `AllocError`, if memory runs out.
    pub fn try_clone(&self, alloc: Global) -> Result<SeededText, AllocError>
        ensures { IfOk result (λ key. key ≡ self.now) }
    {
        let text = self.text.try_clone(alloc)?;
        Ok(SeededText {
            text,
            word: self.word,
        })
    }
}

impl Clone for SeededText {
    ghost use Rattle.std.specs.Prelude.{◌≡◌};

    ghost is_clone = { λ text clone. clone ≡ text };

    fn clone(&self) -> Result<SeededText, AllocError> {
        let text = self.text.clone()?;
        Ok(SeededText {
            text,
            word: self.word,
        })
    }
}

impl fmt::Debug for SeededText {
    fn fmt<W: fmt::Write>(&self, f: &mut fmt::Formatter<W>) -> fmt::Result {
        fmt::Debug::fmt(&self.text, f)
    }
}

/// Writes the bytes as a text, as that of a `ByteText`.
impl fmt::Display for SeededText {
    fn fmt<W: fmt::Write>(&self, f: &mut fmt::Formatter<W>) -> fmt::Result {
        fmt::Display::fmt(&self.text, f)
    }
}

impl PathKey for SeededText {
    ghost use Rattle.seeded_keys.specs.Seeded.{path_word, path_word-below, seeded-exact};

    ghost path_of = { path_word };

    ghost exact = { seeded-exact };

    ghost small = { path_word-below };

    fn path(&self) -> Path {
        path_with(self.word)
    }
}

/// The path of this word, which has 64 bits as a number that is passed.
fn path_with(word: u64) -> Path
    ensures { result.0 ≡ word % 2 ^ word_bits }
{
    Path(word)
}
