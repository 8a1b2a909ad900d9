//! What callers that are not in Rattle are shown of a value.

ghost use Rattle.std.specs.Prelude.{◌≡◌, List, ℕ};

use keys::ByteText;

/// A value of such a map.
pub trait Shown: Eq + Drop {
    /// The number that an answer has of it.
    ghost number: { Self → ℕ };

    /// The bytes that it has beside that number.
    ghost bytes: { Self → List ℕ };

    /// The number that an answer has of it.
    fn number(&self) -> u64
        ensures { result ≡ number self.now };

    /// The bytes that it has beside that number.
    fn bytes(&self) -> &[u8]
        ensures { result.now ≡ bytes self.now };
}

/// A number is shown as it is.
impl Shown for u64 {
    ghost use Rattle.std.specs.Prelude.{[]};

    ghost number = { λ n. n };

    ghost bytes = { λ _. [] };

    fn number(&self) -> u64 {
        *self
    }

    fn bytes(&self) -> &[u8] {
        &[]
    }
}

/// A text is shown by its length and its bytes.
impl Shown for ByteText {
    ghost use Rattle.std.specs.Prelude.{length};

    ghost number = { length };

    ghost bytes = { λ text. text };

    fn number(&self) -> u64 {
        self.as_bytes().len() as u64
    }

    fn bytes(&self) -> &[u8] {
        self.as_bytes()
    }
}
