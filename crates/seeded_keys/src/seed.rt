//! What words of keys are made with.

ghost use Rattle.std.specs.Prelude.{◌≡◌, IfOk};
ghost use Rattle.seeded_keys.specs.Sip.{siphash};
ghost use Rattle.seeded_keys.specs.Seeded.{seeded};

use crate::seeded::SeededText;
use core::hash::{Hasher, keyed_hasher};
use keys::ByteText;
use std::alloc::{AllocError, Global};
use std::fmt::{Debug, Formatter};
use std::random::RandomSource;
use std::{fmt, io};

/// The 128 bits with which a service makes the path words of its keys. Whoever knows them can make keys that share a
/// word, so they are drawn anew for each run, and told to nobody.
///
/// <!-- quoted from crates/tests_keys/src/tests/seeded.rt -->
/// ```rust
/// let seed = Seed::random(&rt)?;
/// let alice = seed.key(alloc, "alice")?;
/// ```
#[derive(Clone, Copy)]
pub struct Seed {
    pub(crate) key0: u64,
    pub(crate) key1: u64,
}

impl Seed {
    /// The seed of these 128 bits, the first half of them in `key0`.
    ///
    /// Cost: O(1), no lock. Refused: never.
    pub fn new(key0: u64, key1: u64) -> Seed
        ensures { (result.key0 ≡ key0) × (result.key1 ≡ key1) }
    {
        Seed { key0, key1 }
    }

    /// A seed of random bits, which the system gives.
    ///
    /// Cost: O(1), two calls of the system, no lock. Refused: by the system's error.
    pub fn random(rt: &impl RandomSource) -> Result<Seed, io::Error> {
        let (mut first, mut second) = ([0; 8], [0; 8]);
        rt.fill_bytes(&mut first)?;
        rt.fill_bytes(&mut second)?;
        Ok(Seed::new(u64::from_le_bytes(first), u64::from_le_bytes(second)))
    }

    /// The key that has a copy of this text's bytes. They are hashed here, and never again.
    ///
    /// Cost: O(k) for k bytes, no lock. Refused: by `AllocError`, if memory runs out; up to `MOST_IN_PLACE` bytes need
    /// none.
    pub fn key(&self, alloc: Global, text: &str) -> Result<SeededText, AllocError>
        ensures { IfOk result (λ key. key ≡ seeded self.now text.now) }
    {
        Ok(self.key_of(ByteText::from_text(alloc, text)?))
    }

    /// The key that has these bytes. They are hashed here, and never again.
    ///
    /// Cost: O(k) for k bytes, no lock. Refused: never.
    pub fn key_of(&self, text: ByteText) -> SeededText
        ensures { result ≡ seeded self.now text }
    {
        let word = self.word(text.as_bytes());
        SeededText { text, word }
    }

    /// The path word of a key of these bytes: their SipHash-1-3 under the seed, as Aumasson and Bernstein publish it.
    ///
    /// Cost: O(k) for k bytes, no lock. Refused: never.
    pub fn word(&self, bytes: &[u8]) -> u64
        ensures { result ≡ siphash self.now bytes.now }
    {
        let mut hasher = keyed_hasher(self.key0, self.key1);
        hasher.write(bytes);
        hasher.finish()
    }
}

/// Shows no bit of the seed.
impl Debug for Seed {
    fn fmt<W: fmt::Write>(&self, f: &mut Formatter<W>) -> fmt::Result {
        f.debug_struct("Seed").finish_non_exhaustive()
    }
}
