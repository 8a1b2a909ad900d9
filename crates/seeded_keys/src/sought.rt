//! What such a key is looked up by: a seed with a text or with bytes, and no key made of them.

ghost use Rattle.std.specs.Prelude.{◌≡◌};
ghost use Rattle.seeded_keys.specs.Seeded.{seeded, seeded_cmp};

use crate::seed::Seed;
use crate::seeded::SeededText;
use hash_path::{Path, Sought};
use std::cmp::Ordering;

/// A seed and bytes stand for the key that it makes of them. They are hashed for the way down, and once more where a key
/// with these bytes is found.
impl<'a> Sought<SeededText> for (&'a Seed, &'a [u8]) {
    ghost use Rattle.seeded_keys.specs.Seeded.{seeded};

    ghost key_of = { λ sought. seeded sought.0.now sought.1.now };

    fn path_sought(self) -> Path {
        Path(self.0.word(self.1))
    }

    fn compare_with(self, key: &SeededText) -> Ordering {
        compare(self.0, self.1, key)
    }
}

/// A seed and a text stand for the key that it makes of the text.
impl<'a> Sought<SeededText> for (&'a Seed, &'a str) {
    ghost use Rattle.seeded_keys.specs.Seeded.{seeded};

    ghost key_of = { λ sought. seeded sought.0.now sought.1.now };

    fn path_sought(self) -> Path {
        Path(self.0.word(self.1.as_bytes()))
    }

    fn compare_with(self, key: &SeededText) -> Ordering {
        compare(self.0, self.1.as_bytes(), key)
    }
}

/// How the key that the seed makes of the bytes compares with this one.
fn compare(seed: &Seed, bytes: &[u8], key: &SeededText) -> Ordering
    ensures { result ≡ seeded_cmp (seeded seed.now bytes.now) key.now }
{
    match bytes.cmp(key.text.as_bytes()) {
        Ordering::Equal => seed.word(bytes).cmp(&key.word),
        order => order,
    }
}
