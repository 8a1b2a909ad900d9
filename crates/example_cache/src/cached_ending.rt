//! What the cache has of a number, and the rule that each of its pairs keeps.
ghost use Rattle.std.specs.Prelude.{◌≡◌};
ghost use Rattle.example_cache.specs.Endings.{square_ending};

use trie_map::Keeps;

/// The last three digits of a number's square, and the second in which they were worked out.
#[derive(Clone, Copy, Debug, PartialEq, Eq)]
pub struct CachedEnding {
    pub ending: u64,
    pub second: u64,
}

/// Each entry is made from its key.
pub struct MadeFromKey;

impl Keeps<u64, CachedEnding> for MadeFromKey {
    ghost use Rattle.std.specs.Prelude.{◌≡◌};
    ghost use Rattle.example_cache.specs.Endings.{square_ending};

    ghost holds = { λ number entry. entry.ending ≡ square_ending number };
}

/// The entry of a number, which is worked out now.
pub fn make_entry(number: u64, second: u64) -> CachedEnding
    ensures ending { result.ending ≡ square_ending number }
    ensures second { result.second ≡ second }
{
    let digits = number % 1_000;
    CachedEnding {
        ending: digits * digits % 1_000,
        second,
    }
}
