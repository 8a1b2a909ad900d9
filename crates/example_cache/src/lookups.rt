//! Reading through the cache.
ghost use Rattle.std.specs.Prelude.{◌≡◌, IfOk};
ghost use Rattle.example_cache.specs.Endings.{square_ending};

use crate::cached_ending::{CachedEnding, MadeFromKey, make_entry};
use std::sync::Wait;
use trie_map::{PutError, TrieMap};

/// A cache of entries by their numbers.
pub type Cache = TrieMap<u64, CachedEnding, MadeFromKey>;

/// The last three digits of the number's square: from the cache where they are there, and else worked out and kept.
/// They are the right ones, whatever other threads have put there.
pub fn ending<R: Wait>(rt: &R, cache: &Cache, number: u64, second: u64) -> Result<u64, PutError>
    ensures { IfOk result (λ ending. ending ≡ square_ending number) }
{
    let entry = cache.get_or_else_update(rt, number, || make_entry(number, second))?;
    Ok(entry.ending)
}

/// Looks up `count` numbers from `first` on, each in the second that its number ends with, and returns the sum.
pub fn sum_of<R: Wait>(rt: &R, cache: &Cache, first: u64, count: u64) -> Result<u64, PutError> {
    let mut sum = 0u64;
    for place in 0..count {
        let number = first.wrapping_add(place);
        sum = sum.wrapping_add(ending(rt, cache, number, number % 10)?);
    }
    Ok(sum)
}
