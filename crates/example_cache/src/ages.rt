//! The age of entries.
ghost use Rattle.std.specs.Prelude.{◌≡◌};
ghost use Rattle.trie_map.specs.Queries.{IsReady};

use crate::cached_ending::CachedEnding;
use crate::lookups::Cache;
use std::sync::Wait;
use trie_map::{NoImages, NoMemory, PairFn, Query, Stored, StoredTest, Sum};

/// Whether an entry was made in this second or later.
#[derive(Drop)]
pub struct Since(pub u64);

impl PairFn<u64, CachedEnding, bool> for Since {
    ghost use Rattle.std.specs.Prelude.{◌≡◌, nat_le};

    ghost can = { λ since. Unit {0} };

    ghost gives = { λ since number entry answer. answer ≡ nat_le since.0 entry.second };

    fn answer(&self, _number: &u64, entry: &CachedEnding) -> bool {
        self.0 <= entry.second
    }
}

/// What stands for the closures of other questions, which this program does not ask.
#[derive(Drop)]
pub struct Unasked;

impl PairFn<u64, CachedEnding, CachedEnding> for Unasked {
    ghost use Rattle.std.specs.Prelude.{◌≡◌};

    ghost can = { λ same. Unit {0} };

    ghost gives = { λ same number entry answer. answer ≡ entry };

    fn answer(&self, _number: &u64, entry: &CachedEnding) -> CachedEnding {
        *entry
    }
}

impl PairFn<u64, CachedEnding, i128> for Unasked {
    ghost use Rattle.std.specs.Prelude.{◌≡◌, pos};

    ghost can = { λ one. Unit {0} };

    ghost gives = { λ one number entry answer. answer ≡ pos 1 };

    fn answer(&self, _number: &u64, _entry: &CachedEnding) -> i128 {
        1
    }
}

/// The question of this program.
pub type Question = Query<u64, CachedEnding, Since, Unasked, Sum, Unasked, NoImages>;

/// The map of the entries that were made in this second or later.
pub fn made_since(second: u64) -> Question
    ensures { IsReady result }
{
    Query::Filter(stored(Since(second)), 0)
}

/// Removes each entry that was made before this second, unless another thread has replaced it meanwhile, and returns
/// how many it removed.
pub fn expire<R: Wait>(rt: &R, cache: &Cache, second: u64) -> Result<u64, NoMemory> {
    let mut removed = 0u64;
    for (number, entry) in cache.view(rt)?.pairs() {
        if entry.second < second && cache.remove_if(rt, number, entry)? {
            removed = removed.wrapping_add(1);
        }
    }
    Ok(removed)
}

// The test, beside the fact that it has one answer for each pair.
fn stored(since: Since) -> StoredTest<u64, CachedEnding, Since> {
    Stored::new(since)
}
