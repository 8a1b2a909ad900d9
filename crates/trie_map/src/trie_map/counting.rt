//! How many pairs a map has.
ghost use Rattle.std.specs.Prelude.{◌≤◌};
ghost use Rattle.versions.specs.declared.version.TheConstants.{MOST_PAIRS};

use super::TrieMap;
use hash_path::PathKey;
use std::sync::Wait;
use stripes::Keeps;
use trie_node::Slots;
use write_history::Naming;

impl<K: PathKey + Drop, V: Drop, P: Keeps<K, V>, J: Naming, S: Slots<K, V>> TrieMap<K, V, P, J, S>
where
    S::Key: Drop,
    S::Value: Drop,
{
    /// How many pairs there are at one moment of the call. Each stripe is taken once those before it are held, in
    /// rising order of digits, as `view` takes them.
    ///
    /// Cost: O(1), under all locks. Refused: never.
    pub fn len<R: Wait>(&self, rt: &R) -> u64
        ensures { result ≤ MOST_PAIRS }
    {
        self.row.len_from(rt, 0)
    }

    /// Whether there is no pair at one moment of the call.
    ///
    /// Cost: O(1), under all locks, as `len`. Refused: never.
    pub fn is_empty<R: Wait>(&self, rt: &R) -> bool {
        self.len(rt) == 0
    }

    /// How many pairs there are, counted stripe by stripe: writers of other stripes go on. Where others write
    /// meanwhile, there may have been no moment at which there were that many.
    ///
    /// Cost: O(1), one lock at a time, 32 in all. Refused: never.
    pub fn approx_len<R: Wait>(&self, rt: &R) -> u64
        ensures { result ≤ MOST_PAIRS }
    {
        self.row.approx_len(rt)
    }

    // What `approx_len` returns where no stripe is locked. It never waits.
    pub(crate) fn try_len(&self) -> Option<u64> {
        self.row.try_len()
    }
}
