//! Two views together: what both have, what one has alone, and what changed from one to the other.
ghost use Rattle.std.specs.Prelude.{◌≡◌, IfOk};
ghost use Rattle.trie_shape.specs.Map.{union};
ghost use Rattle.versions.specs.declared.version.TheConstants.{MOST_PAIRS};
ghost use Rattle.view_sets.specs.Sets.{altered, apart, common};

use super::View;
use hash_path::PathKey;
use stripes::Keeps;
use trie_node::{NoMemory, Slots};
use versions::{Refusal, Version};
use view_sets::{Changes, changes_between};

/// Each map that is made has one owner, who may write it; it shares the keys and the values with the views. It is made
/// on the caller's thread, with no lock held.
impl<K: PathKey, V, P: Keeps<K, V>, S: Slots<K, V>> View<K, V, P, S>
where
    S::Key: Drop,
    S::Value: Drop,
{
    /// The map of the pairs of both views; where both have a key, the value is this view's.
    ///
    /// Cost: O(n + m) for views of n and m pairs, no lock. Refused: `Full`, where the map would have more than
    /// `MOST_PAIRS` pairs; `NoMemory`, if memory runs out.
    pub fn union(&self, other: &View<K, V, P, S>) -> Result<Version<K, V, S>, Refusal>
        ensures entries { IfOk result (λ both. both.entries ≡ union K.cmp self.now other.now) }
        ensures limit { IfOk result (λ both. both.limit ≡ MOST_PAIRS) }
    {
        view_sets::union(self.alloc, &self.plain, &other.plain)
    }

    /// The map of this view's pairs whose keys the other one has too.
    ///
    /// Cost: O(n log m) for views of n and m pairs, no lock: a look-up for each pair. Refused: `NoMemory`, if memory runs
    /// out.
    pub fn intersection(&self, other: &View<K, V, P, S>) -> Result<Version<K, V, S>, NoMemory>
        ensures entries { IfOk result (λ both. both.entries ≡ common K.cmp self.now other.now) }
        ensures limit { IfOk result (λ both. both.limit ≡ MOST_PAIRS) }
    {
        view_sets::intersection(self.alloc, &self.plain, &other.plain)
    }

    /// The map of this view's pairs whose keys the other one has not.
    ///
    /// Cost: O(n log m) for views of n and m pairs, no lock: a look-up for each pair. Refused: `NoMemory`, if memory runs
    /// out.
    pub fn difference(&self, other: &View<K, V, P, S>) -> Result<Version<K, V, S>, NoMemory>
        ensures entries { IfOk result (λ rest. rest.entries ≡ apart K.cmp self.now other.now) }
        ensures limit { IfOk result (λ rest. rest.limit ≡ MOST_PAIRS) }
    {
        view_sets::difference(self.alloc, &self.plain, &other.plain)
    }
}

/// What changed is found by the equality of values.
impl<K: PathKey, V: PartialEq, P: Keeps<K, V>, S: Slots<K, V>> View<K, V, P, S>
where
    S::Key: Drop,
    S::Value: Drop,
{
    /// What was put, altered and removed since the older view, as a backup needs it.
    ///
    /// Cost: O(n log m + m log n) for views of n and m pairs, no lock: three look-ups at most for each key. Refused:
    /// `NoMemory`, if memory runs out.
    pub fn changes(&self, older: &View<K, V, P, S>) -> Result<Changes<K, V, S>, NoMemory>
        ensures put { IfOk result (λ changes. changes.put.entries ≡ apart K.cmp self.now older.now) }
        ensures altered { IfOk result (λ changes. changes.altered.entries ≡ altered K.cmp V.eq self.now older.now) }
        ensures removed { IfOk result (λ changes. changes.removed.entries ≡ apart K.cmp older.now self.now) }
    {
        changes_between(self.alloc, &self.plain, &older.plain)
    }
}
