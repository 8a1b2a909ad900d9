//! Two maps together.
ghost use Rattle.std.specs.Prelude.{◌≡◌, ◌+◌, ◌≤◌, length, max, IfOk};
ghost use Rattle.versions.specs.Map.{union};

use hash_path::PathKey;
use std::alloc::Global;
use trie_node::{NoMemory, Slots, Stamp, merged, union_of_maps};
use versions::Version;

/// The pairs of both maps; where both have a key, the left value wins.
///
/// It goes down both tries at once and shares each part where one map alone has pairs, so that maps of disjoint
/// intervals are put together at the cost of the nodes where the intervals meet. Both maps are unchanged.
pub fn merge<K: PathKey, V, S: Slots<K, V>>(
    alloc: Global,
    left: &Version<K, V, S>,
    right: &Version<K, V, S>,
) -> Result<Version<K, V, S>, NoMemory>
where
    S::Key: Drop,
    S::Value: Drop,
    requires limits { left.now.limit ≡ right.now.limit }
    requires room { length left.now.entries + length right.now.entries ≤ left.now.limit }
    ensures entries { IfOk result (λ both. both.entries ≡ union K.cmp left.now.entries right.now.entries) }
    ensures limit { IfOk result (λ both. both.limit ≡ left.now.limit) }
    ensures stamp { IfOk result (λ both. both.stamp ≡ max left.now.stamp right.now.stamp) }
{
    union_of_maps::<K, V>();
    // What these tell of the maps: their keys rise strictly.
    left.len();
    right.len();
    let limit = left.limit();
    let stamp = newer(left.stamp(), right.stamp());
    let root = merged(alloc, left.root(), right.root(), stamp)?;
    Ok(Version::from_root(root, limit, stamp))
}

// The greater of two stamps.
fn newer(a: Stamp, b: Stamp) -> Stamp
    ensures { result.0 ≡ max a.0 b.0 }
{
    if a.0 < b.0 { b } else { a }
}
