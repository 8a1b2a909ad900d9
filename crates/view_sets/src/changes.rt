//! What changed from one view of a map to a later one.

ghost use Rattle.std.specs.Prelude.{◌≡◌, IfOk, false, not};
ghost use Rattle.std.specs.Option.{option_map_or};
ghost use Rattle.versions.specs.Map.{value_at};
ghost use Rattle.view_sets.specs.Sets.{altered, apart};

use crate::sets::{difference, passed};
use hash_path::PathKey;
use std::alloc::Global;
use trie_node::{NoMemory, Shared, Slots};
use versions::{Version, View};

/// What changed from an older view to a newer one. Each of the three is a map of its own, which shares keys and values
/// with the view that it has them of.
///
/// <!-- quoted from crates/tests_map_ops/src/tests/sets.rt -->
/// ```rust
/// let changed = changes_between(alloc, new, old)?;
/// assert!(rt; has(&changed.put, want.apart));
/// ```
#[derive(Drop)]
pub struct Changes<K: PathKey, V, S: Slots<K, V> = Shared> {
    /// The pairs of the newer view whose keys the older one has not.
    pub put: Version<K, V, S>,
    /// The pairs of the newer view whose keys the older one has with an unequal value.
    pub altered: Version<K, V, S>,
    /// The pairs of the older view whose keys the newer one has not.
    pub removed: Version<K, V, S>,
}

/// What changed from the older view to the newer one. A backup that has the older view needs no more: the pairs of
/// `put` and `altered` are put into it, and the keys of `removed` are removed.
///
/// Cost: O(n log m + m log n) for views of n and m pairs, no lock: three look-ups at most for each key. Refused:
/// `NoMemory`, if memory runs out.
pub fn changes_between<K: PathKey, V: PartialEq, S: Slots<K, V>>(
    alloc: Global,
    newer: &View<K, V, S>,
    older: &View<K, V, S>,
) -> Result<Changes<K, V, S>, NoMemory>
where
    S::Key: Drop,
    S::Value: Drop,
    ensures put { IfOk result (λ changes. changes.put.entries ≡ apart K.cmp newer.now older.now) }
    ensures altered { IfOk result (λ changes. changes.altered.entries ≡ altered K.cmp V.eq newer.now older.now) }
    ensures removed { IfOk result (λ changes. changes.removed.entries ≡ apart K.cmp older.now newer.now) }
{
    let put = difference(alloc, newer, older)?;
    let Ok(altered) = altered_pairs(alloc, newer, older) else {
        drop(put);
        return Err(NoMemory);
    };
    let Ok(removed) = difference(alloc, older, newer) else {
        drop(put);
        drop(altered);
        return Err(NoMemory);
    };
    Ok(Changes {
        put,
        altered,
        removed,
    })
}

/// The pairs of the newer view whose keys the older one has with an unequal value.
fn altered_pairs<K: PathKey, V: PartialEq, S: Slots<K, V>>(
    alloc: Global,
    newer: &View<K, V, S>,
    older: &View<K, V, S>,
) -> Result<Version<K, V, S>, NoMemory>
where
    S::Key: Drop,
    S::Value: Drop,
    ensures { IfOk result (λ made. made.entries ≡ altered K.cmp V.eq newer.now older.now) }
{
    let differs = |key: &K, value: &V| -> bool
        ensures { result ≡ option_map_or (λ before. not (V.eq before value.now)) (value_at K.cmp older.entry.now key.now) false }
    { is_altered(older, key, value) };
    let made = passed(alloc, newer, &differs)?;
    Ok(made)
}

/// Whether the view has the key with an unequal value.
fn is_altered<K: PathKey, V: PartialEq, S: Slots<K, V>>(
    older: &View<K, V, S>,
    key: &K,
    value: &V,
) -> bool
where
    S::Key: Drop,
    S::Value: Drop,
    ensures { result ≡ option_map_or (λ before. not (V.eq before value.now)) (value_at K.cmp older.now key.now) false }
{
    match older.get(key) {
        Some(before) => *S::lend_value(before) != *value,
        None => false,
    }
}
