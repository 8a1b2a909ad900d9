//! Maps of a pair or none, and pairs that are put into a map with room.
ghost use Rattle.std.specs.Prelude.{◌≡◌, ◌<◌, ◌∷◌, [], IfOk, OnErr, OnOk, cond, length};
ghost use Rattle.versions.specs.Map.{with_pair};
ghost use Rattle.versions.specs.declared.version.TheConstants.{MOST_PAIRS};

use hash_path::PathKey;
use std::alloc::Global;
use trie_node::{NoMemory, Slots, Stamp, empty_root};
use versions::{MOST_PAIRS, Refusal, Version};

/// Puts a pair into a map that has room. After `NoMemory` the map is as before.
pub fn put_within<K: PathKey, V, S: Slots<K, V>>(
    alloc: Global,
    map: &mut Version<K, V, S>,
    key: S::Key,
    value: S::Value,
) -> Result<(), NoMemory>
where
    S::Key: Drop,
    S::Value: Drop,
    requires { length map.old.entries < map.old.limit }
    ensures entries { OnOk result (map.new.entries ≡ with_pair K.cmp map.old.entries (S.key_of key) (S.value_of value)) }
    ensures limit { map.new.limit ≡ map.old.limit }
    ensures err { OnErr result (map.new ≡ map.old) }
{
    match map.put(alloc, key, value) {
        Ok(_) => Ok(()),
        Err(Refusal::NoMemory) => Err(NoMemory),
        Err(_) => unreachable!(),
    }
}

/// A map of no pairs, with the largest limit.
pub fn no_pairs<K: PathKey, V, S: Slots<K, V>>(alloc: Global) -> Result<Version<K, V, S>, NoMemory>
where
    S::Key: Drop,
    S::Value: Drop,
    ensures entries { IfOk result (λ map. map.entries ≡ []) }
    ensures limit { IfOk result (λ map. map.limit ≡ MOST_PAIRS) }
{
    let root = empty_root(alloc, Stamp::LOOSE)?;
    Ok(Version::from_root(root, MOST_PAIRS, Stamp::LOOSE))
}

/// The map of one pair, with another handle on its key.
pub(crate) fn one_pair<K: PathKey, V, S: Slots<K, V>>(
    alloc: Global,
    key: &S::Key,
    value: S::Value,
) -> Result<Version<K, V, S>, NoMemory>
where
    S::Key: Drop,
    S::Value: Drop,
    ensures entries { IfOk result (λ map. map.entries ≡ (S.key_of key.now, S.value_of value) ∷ []) }
    ensures limit { IfOk result (λ map. map.limit ≡ MOST_PAIRS) }
{
    let key = S::another_key(key)?;
    let mut map = no_pairs(alloc)?;
    put_within(alloc, &mut map, key, value)?;
    Ok(map)
}

/// The map of the pair, if it passes, or of none.
pub(crate) fn pair_if<K: PathKey, V, S: Slots<K, V>>(
    alloc: Global,
    passes: bool,
    key: &S::Key,
    value: &S::Value,
) -> Result<Version<K, V, S>, NoMemory>
where
    S::Key: Drop,
    S::Value: Drop,
    ensures entries { IfOk result (λ map. map.entries ≡ cond passes ((S.key_of key.now, S.value_of value.now) ∷ []) []) }
    ensures limit { IfOk result (λ map. map.limit ≡ MOST_PAIRS) }
{
    if passes {
        one_pair::<K, V, S>(alloc, key, S::another_value(value)?)
    } else {
        no_pairs(alloc)
    }
}
