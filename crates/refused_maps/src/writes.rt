//! Writes of one map. `other` is another key of it, which stays as it is.
ghost use Rattle.std.specs.Prelude.{◌≡◌, OnOk};
ghost use Rattle.trie_shape.specs.Roots.{word_of};
ghost use Rattle.trie_shape.specs.Shape.{Restamps};
ghost use Rattle.versions.specs.Commands as commands;
ghost use Rattle.versions.specs.Map.{without};

use hash_path::PathKey;
use map_ops::replace_if;
use std::alloc::Global;
use std::sync::Arc;
use trie_node::NoMemory;
use versions::{Refusal, Version};

/// Maps the key to the value, and puts the map's stamp on the nodes of the key's path alone.
pub fn put<K: PathKey + Drop, V: Drop>(
    version: &mut Version<K, V>,
    alloc: Global,
    key: Arc<K>,
    value: Arc<V>,
    other: &Arc<K>,
) -> Result<(), Refusal>
    ensures { OnOk result (Restamps version.old.stamp (word_of K.path_of key.value) version.old.nodes version.new.nodes) }
{
    let _ = other;
    version.put(alloc, key, value)?;
    Ok(())
}

/// Removes the key.
pub fn removed<K: PathKey + Drop, V: Drop>(
    version: &mut Version<K, V>,
    alloc: Global,
    key: &K,
    other: &K,
) -> Result<(), NoMemory>
    ensures { OnOk result (version.new.entries ≡ without K.cmp version.old.entries key.now) }
{
    let _ = other;
    version.remove(alloc, key)?;
    Ok(())
}

/// Maps the key to the value where it is mapped to a value equal to `old`.
pub fn replaced_if<K: PathKey + Drop, V: Eq + Drop>(
    version: &mut Version<K, V>,
    alloc: Global,
    key: Arc<K>,
    old: &V,
    value: Arc<V>,
) -> Result<(), Refusal>
    ensures { OnOk result (version.new.entries ≡ commands.after K.cmp V.eq version.old.entries (commands.replace_if key.value old.now value.value)) }
{
    replace_if(version, alloc, key, old, value)?;
    Ok(())
}
