//! Operations that remove a key.
ghost use Rattle.std.specs.Prelude.{◌≡◌, option_map, IfOk, OnErr, OnOk};
ghost use Rattle.std.specs.Arc.{arc_value};
ghost use Rattle.map_ops.specs.Writes.{writes};
ghost use Rattle.trie_shape.specs.Roots.{word_of};
ghost use Rattle.versions.specs.Changes.{RestampsIf};
ghost use Rattle.versions.specs.Commands as commands;
ghost use Rattle.versions.specs.Puts.{FullExactly};

use crate::along::{remove_along, remove_if_along};
use hash_path::PathKey;
use std::alloc::Global;
use std::sync::Arc;
use versions::{Refusal, Version};

/// Removes the key, and returns the value before, or none.
///
/// The only error is `NoMemory`, if memory runs out. The map is then as before.
pub fn remove<K: PathKey + Drop, V: Eq + Drop>(
    version: &mut Version<K, V>,
    alloc: Global,
    key: &K,
) -> Result<Option<Arc<V>>, Refusal>
    ensures reply { IfOk result (λ before. commands.old (option_map arc_value before) ≡ commands.reply K.cmp V.eq version.old.entries (commands.remove key.now)) }
    ensures map { OnOk result (version.new.entries ≡ commands.after K.cmp V.eq version.old.entries (commands.remove key.now)) }
    ensures nodes { OnOk result (RestampsIf (writes K.cmp V.eq version.old.entries (commands.remove key.now)) version.old.stamp (word_of K.path_of key.now) version.old.nodes version.new.nodes) }
    ensures limit { version.new.limit ≡ version.old.limit }
    ensures stamp { version.new.stamp ≡ version.old.stamp }
    ensures full { FullExactly result (commands.is_full K.cmp version.old.limit version.old.entries (commands.remove key.now)) }
    ensures err { OnErr result (version.new ≡ version.old) }
{
    let path = key.path();
    remove_along(version, alloc, key, path)
}

/// Removes the key where it is mapped to a value equal to `value`, and returns whether it was.
///
/// The only error is `NoMemory`, if memory runs out. The map is then as before.
pub fn remove_if<K: PathKey + Drop, V: Eq + Drop>(
    version: &mut Version<K, V>,
    alloc: Global,
    key: &K,
    value: &V,
) -> Result<bool, Refusal>
    ensures reply { IfOk result (λ done. commands.done done ≡ commands.reply K.cmp V.eq version.old.entries (commands.remove_if key.now value.now)) }
    ensures map { OnOk result (version.new.entries ≡ commands.after K.cmp V.eq version.old.entries (commands.remove_if key.now value.now)) }
    ensures nodes { OnOk result (RestampsIf (writes K.cmp V.eq version.old.entries (commands.remove_if key.now value.now)) version.old.stamp (word_of K.path_of key.now) version.old.nodes version.new.nodes) }
    ensures limit { version.new.limit ≡ version.old.limit }
    ensures stamp { version.new.stamp ≡ version.old.stamp }
    ensures full { FullExactly result (commands.is_full K.cmp version.old.limit version.old.entries (commands.remove_if key.now value.now)) }
    ensures err { OnErr result (version.new ≡ version.old) }
{
    let path = key.path();
    remove_if_along(version, alloc, key, path, value)
}
