//! Operations that map a key to a value.
ghost use Rattle.std.specs.Prelude.{◌≡◌, option_map, IfOk, OnErr, OnOk};
ghost use Rattle.std.specs.Arc.{arc_value};
ghost use Rattle.map_ops.specs.Writes.{writes};
ghost use Rattle.trie_shape.specs.Roots.{word_of};
ghost use Rattle.trie_shape.specs.Shape.{Restamps};
ghost use Rattle.versions.specs.Changes.{RestampsIf};
ghost use Rattle.versions.specs.Commands as commands;
ghost use Rattle.versions.specs.Puts.{FullExactly};

use crate::along::{put_along, put_if_absent_along, replace_along, replace_if_along};
use hash_path::PathKey;
use std::alloc::Global;
use std::sync::Arc;
use versions::{Refusal, Version};

/// Maps the key to the value, and returns the value before, or none.
///
/// The error is `Full` where the key is new and there are as many pairs as there may be, and `NoMemory` if memory runs
/// out. The map is then as before.
pub fn put<K: PathKey + Drop, V: Eq + Drop>(
    version: &mut Version<K, V>,
    alloc: Global,
    key: Arc<K>,
    value: Arc<V>,
) -> Result<Option<Arc<V>>, Refusal>
    ensures reply { IfOk result (λ before. commands.old (option_map arc_value before) ≡ commands.reply K.cmp V.eq version.old.entries (commands.put key.value value.value)) }
    ensures map { OnOk result (version.new.entries ≡ commands.after K.cmp V.eq version.old.entries (commands.put key.value value.value)) }
    ensures nodes { OnOk result (Restamps version.old.stamp (word_of K.path_of key.value) version.old.nodes version.new.nodes) }
    ensures limit { version.new.limit ≡ version.old.limit }
    ensures stamp { version.new.stamp ≡ version.old.stamp }
    ensures full { FullExactly result (commands.is_full K.cmp version.old.limit version.old.entries (commands.put key.value value.value)) }
    ensures err { OnErr result (version.new ≡ version.old) }
{
    let path = key.path();
    put_along(version, alloc, key, path, value)
}

/// Maps the key to the value where the key is absent, and returns the value before, or none.
///
/// The error is `Full` where the key is new and there are as many pairs as there may be, and `NoMemory` if memory runs
/// out. The map is then as before.
pub fn put_if_absent<K: PathKey + Drop, V: Eq + Drop>(
    version: &mut Version<K, V>,
    alloc: Global,
    key: Arc<K>,
    value: Arc<V>,
) -> Result<Option<Arc<V>>, Refusal>
    ensures reply { IfOk result (λ before. commands.old (option_map arc_value before) ≡ commands.reply K.cmp V.eq version.old.entries (commands.put_if_absent key.value value.value)) }
    ensures map { OnOk result (version.new.entries ≡ commands.after K.cmp V.eq version.old.entries (commands.put_if_absent key.value value.value)) }
    ensures nodes { OnOk result (RestampsIf (writes K.cmp V.eq version.old.entries (commands.put_if_absent key.value value.value)) version.old.stamp (word_of K.path_of key.value) version.old.nodes version.new.nodes) }
    ensures limit { version.new.limit ≡ version.old.limit }
    ensures stamp { version.new.stamp ≡ version.old.stamp }
    ensures full { FullExactly result (commands.is_full K.cmp version.old.limit version.old.entries (commands.put_if_absent key.value value.value)) }
    ensures err { OnErr result (version.new ≡ version.old) }
{
    let path = key.path();
    put_if_absent_along(version, alloc, key, path, value)
}

/// Maps the key to the value where the key is present, and returns the value before, or none.
///
/// The only error is `NoMemory`, if memory runs out. The map is then as before.
pub fn replace<K: PathKey + Drop, V: Eq + Drop>(
    version: &mut Version<K, V>,
    alloc: Global,
    key: Arc<K>,
    value: Arc<V>,
) -> Result<Option<Arc<V>>, Refusal>
    ensures reply { IfOk result (λ before. commands.old (option_map arc_value before) ≡ commands.reply K.cmp V.eq version.old.entries (commands.replace key.value value.value)) }
    ensures map { OnOk result (version.new.entries ≡ commands.after K.cmp V.eq version.old.entries (commands.replace key.value value.value)) }
    ensures nodes { OnOk result (RestampsIf (writes K.cmp V.eq version.old.entries (commands.replace key.value value.value)) version.old.stamp (word_of K.path_of key.value) version.old.nodes version.new.nodes) }
    ensures limit { version.new.limit ≡ version.old.limit }
    ensures stamp { version.new.stamp ≡ version.old.stamp }
    ensures full { FullExactly result (commands.is_full K.cmp version.old.limit version.old.entries (commands.replace key.value value.value)) }
    ensures err { OnErr result (version.new ≡ version.old) }
{
    let path = key.path();
    replace_along(version, alloc, key, path, value)
}

/// Maps the key to the value where it is mapped to a value equal to `old`, and returns whether it was.
///
/// The only error is `NoMemory`, if memory runs out. The map is then as before.
pub fn replace_if<K: PathKey + Drop, V: Eq + Drop>(
    version: &mut Version<K, V>,
    alloc: Global,
    key: Arc<K>,
    old: &V,
    value: Arc<V>,
) -> Result<bool, Refusal>
    ensures reply { IfOk result (λ done. commands.done done ≡ commands.reply K.cmp V.eq version.old.entries (commands.replace_if key.value old.now value.value)) }
    ensures map { OnOk result (version.new.entries ≡ commands.after K.cmp V.eq version.old.entries (commands.replace_if key.value old.now value.value)) }
    ensures nodes { OnOk result (RestampsIf (writes K.cmp V.eq version.old.entries (commands.replace_if key.value old.now value.value)) version.old.stamp (word_of K.path_of key.value) version.old.nodes version.new.nodes) }
    ensures limit { version.new.limit ≡ version.old.limit }
    ensures stamp { version.new.stamp ≡ version.old.stamp }
    ensures full { FullExactly result (commands.is_full K.cmp version.old.limit version.old.entries (commands.replace_if key.value old.now value.value)) }
    ensures err { OnErr result (version.new ≡ version.old) }
{
    let path = key.path();
    replace_if_along(version, alloc, key, path, old, value)
}
