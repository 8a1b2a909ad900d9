//! Operations where the caller has the key's path word already.
ghost use Rattle.std.specs.Prelude.{◌≡◌, option_map, IfOk, OnErr, OnOk};
ghost use Rattle.std.specs.Arc.{arc_value};
ghost use Rattle.map_ops.specs.Writes.{writes};
ghost use Rattle.trie_shape.specs.Roots.{word_of};
ghost use Rattle.trie_shape.specs.Shape.{Restamps};
ghost use Rattle.versions.specs.Changes.{RestampsIf};
ghost use Rattle.versions.specs.Commands as commands;
ghost use Rattle.versions.specs.Puts.{FullExactly};

use hash_path::{Path, PathKey};
use std::alloc::Global;
use std::sync::Arc;
use trie_node::{Always, IfAbsent, IfEqual, IfPresent};
use versions::{Refusal, Version};

/// `put`, where the caller has the key's path word already: the key is not hashed again.
pub fn put_along<K: PathKey + Drop, V: Eq + Drop>(
    version: &mut Version<K, V>,
    alloc: Global,
    key: Arc<K>,
    path: Path,
    value: Arc<V>,
) -> Result<Option<Arc<V>>, Refusal>
    requires path { path.0 ≡ K.path_of key.value }
    ensures reply { IfOk result (λ before. commands.old (option_map arc_value before) ≡ commands.reply K.cmp V.eq version.old.entries (commands.put key.value value.value)) }
    ensures map { OnOk result (version.new.entries ≡ commands.after K.cmp V.eq version.old.entries (commands.put key.value value.value)) }
    ensures nodes { OnOk result (Restamps version.old.stamp (word_of K.path_of key.value) version.old.nodes version.new.nodes) }
    ensures limit { version.new.limit ≡ version.old.limit }
    ensures stamp { version.new.stamp ≡ version.old.stamp }
    ensures full { FullExactly result (commands.is_full K.cmp version.old.limit version.old.entries (commands.put key.value value.value)) }
    ensures err { OnErr result (version.new ≡ version.old) }
{
    let change = version.put_where_along(alloc, key, path, value, &Always)?;
    Ok(change.previous)
}

/// `put_if_absent`, where the caller has the key's path word already: the key is not hashed again.
pub fn put_if_absent_along<K: PathKey + Drop, V: Eq + Drop>(
    version: &mut Version<K, V>,
    alloc: Global,
    key: Arc<K>,
    path: Path,
    value: Arc<V>,
) -> Result<Option<Arc<V>>, Refusal>
    requires path { path.0 ≡ K.path_of key.value }
    ensures reply { IfOk result (λ before. commands.old (option_map arc_value before) ≡ commands.reply K.cmp V.eq version.old.entries (commands.put_if_absent key.value value.value)) }
    ensures map { OnOk result (version.new.entries ≡ commands.after K.cmp V.eq version.old.entries (commands.put_if_absent key.value value.value)) }
    ensures nodes { OnOk result (RestampsIf (writes K.cmp V.eq version.old.entries (commands.put_if_absent key.value value.value)) version.old.stamp (word_of K.path_of key.value) version.old.nodes version.new.nodes) }
    ensures limit { version.new.limit ≡ version.old.limit }
    ensures stamp { version.new.stamp ≡ version.old.stamp }
    ensures full { FullExactly result (commands.is_full K.cmp version.old.limit version.old.entries (commands.put_if_absent key.value value.value)) }
    ensures err { OnErr result (version.new ≡ version.old) }
{
    let change = version.put_where_along(alloc, key, path, value, &IfAbsent)?;
    Ok(change.previous)
}

/// `replace`, where the caller has the key's path word already: the key is not hashed again.
pub fn replace_along<K: PathKey + Drop, V: Eq + Drop>(
    version: &mut Version<K, V>,
    alloc: Global,
    key: Arc<K>,
    path: Path,
    value: Arc<V>,
) -> Result<Option<Arc<V>>, Refusal>
    requires path { path.0 ≡ K.path_of key.value }
    ensures reply { IfOk result (λ before. commands.old (option_map arc_value before) ≡ commands.reply K.cmp V.eq version.old.entries (commands.replace key.value value.value)) }
    ensures map { OnOk result (version.new.entries ≡ commands.after K.cmp V.eq version.old.entries (commands.replace key.value value.value)) }
    ensures nodes { OnOk result (RestampsIf (writes K.cmp V.eq version.old.entries (commands.replace key.value value.value)) version.old.stamp (word_of K.path_of key.value) version.old.nodes version.new.nodes) }
    ensures limit { version.new.limit ≡ version.old.limit }
    ensures stamp { version.new.stamp ≡ version.old.stamp }
    ensures full { FullExactly result (commands.is_full K.cmp version.old.limit version.old.entries (commands.replace key.value value.value)) }
    ensures err { OnErr result (version.new ≡ version.old) }
{
    let change = version.put_where_along(alloc, key, path, value, &IfPresent)?;
    Ok(change.previous)
}

/// `replace_if`, where the caller has the key's path word already: the key is not hashed again.
pub fn replace_if_along<K: PathKey + Drop, V: Eq + Drop>(
    version: &mut Version<K, V>,
    alloc: Global,
    key: Arc<K>,
    path: Path,
    old: &V,
    value: Arc<V>,
) -> Result<bool, Refusal>
    requires path { path.0 ≡ K.path_of key.value }
    ensures reply { IfOk result (λ done. commands.done done ≡ commands.reply K.cmp V.eq version.old.entries (commands.replace_if key.value old.now value.value)) }
    ensures map { OnOk result (version.new.entries ≡ commands.after K.cmp V.eq version.old.entries (commands.replace_if key.value old.now value.value)) }
    ensures nodes { OnOk result (RestampsIf (writes K.cmp V.eq version.old.entries (commands.replace_if key.value old.now value.value)) version.old.stamp (word_of K.path_of key.value) version.old.nodes version.new.nodes) }
    ensures limit { version.new.limit ≡ version.old.limit }
    ensures stamp { version.new.stamp ≡ version.old.stamp }
    ensures full { FullExactly result (commands.is_full K.cmp version.old.limit version.old.entries (commands.replace_if key.value old.now value.value)) }
    ensures err { OnErr result (version.new ≡ version.old) }
{
    let change = version.put_where_along(alloc, key, path, value, &IfEqual(old))?;
    Ok(change.written)
}

/// `remove`, where the caller has the key's path word already: the key is not hashed again.
pub fn remove_along<K: PathKey + Drop, V: Eq + Drop>(
    version: &mut Version<K, V>,
    alloc: Global,
    key: &K,
    path: Path,
) -> Result<Option<Arc<V>>, Refusal>
    requires path { path.0 ≡ K.path_of key.now }
    ensures reply { IfOk result (λ before. commands.old (option_map arc_value before) ≡ commands.reply K.cmp V.eq version.old.entries (commands.remove key.now)) }
    ensures map { OnOk result (version.new.entries ≡ commands.after K.cmp V.eq version.old.entries (commands.remove key.now)) }
    ensures nodes { OnOk result (RestampsIf (writes K.cmp V.eq version.old.entries (commands.remove key.now)) version.old.stamp (word_of K.path_of key.now) version.old.nodes version.new.nodes) }
    ensures limit { version.new.limit ≡ version.old.limit }
    ensures stamp { version.new.stamp ≡ version.old.stamp }
    ensures full { FullExactly result (commands.is_full K.cmp version.old.limit version.old.entries (commands.remove key.now)) }
    ensures err { OnErr result (version.new ≡ version.old) }
{
    Ok(version.remove_along(alloc, key, path)?)
}

/// `remove_if`, where the caller has the key's path word already: the key is not hashed again.
pub fn remove_if_along<K: PathKey + Drop, V: Eq + Drop>(
    version: &mut Version<K, V>,
    alloc: Global,
    key: &K,
    path: Path,
    value: &V,
) -> Result<bool, Refusal>
    requires path { path.0 ≡ K.path_of key.now }
    ensures reply { IfOk result (λ done. commands.done done ≡ commands.reply K.cmp V.eq version.old.entries (commands.remove_if key.now value.now)) }
    ensures map { OnOk result (version.new.entries ≡ commands.after K.cmp V.eq version.old.entries (commands.remove_if key.now value.now)) }
    ensures nodes { OnOk result (RestampsIf (writes K.cmp V.eq version.old.entries (commands.remove_if key.now value.now)) version.old.stamp (word_of K.path_of key.now) version.old.nodes version.new.nodes) }
    ensures limit { version.new.limit ≡ version.old.limit }
    ensures stamp { version.new.stamp ≡ version.old.stamp }
    ensures full { FullExactly result (commands.is_full K.cmp version.old.limit version.old.entries (commands.remove_if key.now value.now)) }
    ensures err { OnErr result (version.new ≡ version.old) }
{
    let change = version.remove_where_along(alloc, key, path, &IfEqual(value))?;
    Ok(change.written)
}
