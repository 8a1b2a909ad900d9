//! The commands on a map, whatever its values are.

ghost use Rattle.std.specs.Prelude.{◌≡◌};
ghost use Rattle.c_map.specs.Outcomes.{outcome, Done, Does};
ghost use Rattle.versions.specs.Commands as commands;

use crate::answer::Answer;
use crate::map::Map;
use crate::shown::Shown;
use std::alloc::Global;
use trie_node::{Always, IfAbsent, IfEqual, IfPresent};
use versions::Refusal;

/// What is shown of the key's value.
pub(crate) fn get<V: Shown>(map: &Map<V>, key: &[u8]) -> Answer
    ensures { Done V.number V.eq map.now (commands.get key.now) (outcome result.status result.value) map.now }
{
    match map.get(key) {
        None => Answer::found(None),
        Some(value) => Answer::found(Some(value.number())),
    }
}

/// Maps the key to the value.
pub(crate) fn put<V: Shown>(map: &mut Map<V>, alloc: Global, key: &[u8], value: V) -> Answer
    ensures { Does V.number V.eq map.old (commands.put key.now value) (outcome result.status result.value) map.new }
{
    match map.put_where(alloc, key, value, &Always, true) {
        Ok(write) => Answer::found(write.before),
        Err(Refusal::Full) => Answer::full(),
        Err(_) => Answer::no_memory(),
    }
}

/// Maps the key to the value where the key is absent.
pub(crate) fn put_if_absent<V: Shown>(
    map: &mut Map<V>,
    alloc: Global,
    key: &[u8],
    value: V,
) -> Answer
    ensures { Does V.number V.eq map.old (commands.put_if_absent key.now value) (outcome result.status result.value) map.new }
{
    match map.put_where(alloc, key, value, &IfAbsent, true) {
        Ok(write) => Answer::found(write.before),
        Err(Refusal::Full) => Answer::full(),
        Err(_) => Answer::no_memory(),
    }
}

/// Maps the key to the value where the key is present.
pub(crate) fn replace<V: Shown>(map: &mut Map<V>, alloc: Global, key: &[u8], value: V) -> Answer
    ensures { Does V.number V.eq map.old (commands.replace key.now value) (outcome result.status result.value) map.new }
{
    match map.put_where(alloc, key, value, &IfPresent, false) {
        Ok(write) => Answer::found(write.before),
        Err(_) => Answer::no_memory(),
    }
}

/// Maps the key to the value where it is mapped to a value equal to `old`.
pub(crate) fn replace_if<V: Shown>(
    map: &mut Map<V>,
    alloc: Global,
    key: &[u8],
    old: &V,
    value: V,
) -> Answer
    ensures { Does V.number V.eq map.old (commands.replace_if key.now old.now value) (outcome result.status result.value) map.new }
{
    match map.put_where(alloc, key, value, &IfEqual(old), false) {
        Ok(write) => Answer::done(write.written),
        Err(_) => Answer::no_memory(),
    }
}

/// Removes the key.
pub(crate) fn remove<V: Shown>(map: &mut Map<V>, alloc: Global, key: &[u8]) -> Answer
    ensures { Does V.number V.eq map.old (commands.remove key.now) (outcome result.status result.value) map.new }
{
    match map.remove(alloc, key) {
        Ok(before) => Answer::found(before),
        Err(_) => Answer::no_memory(),
    }
}

/// Removes the key where it is mapped to a value equal to this one.
pub(crate) fn remove_if<V: Shown>(map: &mut Map<V>, alloc: Global, key: &[u8], value: &V) -> Answer
    ensures { Does V.number V.eq map.old (commands.remove_if key.now value.now) (outcome result.status result.value) map.new }
{
    match map.remove_if(alloc, key, value) {
        Ok(done) => Answer::done(done),
        Err(_) => Answer::no_memory(),
    }
}
