//! Commands on one map.
ghost use Rattle.std.specs.Prelude.{◌≡◌, IfErr, IfOk, OnErr, OnOk, false, true};
ghost use Rattle.held_maps.specs.Commands.{IsPathFor, command_of, lacks_memory, leaves_map, reply_of};
ghost use Rattle.versions.specs.Commands as commands;
ghost use Rattle.versions.specs.Commands.{after, is_full, is_full_for, needs_no_memory, reply};
ghost use Rattle.versions.specs.Map.{value_at};
ghost use Rattle.versions.specs.Puts.{FullExactly};

use crate::reply::Reply;
use hash_path::{Path, PathKey};
use map_ops::{
    put_along, put_if_absent_along, remove_along, remove_if_along, replace_along, replace_if_along,
};
use std::alloc::Global;
use std::sync::Arc;
use versions::{NoMemory, Refusal, Version};

/// A command on one map, with the meaning that Scala's `concurrent.Map` gives it.
///
/// <!-- quoted from crates/example_index/src/indexer.rt -->
/// ```rust
/// let put = Command::PutIfAbsent(word, Arc::new(alloc, document)?);
/// let reply = map.call(rt, seat, Call::On(INDEX, put))?;
/// ```
#[derive(Debug, Drop)]
pub enum Command<K, V> {
    /// Returns the value of the key.
    Get(Arc<K>),
    /// Maps the key to the value, and returns the value before.
    Put(Arc<K>, Arc<V>),
    /// Maps the key to the value where the key is absent, and returns the value before.
    PutIfAbsent(Arc<K>, Arc<V>),
    /// Maps the key to the value where the key is present, and returns the value before.
    Replace(Arc<K>, Arc<V>),
    /// Maps the key to the second value where it is mapped to one equal to the first, and returns whether it was.
    ReplaceIf(Arc<K>, Arc<V>, Arc<V>),
    /// Removes the key, and returns the value before.
    Remove(Arc<K>),
    /// Removes the key where it is mapped to a value equal to this one, and returns whether it was.
    RemoveIf(Arc<K>, Arc<V>),
    /// Returns the number of pairs.
    Size,
    /// Removes all pairs.
    Clear,
}

impl<K: PathKey + Drop, V: Eq + Drop> Command<K, V> {
    /// The path word of the key that the command names, which is hashed here; of a command that names none, some word.
    ///
    /// Cost: O(length of the key), no lock. Refused: never.
    pub fn path(&self) -> Path
        ensures { IsPathFor K.path_of (command_of self.now) result.0 }
    {
        match self {
            Command::Get(key)
            | Command::Put(key, _)
            | Command::PutIfAbsent(key, _)
            | Command::Replace(key, _)
            | Command::ReplaceIf(key, _, _)
            | Command::Remove(key)
            | Command::RemoveIf(key, _) => key.path(),
            Command::Size | Command::Clear => Path(0),
        }
    }

    /// Makes the command, whose key has this path word, on a map.
    ///
    /// It is refused as `Full` where it would put a new key into a map that holds as many pairs as it may, and as
    /// `NoMemory`. The map is then as before.
    pub(crate) fn run_on(
        self,
        alloc: Global,
        path: Path,
        version: &mut Version<K, V>,
    ) -> Result<Reply<V>, Refusal>
        requires path { IsPathFor K.path_of (command_of self) path.0 }
        ensures reply { IfOk result (λ y. reply_of y ≡ reply K.cmp V.eq version.old.entries (command_of self)) }
        ensures map { OnOk result (version.new.entries ≡ after K.cmp V.eq version.old.entries (command_of self)) }
        ensures limit { version.new.limit ≡ version.old.limit }
        ensures stamp { version.new.stamp ≡ version.old.stamp }
        ensures full { FullExactly result (is_full K.cmp version.old.limit version.old.entries (command_of self)) }
        ensures memory { needs_no_memory (command_of self) ≡ true → lacks_memory result ≡ false }
        ensures err { OnErr result (version.new ≡ version.old) }
    {
        match self {
            Command::Get(key) => {
                let reply = get_from(version, &key, path);
                drop(key);
                reply
            }
            Command::Put(key, value) => {
                let old = put_along(version, alloc, key, path, value)?;
                Ok(Reply::Old(old))
            }
            Command::PutIfAbsent(key, value) => {
                let old = put_if_absent_along(version, alloc, key, path, value)?;
                Ok(Reply::Old(old))
            }
            Command::Replace(key, value) => {
                let old = replace_along(version, alloc, key, path, value)?;
                Ok(Reply::Old(old))
            }
            Command::ReplaceIf(key, old, value) => {
                let done = replace_if_along(version, alloc, key, path, &old, value);
                drop(old);
                match done {
                    Ok(done) => Ok(Reply::Done(done)),
                    Err(refusal) => Err(refusal),
                }
            }
            Command::Remove(key) => {
                let old = remove_along(version, alloc, &key, path);
                drop(key);
                match old {
                    Ok(old) => Ok(Reply::Old(old)),
                    Err(refusal) => Err(refusal),
                }
            }
            Command::RemoveIf(key, value) => {
                let done = remove_if_along(version, alloc, &key, path, &value);
                drop(key);
                drop(value);
                match done {
                    Ok(done) => Ok(Reply::Done(done)),
                    Err(refusal) => Err(refusal),
                }
            }
            Command::Size => Ok(Reply::Size(version.len())),
            Command::Clear => {
                version.clear(alloc)?;
                Ok(Reply::Cleared)
            }
        }
    }

    /// What the command, whose key has this path word, would return on a map, were there memory for what it writes. The
    /// key is looked up once, and no request for memory is made.
    ///
    /// Cost: O(log n), no lock. Refused: `Full`, where the command would put a new key into a map that holds as many
    /// pairs as it may; `NoMemory`, where the clone of a value's handle is refused.
    pub fn foresee_on(&self, path: Path, version: &Version<K, V>) -> Result<Reply<V>, Refusal>
        requires path { IsPathFor K.path_of (command_of self.now) path.0 }
        ensures reply { IfOk result (λ y. reply_of y ≡ reply K.cmp V.eq version.now.entries (command_of self.now)) }
        ensures full { FullExactly result (is_full K.cmp version.now.limit version.now.entries (command_of self.now)) }
        ensures memory { needs_no_memory (command_of self.now) ≡ true → lacks_memory result ≡ false }
    {
        match self {
            Command::Put(key, _) | Command::PutIfAbsent(key, _) => put_in(version, key, path),
            Command::Get(key) | Command::Replace(key, _) | Command::Remove(key) => {
                get_from(version, key, path)
            }
            Command::ReplaceIf(key, value, _) | Command::RemoveIf(key, value) => {
                Ok(Reply::Done(match version.get_along(key, path) {
                    Some(found) => **found == **value,
                    None => false,
                }))
            }
            Command::Size => Ok(Reply::Size(version.len())),
            Command::Clear => Ok(Reply::Cleared),
        }
    }

    /// Whether the command, where it replies so, leaves the map as it was: it reads alone, what it was to write hung on
    /// a condition that did not hold, or the key that it was to remove was absent.
    ///
    /// Cost: O(1), no lock. Refused: never.
    pub fn leaves_map(&self, reply: &Reply<V>) -> bool
        ensures { result ≡ leaves_map (command_of self.now) (reply_of reply.now) }
    {
        match self {
            Command::Get(_) | Command::Size => true,
            Command::PutIfAbsent(_, _) => matches!(reply, Reply::Old(Some(_))),
            Command::Replace(_, _) | Command::Remove(_) => matches!(reply, Reply::Old(None)),
            Command::ReplaceIf(_, _, _) | Command::RemoveIf(_, _) => {
                matches!(reply, Reply::Done(false))
            }
            Command::Put(_, _) | Command::Clear => false,
        }
    }
}

impl<K: Drop, V: Drop> Command<K, V> {
    /// The same command, with the same key and values.
    ///
    /// Cost: O(1), no lock. Refused: `NoMemory`, where a handle cannot be cloned.
    pub fn try_clone(&self) -> Result<Command<K, V>, NoMemory>
        ensures { IfOk result (λ copy. command_of copy ≡ command_of self.now) }
    {
        Ok(match self {
            Command::Get(key) => Command::Get(Arc::try_clone(key)?),
            Command::Put(key, value) => {
                let (key, value) = both_of(key, value)?;
                Command::Put(key, value)
            }
            Command::PutIfAbsent(key, value) => {
                let (key, value) = both_of(key, value)?;
                Command::PutIfAbsent(key, value)
            }
            Command::Replace(key, value) => {
                let (key, value) = both_of(key, value)?;
                Command::Replace(key, value)
            }
            Command::ReplaceIf(key, old, value) => {
                let (key, old, value) = all_of(key, old, value)?;
                Command::ReplaceIf(key, old, value)
            }
            Command::Remove(key) => Command::Remove(Arc::try_clone(key)?),
            Command::RemoveIf(key, value) => {
                let (key, value) = both_of(key, value)?;
                Command::RemoveIf(key, value)
            }
            Command::Size => Command::Size,
            Command::Clear => Command::Clear,
        })
    }
}

// The reply to a get of the key, which has this path word.
fn get_from<K: PathKey + Drop, V: Eq + Drop>(
    version: &Version<K, V>,
    key: &K,
    path: Path,
) -> Result<Reply<V>, Refusal>
    requires path { path.0 ≡ K.path_of key.now }
    ensures reply { IfOk result (λ y. reply_of y ≡ commands.old (value_at K.cmp version.now.entries key.now)) }
    ensures memory { IfErr result (λ e. e ≡ Refusal.NoMemory) }
{
    let found = match version.get_along(key, path) {
        Some(value) => Some(Arc::try_clone(value)?),
        None => None,
    };
    Ok(Reply::Old(found))
}

// The reply to a put of the key, which has this path word, whether or not it is to write where the key is present.
fn put_in<K: PathKey + Drop, V: Eq + Drop>(
    version: &Version<K, V>,
    key: &K,
    path: Path,
) -> Result<Reply<V>, Refusal>
    requires path { path.0 ≡ K.path_of key.now }
    ensures reply { IfOk result (λ y. reply_of y ≡ commands.old (value_at K.cmp version.now.entries key.now)) }
    ensures full { FullExactly result (is_full_for K.cmp version.now.limit version.now.entries key.now) }
{
    match version.get_along(key, path) {
        Some(value) => Ok(Reply::Old(Some(Arc::try_clone(value)?))),
        None => {
            if version.len() == version.limit() {
                Err(Refusal::Full)
            } else {
                Ok(Reply::Old(None))
            }
        }
    }
}

// The same key and value.
fn both_of<K: Drop, V: Drop>(key: &Arc<K>, value: &Arc<V>) -> Result<(Arc<K>, Arc<V>), NoMemory>
    ensures key { IfOk result (λ both. both.0.value ≡ key.now.value) }
    ensures value { IfOk result (λ both. both.1.value ≡ value.now.value) }
{
    let key = Arc::try_clone(key)?;
    match Arc::try_clone(value) {
        Ok(value) => Ok((key, value)),
        Err(_) => {
            drop(key);
            Err(NoMemory)
        }
    }
}

// The same key and values.
fn all_of<K: Drop, V: Drop>(
    key: &Arc<K>,
    old: &Arc<V>,
    value: &Arc<V>,
) -> Result<(Arc<K>, Arc<V>, Arc<V>), NoMemory>
    ensures key { IfOk result (λ all. all.0.value ≡ key.now.value) }
    ensures old { IfOk result (λ all. all.1.value ≡ old.now.value) }
    ensures value { IfOk result (λ all. all.2.value ≡ value.now.value) }
{
    let (key, old) = both_of(key, old)?;
    match Arc::try_clone(value) {
        Ok(value) => Ok((key, old, value)),
        Err(_) => {
            drop(key);
            drop(old);
            Err(NoMemory)
        }
    }
}
