//! The work that is measured, each with its checksum.

ghost use Rattle.std.specs.Prelude.{◌≡◌, ◌≤◌, ◌<◌, ◌+◌, ◌*◌, ◌^◌, IfOk, length};

use bench_kit::Fault;
use generation::Source;
use hash_path::PathKey;
use map_view::View;
use slots::Slots;
use std::alloc::Global;
use stripes::Anything;
use trie_node::empty_root;
use versions::{MOST_PAIRS, Version};

/// A map of the benchmark.
pub type Map<K, S> = Version<K, i64, S>;

/// A view, as a map that threads share gives it.
pub type SharedView<K, S> = View<K, i64, Anything, S>;

/// The empty map, with a stamp of the source.
pub fn empty<K: PathKey, S: Slots<K, i64>>(
    alloc: Global,
    source: &mut Source,
) -> Result<Map<K, S>, Fault>
where
    S::Key: Drop,
    S::Value: Drop,
    requires { source.old < 2 ^ 63 }
    ensures issued { source.new ≡ source.old + 1 }
    ensures stamp { IfOk result (λ map. map.stamp ≤ source.new) }
{
    let stamp = source.next();
    let root = empty_root(alloc, stamp)?;
    Ok(Version::from_root(root, MOST_PAIRS, stamp))
}

/// Maps each key to its number, and returns the sum of the values before.
pub fn put_all<K: PathKey, S: Slots<K, i64>>(
    alloc: Global,
    map: &mut Map<K, S>,
    keys: &[S::Key],
) -> Result<i64, Fault>
where
    S::Key: Drop,
    S::Value: Drop,
    ensures { map.new.stamp ≡ map.old.stamp }
{
    let mut sum = 0i64;
    let mut number = 0i64;
    for key in keys {
        sum = sum.wrapping_add(put(alloc, map, key, number)?);
        number = number.wrapping_add(1);
    }
    Ok(sum)
}

/// Maps one key to the number, and returns its value before, 0 where it had none.
fn put<K: PathKey, S: Slots<K, i64>>(
    alloc: Global,
    map: &mut Map<K, S>,
    key: &S::Key,
    number: i64,
) -> Result<i64, Fault>
where
    S::Key: Drop,
    S::Value: Drop,
    ensures { map.new.stamp ≡ map.old.stamp }
{
    let own = S::another_key(key)?;
    let Ok(value) = S::new_value(alloc, number) else {
        drop(own);
        return Err(Fault::Memory);
    };
    let before = map.put(alloc, own, value)?;
    Ok(number_of::<K, S>(before))
}

/// The number that the value is, 0 where there is none.
fn number_of<K, S: Slots<K, i64>>(value: Option<S::Value>) -> i64
where
    S::Value: Drop,
{
    let Some(value) = value else {
        return 0;
    };
    let number = *S::lend_value(&value);
    drop(value);
    number
}

/// The sum of the values of the keys.
pub fn get_all<K: PathKey, S: Slots<K, i64>>(map: &Map<K, S>, keys: &[&K]) -> i64
where
    S::Key: Drop,
    S::Value: Drop,
{
    let mut sum = 0i64;
    for key in keys {
        if let Some(value) = map.get(*key) {
            sum = sum.wrapping_add(*S::lend_value(value));
        }
    }
    sum
}

/// Removes each key, and returns the sum of the values that were removed.
pub fn remove_all<K: PathKey, S: Slots<K, i64>>(
    alloc: Global,
    map: &mut Map<K, S>,
    keys: &[&K],
) -> Result<i64, Fault>
where
    S::Key: Drop,
    S::Value: Drop,
{
    let mut sum = 0i64;
    for key in keys {
        let before = map.remove(alloc, *key)?;
        sum = sum.wrapping_add(number_of::<K, S>(before));
    }
    Ok(sum)
}

/// Takes a snapshot and then puts a value, at each of the keys, and returns the sum of the values
/// that the snapshots have there.
pub fn snapshot_all<K: PathKey, S: Slots<K, i64>>(
    alloc: Global,
    map: &mut Map<K, S>,
    source: &mut Source,
    keys: &[S::Key],
) -> Result<i64, Fault>
where
    S::Key: Drop,
    S::Value: Drop,
    requires issued { map.old.stamp ≤ source.old }
    requires room { source.old + 2 * length keys.now ≤ 2 ^ 63 }
{
    let mut sum = 0i64;
    for key in keys {
        let snapshot = map.fork(source)?;
        let old = put_beside(alloc, map, &snapshot, key);
        drop(snapshot);
        sum = sum.wrapping_add(old?);
    }
    Ok(sum)
}

/// Puts a value, and returns the one that the snapshot has there.
fn put_beside<K: PathKey, S: Slots<K, i64>>(
    alloc: Global,
    map: &mut Map<K, S>,
    snapshot: &Map<K, S>,
    key: &S::Key,
) -> Result<i64, Fault>
where
    S::Key: Drop,
    S::Value: Drop,
    ensures { map.new.stamp ≡ map.old.stamp }
{
    put(alloc, map, key, 1)?;
    match snapshot.get(S::lend_key(key)) {
        Some(value) => Ok(*S::lend_value(value)),
        None => Ok(0),
    }
}

/// A view of the pairs of the map, with its nodes.
pub fn shared_view<K: PathKey, S: Slots<K, i64>>(
    alloc: Global,
    map: &Map<K, S>,
) -> Result<SharedView<K, S>, Fault>
where
    S::Key: Drop,
    S::Value: Drop,
{
    map.len();
    let root = map.root().try_clone()?;
    let twin = Version::from_root(root, map.limit(), map.stamp());
    Ok(View::of(alloc, twin)?)
}
