//! Roots that are written where they stand.

ghost use Rattle.std.specs.Prelude.{◌≡◌, ◌<◌, ◌^◌, option_map, length, IfOk, OnOk, OnErr, None, is_some, true, false, ◌||◌, ◌&&◌};
ghost use Rattle.trie_shape.specs.Map.{value_at, without};
ghost use Rattle.trie_shape.specs.Roots.{IsRoot, map_of, word_of};
ghost use Rattle.trie_shape.specs.Shape.{nodes, Restamps};
ghost use Rattle.trie_shape.specs.View.{tree};
ghost use Rattle.trie_copy.specs.Changes.{IsPut, IsRemoval};

use hash_path::{Path, PathKey, Sought};
use slots::{Pair, Slots};
use std::alloc::Global;
use trie_copy::NewPair;
use trie_puts::{Change, put_in_at};
use trie_removals::{RemovedIn, remove_in_at};
use trie_shape::{Always, Condition, NoMemory, Node, Stamp};

/// Puts the value at the key, where the condition holds of the value that the key has. The root is
/// written where it stands as far as nobody else holds the nodes of the key's way. Where memory runs out
/// it is as before.
pub fn put_in_where<K: PathKey, V, S: Slots<K, V>, C: Condition<V>>(
    alloc: Global,
    node: &mut Node<K, V, S>,
    key: S::Key,
    value: S::Value,
    stamp: Stamp,
    condition: &C,
) -> Result<Change<V, S>, NoMemory>
where
    S::Key: Drop,
    S::Value: Drop,
    requires root { IsRoot K.cmp K.path_of (tree node.old) }
    requires room { length (map_of K.cmp (tree node.old)) < 2 ^ 63 }
    ensures previous { IfOk result (λ d. option_map S.value_of d.previous ≡ value_at K.cmp (map_of K.cmp (tree node.old)) (S.key_of key)) }
    ensures written { IfOk result (λ d. d.written ≡ C.holds condition.now (value_at K.cmp (map_of K.cmp (tree node.old)) (S.key_of key))) }
    ensures put { IfOk result (λ d. d.written ≡ true → IsPut K.cmp K.path_of stamp.0 (S.key_of key) (S.value_of value) (tree node.old) (tree node.new)) }
    ensures kept { IfOk result (λ d. d.written ≡ false → tree node.new ≡ tree node.old) }
    // An error comes only where the condition holds, or where the key is there and its value is to be handed out.
    ensures due { OnErr result ((C.holds condition.now (value_at K.cmp (map_of K.cmp (tree node.old)) (S.key_of key)) || is_some (value_at K.cmp (map_of K.cmp (tree node.old)) (S.key_of key))) ≡ true) }
    ensures err { OnErr result (tree node.new ≡ tree node.old) }
{
    let path = S::lend_key(&key).path();
    put_in_where_along(alloc, node, key, path, value, stamp, condition)
}

/// `put_in_where`, where the caller has the key's path word already: the key is not hashed again.
pub fn put_in_where_along<K: PathKey, V, S: Slots<K, V>, C: Condition<V>>(
    alloc: Global,
    node: &mut Node<K, V, S>,
    key: S::Key,
    path: Path,
    value: S::Value,
    stamp: Stamp,
    condition: &C,
) -> Result<Change<V, S>, NoMemory>
where
    S::Key: Drop,
    S::Value: Drop,
    requires root { IsRoot K.cmp K.path_of (tree node.old) }
    requires room { length (map_of K.cmp (tree node.old)) < 2 ^ 63 }
    requires path { path.0 ≡ K.path_of (S.key_of key) }
    ensures previous { IfOk result (λ d. option_map S.value_of d.previous ≡ value_at K.cmp (map_of K.cmp (tree node.old)) (S.key_of key)) }
    ensures written { IfOk result (λ d. d.written ≡ C.holds condition.now (value_at K.cmp (map_of K.cmp (tree node.old)) (S.key_of key))) }
    ensures put { IfOk result (λ d. d.written ≡ true → IsPut K.cmp K.path_of stamp.0 (S.key_of key) (S.value_of value) (tree node.old) (tree node.new)) }
    ensures kept { IfOk result (λ d. d.written ≡ false → tree node.new ≡ tree node.old) }
    // An error comes only where the condition holds, or where the key is there and its value is to be handed out.
    ensures due { OnErr result ((C.holds condition.now (value_at K.cmp (map_of K.cmp (tree node.old)) (S.key_of key)) || is_some (value_at K.cmp (map_of K.cmp (tree node.old)) (S.key_of key))) ≡ true) }
    ensures err { OnErr result (tree node.new ≡ tree node.old) }
{
    let pair: Pair<K, V, S> = Pair::new(key, value);
    let entry = NewPair { pair, path, stamp };
    put_in_at(alloc, node, entry, 0, condition)
}

/// Puts the value at the key. The root is written where it stands as far as nobody else holds the
/// nodes of the key's way. Where memory runs out it is as before.
pub fn put_in<K: PathKey, V, S: Slots<K, V>>(
    alloc: Global,
    node: &mut Node<K, V, S>,
    key: S::Key,
    value: S::Value,
    stamp: Stamp,
) -> Result<(), NoMemory>
where
    S::Key: Drop,
    S::Value: Drop,
    requires root { IsRoot K.cmp K.path_of (tree node.old) }
    requires room { length (map_of K.cmp (tree node.old)) < 2 ^ 63 }
    ensures put { OnOk result (IsPut K.cmp K.path_of stamp.0 (S.key_of key) (S.value_of value) (tree node.old) (tree node.new)) }
    ensures err { OnErr result (tree node.new ≡ tree node.old) }
{
    put_in_where(alloc, node, key, value, stamp, &Always)?;
    Ok(())
}

/// Removes the key, where it is there and the condition holds of its value. The root is written
/// where it stands as far as nobody else holds the nodes of the key's way. Where memory runs out it
/// is as before.
pub fn remove_in_where<K: PathKey, V, S: Slots<K, V>, Q: Sought<K>, C: Condition<V>>(
    alloc: Global,
    node: &mut Node<K, V, S>,
    key: Q,
    stamp: Stamp,
    condition: &C,
) -> Result<Change<V, S>, NoMemory>
where
    S::Key: Drop,
    S::Value: Drop,
    requires root { IsRoot K.cmp K.path_of (tree node.old) }
    ensures previous { IfOk result (λ d. option_map S.value_of d.previous ≡ value_at K.cmp (map_of K.cmp (tree node.old)) (Q.key_of key)) }
    ensures written { IfOk result (λ d. d.written ≡ (is_some (value_at K.cmp (map_of K.cmp (tree node.old)) (Q.key_of key)) && C.holds condition.now (value_at K.cmp (map_of K.cmp (tree node.old)) (Q.key_of key)))) }
    ensures removed { IfOk result (λ d. d.written ≡ true → IsRemoval K.cmp K.path_of stamp.0 (Q.key_of key) (tree node.old) (tree node.new)) }
    ensures kept { IfOk result (λ d. d.written ≡ false → tree node.new ≡ tree node.old) }
    // An error comes only where the key is there, and its value is to be handed out.
    ensures due { OnErr result (is_some (value_at K.cmp (map_of K.cmp (tree node.old)) (Q.key_of key)) ≡ true) }
    ensures err { OnErr result (tree node.new ≡ tree node.old) }
{
    remove_in_where_along(alloc, node, key, key.path_sought(), stamp, condition)
}

/// `remove_in_where`, where the caller has the key's path word already: the key is not hashed again.
pub fn remove_in_where_along<K: PathKey, V, S: Slots<K, V>, Q: Sought<K>, C: Condition<V>>(
    alloc: Global,
    node: &mut Node<K, V, S>,
    key: Q,
    path: Path,
    stamp: Stamp,
    condition: &C,
) -> Result<Change<V, S>, NoMemory>
where
    S::Key: Drop,
    S::Value: Drop,
    requires root { IsRoot K.cmp K.path_of (tree node.old) }
    requires path { path.0 ≡ K.path_of (Q.key_of key) }
    ensures previous { IfOk result (λ d. option_map S.value_of d.previous ≡ value_at K.cmp (map_of K.cmp (tree node.old)) (Q.key_of key)) }
    ensures written { IfOk result (λ d. d.written ≡ (is_some (value_at K.cmp (map_of K.cmp (tree node.old)) (Q.key_of key)) && C.holds condition.now (value_at K.cmp (map_of K.cmp (tree node.old)) (Q.key_of key)))) }
    ensures removed { IfOk result (λ d. d.written ≡ true → IsRemoval K.cmp K.path_of stamp.0 (Q.key_of key) (tree node.old) (tree node.new)) }
    ensures kept { IfOk result (λ d. d.written ≡ false → tree node.new ≡ tree node.old) }
    // An error comes only where the key is there, and its value is to be handed out.
    ensures due { OnErr result (is_some (value_at K.cmp (map_of K.cmp (tree node.old)) (Q.key_of key)) ≡ true) }
    ensures err { OnErr result (tree node.new ≡ tree node.old) }
{
    match remove_in_at(alloc, node, key, path, stamp, 0, condition)? {
        RemovedIn::Nothing(previous) => Ok(Change {
            previous,
            written: false,
        }),
        RemovedIn::Gone(_) => unreachable!(),
        RemovedIn::Left(value) => Ok(Change {
            previous: Some(value),
            written: true,
        }),
    }
}

/// Removes the key, if it is there. The root is written where it stands as far as nobody else
/// holds the nodes of the key's way. Where memory runs out it is as before.
pub fn remove_in<K: PathKey, V, S: Slots<K, V>, Q: Sought<K>>(
    alloc: Global,
    node: &mut Node<K, V, S>,
    key: Q,
    stamp: Stamp,
) -> Result<(), NoMemory>
where
    S::Key: Drop,
    S::Value: Drop,
    requires root { IsRoot K.cmp K.path_of (tree node.old) }
    ensures root { OnOk result (IsRoot K.cmp K.path_of (tree node.new)) }
    ensures map { OnOk result (map_of K.cmp (tree node.new) ≡ without K.cmp (map_of K.cmp (tree node.old)) (Q.key_of key)) }

    // The nodes of the key's path get the stamp, where the key is there. Else no node changes.
    ensures stamps { OnOk result (is_some (value_at K.cmp (map_of K.cmp (tree node.old)) (Q.key_of key)) ≡ true → Restamps stamp.0 (word_of K.path_of (Q.key_of key)) (nodes (word_of K.path_of) (tree node.old)) (nodes (word_of K.path_of) (tree node.new))) }
    ensures absent { OnOk result (value_at K.cmp (map_of K.cmp (tree node.old)) (Q.key_of key) ≡ None → tree node.new ≡ tree node.old) }
    ensures err { OnErr result (tree node.new ≡ tree node.old) }
{
    remove_in_where(alloc, node, key, stamp, &Always)?;
    Ok(())
}
