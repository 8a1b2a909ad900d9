//! Parts that are made by the shape of a trie.
ghost use Rattle.std.specs.Prelude.{◌≡◌, ◌≤◌, Bool, IfOk, length};
ghost use Rattle.bulk_work.specs.Answers.{passing, with_values};
ghost use Rattle.bulk_ops.specs.Meanings.{Means};
ghost use Rattle.trie_shape.specs.Roots.{IsRoot, map_of};
ghost use Rattle.trie_shape.specs.View.{tree};
ghost use Rattle.versions.specs.declared.version.TheConstants.{MOST_PAIRS};

use crate::closure::PairFn;
use crate::stored::{StoredMap, StoredTest};
use hash_path::PathKey;
use std::alloc::Global;
use trie_filter::with_passing;
use trie_node::{NoMemory, Node, Stamp};
use trie_values::with_new_values;
use versions::{MOST_PAIRS, Version};

/// The map of a root's pairs that pass, for a part: it has the largest limit, and no generation's stamp.
pub(crate) fn passed<K: PathKey + Drop, V: Drop, T: PairFn<K, V, bool>>(
    alloc: Global,
    root: &Node<K, V>,
    test: &StoredTest<K, V, T>,
) -> Result<Version<K, V>, NoMemory>
    requires callable { T.can test.now.call }
    requires root { IsRoot K.cmp K.path_of (tree root.now) }
    requires few { length (map_of K.cmp (tree root.now)) ≤ MOST_PAIRS }
    ensures entries { IfOk result (λ made. (p : K → V → Bool) → Means (T.gives test.now.call) p → made.entries ≡ passing p (map_of K.cmp (tree root.now))) }
    ensures limit { IfOk result (λ made. made.limit ≡ MOST_PAIRS) }
    ensures stamp { IfOk result (λ made. made.stamp ≡ 0) }
{
    let passes = |key: &K, value: &V| -> bool
        requires { T.can test.now.call }
        ensures { (p : K → V → Bool) → Means (T.gives test.entry.now.call) p → result ≡ p key.now value.now }
    { test.at(key, value) };
    let made = with_passing(alloc, root, Stamp::LOOSE, &passes)?;
    Ok(Version::from_root(made, MOST_PAIRS, Stamp::LOOSE))
}

/// The map of a root's keys with the new values, for a part: it has the largest limit, and no generation's stamp.
pub(crate) fn changed<K: PathKey + Drop, V: Drop, F: PairFn<K, V, V>>(
    alloc: Global,
    root: &Node<K, V>,
    change: &StoredMap<K, V, F>,
) -> Result<Version<K, V>, NoMemory>
    requires callable { F.can change.now.call }
    requires root { IsRoot K.cmp K.path_of (tree root.now) }
    requires few { length (map_of K.cmp (tree root.now)) ≤ MOST_PAIRS }
    ensures entries { IfOk result (λ made. (f : K → V → V) → Means (F.gives change.now.call) f → made.entries ≡ with_values f (map_of K.cmp (tree root.now))) }
    ensures limit { IfOk result (λ made. made.limit ≡ MOST_PAIRS) }
    ensures stamp { IfOk result (λ made. made.stamp ≡ 0) }
{
    let value_at = |key: &K, value: &V| -> V
        requires { F.can change.now.call }
        ensures { (f : K → V → V) → Means (F.gives change.entry.now.call) f → result ≡ f key.now value.now }
    { change.at(key, value) };
    let made = with_new_values(alloc, root, Stamp::LOOSE, &value_at)?;
    Ok(Version::from_root(made, MOST_PAIRS, Stamp::LOOSE))
}
