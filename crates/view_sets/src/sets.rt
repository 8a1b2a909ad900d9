//! The union, the intersection and the difference of two views.

ghost use Rattle.std.specs.Prelude.{◌≡◌, ◌<◌, ◌≤◌, Bool, IfOk, filter, is_some, length, not, true};
ghost use Rattle.trie_filter.specs.Passing.{AreChosen};
ghost use Rattle.trie_shape.specs.Map.{union};
ghost use Rattle.trie_shape.specs.Roots.{IsRoot, map_of, word_of};
ghost use Rattle.trie_shape.specs.Shape.{NoneAbove, nodes};
ghost use Rattle.trie_shape.specs.View.{tree};
ghost use Rattle.trie_values.specs.Values.{MayAnswer, Means};
ghost use Rattle.versions.specs.Map.{value_at};
ghost use Rattle.versions.specs.declared.refusal.Refusal.TheVariants.{Full};
ghost use Rattle.versions.specs.declared.version.TheConstants.{MOST_PAIRS};
ghost use Rattle.view_sets.specs.Sets.{apart, common};

use hash_path::PathKey;
use std::alloc::Global;
use trie_filter::with_passing;
use trie_node::{NoMemory, Node, Slots, Stamp, merged, root_is_map, size};
use versions::{MOST_PAIRS, Refusal, Version, View};

/// The map of the pairs of both views; where both have a key, the value is the left one's. It shares the keys and the
/// values, and has nodes of its own.
///
/// <!-- quoted from crates/tests_map_ops/src/tests/sets.rt -->
/// ```rust
/// let both = union(alloc, new, old)?;
/// ```
///
/// Cost: O(n + m) for views of n and m pairs, no lock. Keys are compared only where both views have keys of one path
/// word. Refused: `Full`, where the map would have more than `MOST_PAIRS` pairs; `NoMemory`, if memory runs out.
pub fn union<K: PathKey, V, S: Slots<K, V>>(
    alloc: Global,
    left: &View<K, V, S>,
    right: &View<K, V, S>,
) -> Result<Version<K, V, S>, Refusal>
where
    S::Key: Drop,
    S::Value: Drop,
    ensures entries { IfOk result (λ both. both.entries ≡ union K.cmp left.now right.now) }
    ensures limit { IfOk result (λ both. both.limit ≡ MOST_PAIRS) }
{
    root_is_map::<K, V>();
    let root = united(alloc, left, right)?;
    if size(&root) > MOST_PAIRS {
        return Err(Refusal::Full);
    }
    Ok(Version::from_root(root, MOST_PAIRS, Stamp::LOOSE))
}

/// The map of the pairs of the left view whose keys the right one has too. It shares the keys and the values.
///
/// Cost: O(n log m) for views of n and m pairs, no lock: a look-up for each pair. Refused: `NoMemory`, if memory runs out.
pub fn intersection<K: PathKey, V, S: Slots<K, V>, W, T: Slots<K, W>>(
    alloc: Global,
    left: &View<K, V, S>,
    right: &View<K, W, T>,
) -> Result<Version<K, V, S>, NoMemory>
where
    S::Key: Drop,
    S::Value: Drop,
    ensures entries { IfOk result (λ both. both.entries ≡ common K.cmp left.now right.now) }
    ensures limit { IfOk result (λ both. both.limit ≡ MOST_PAIRS) }
{
    let stays = |key: &K, _value: &V| -> bool
        ensures { result ≡ is_some (value_at K.cmp right.entry.now key.now) }
    { right.contains_key(key) };
    let made = passed(alloc, left, &stays)?;
    Ok(made)
}

/// The map of the pairs of the left view whose keys the right one has not. It shares the keys and the values.
///
/// Cost: O(n log m) for views of n and m pairs, no lock: a look-up for each pair. Refused: `NoMemory`, if memory runs out.
pub fn difference<K: PathKey, V, S: Slots<K, V>, W, T: Slots<K, W>>(
    alloc: Global,
    left: &View<K, V, S>,
    right: &View<K, W, T>,
) -> Result<Version<K, V, S>, NoMemory>
where
    S::Key: Drop,
    S::Value: Drop,
    ensures entries { IfOk result (λ rest. rest.entries ≡ apart K.cmp left.now right.now) }
    ensures limit { IfOk result (λ rest. rest.limit ≡ MOST_PAIRS) }
{
    let stays = |key: &K, _value: &V| -> bool
        ensures { result ≡ not (is_some (value_at K.cmp right.entry.now key.now)) }
    { !right.contains_key(key) };
    let made = passed(alloc, left, &stays)?;
    Ok(made)
}

/// The map of the pairs that pass the test.
pub(crate) fn passed<K: PathKey, V, S: Slots<K, V>, F: Fn(&K, &V) -> bool>(
    alloc: Global,
    view: &View<K, V, S>,
    test: &F,
) -> Result<Version<K, V, S>, NoMemory>
where
    S::Key: Drop,
    S::Value: Drop,
    requires callable { F.IsAlwaysCallable test.now }
    ensures entries { IfOk result (λ made. (p : K → V → Bool) → Means (MayAnswer F.Fn test.now) p → made.entries ≡ filter (λ x. p x.0 x.1) view.now) }
    ensures limit { IfOk result (λ made. made.limit ≡ MOST_PAIRS) }
{
    view.len();
    let root = with_passing(alloc, view.root(), Stamp::LOOSE, test)?;
    Ok(Version::from_root(root, MOST_PAIRS, Stamp::LOOSE))
}

/// The root of the union.
fn united<K: PathKey, V, S: Slots<K, V>>(
    alloc: Global,
    left: &View<K, V, S>,
    right: &View<K, V, S>,
) -> Result<Node<K, V, S>, NoMemory>
where
    S::Key: Drop,
    S::Value: Drop,
    ensures root { IfOk result (λ n. IsRoot K.cmp K.path_of (tree n)) }
    ensures map { IfOk result (λ n. map_of K.cmp (tree n) ≡ union K.cmp left.now right.now) }
    ensures newest { IfOk result (λ n. NoneAbove Stamp.LOOSE.0 (nodes (word_of K.path_of) (tree n))) }
{
    let first = copied(alloc, left)?;
    let second = copied(alloc, right)?;
    merged(alloc, &first, &second, Stamp::LOOSE)
}

/// A root of the view's pairs whose nodes belong to no generation.
fn copied<K: PathKey, V, S: Slots<K, V>>(
    alloc: Global,
    view: &View<K, V, S>,
) -> Result<Node<K, V, S>, NoMemory>
where
    S::Key: Drop,
    S::Value: Drop,
    ensures root { IfOk result (λ n. IsRoot K.cmp K.path_of (tree n)) }
    ensures map { IfOk result (λ n. map_of K.cmp (tree n) ≡ view.now) }
    ensures few { IfOk result (λ n. length (map_of K.cmp (tree n)) ≤ MOST_PAIRS) }
    ensures newest { IfOk result (λ n. NoneAbove Stamp.LOOSE.0 (nodes (word_of K.path_of) (tree n))) }
{
    view.len();
    let all = |_key: &K, _value: &V| -> bool
        ensures { result ≡ true }
    { true };
    let made = with_passing(alloc, view.root(), Stamp::LOOSE, &all)?;
    Ok(made)
}
