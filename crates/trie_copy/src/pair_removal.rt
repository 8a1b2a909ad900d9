//! Leaves and buckets without one of their pairs.

ghost use Rattle.std.specs.Prelude.{◌≡◌, ◌<◌, ◌++◌, ℕ, map, length, true, IfOk, OnOk, OnErr, IfSome, None, IfNone};
ghost use Rattle.std.specs.List.{remove};
ghost use Rattle.std.specs.FinMap.{find};
ghost use Rattle.trie_shape.specs.Tree.{IsTrie, bucket};
ghost use Rattle.trie_shape.specs.View.{tree, pair_values};
ghost use Rattle.trie_copy.specs.Removals.{IsAt, Removes, is_removable};

use crate::removal_outcome::Removal;
use hash_path::{PathKey, Sought};
use slots::{Pair, Slots};
use std::alloc::Global;
use std::cmp::Ordering;
use trie_shape::{Condition, NoMemory, Node, Stamp, make_bucket, make_leaf};

/// The place of the key among pairs.
pub fn place_of<K: PathKey, V, S: Slots<K, V>, Q: Sought<K>>(
    pairs: &[Pair<K, V, S>],
    key: Q,
) -> Option<usize>
    ensures there { IfSome result (λ i. IsAt K.cmp (Q.key_of key) i (map pair_values pairs.now)) }
    ensures absent { IfNone result (find K.cmp (Q.key_of key) (map pair_values pairs.now) ≡ None) }
{
    for i in 0..pairs.len() {
        if key.compare_with(pairs[i].key()) == Ordering::Equal {
            return Some(i);
        }
    }
    None
}

/// Appends handles on the same pairs.
fn push_pairs<K, V, S: Slots<K, V>>(
    all: &mut Vec<Pair<K, V, S>>,
    pairs: &[Pair<K, V, S>],
) -> Result<(), NoMemory>
where
    S::Key: Drop,
    S::Value: Drop,
    ensures { OnOk result (map pair_values all.new.items ≡ map pair_values all.old.items ++ map pair_values pairs.now) }
{
    for pair in pairs {
        all.push(pair.another()?)?;
    }
    Ok(())
}

/// A leaf or bucket of the pairs without the one at a place.
fn without_pair<K, V, S: Slots<K, V>>(
    alloc: Global,
    stamp: Stamp,
    pairs: &[Pair<K, V, S>],
    at: usize,
) -> Result<Node<K, V, S>, NoMemory>
where
    S::Key: Drop,
    S::Value: Drop,
    requires within { at < length pairs.now }
    requires more { 1 < length pairs.now }
    ensures { IfOk result (λ n. tree n ≡ bucket stamp.0 (remove (map pair_values pairs.now) at)) }
{
    if pairs.len() == 2 {
        return Ok(make_leaf(stamp, pairs[1 - at].another()?));
    }
    let mut rest = Vec::with_capacity(alloc, pairs.len() - 1)?;
    push_pairs(&mut rest, &pairs[..at])?;
    push_pairs(&mut rest, &pairs[at + 1..])?;
    make_bucket(alloc, stamp, rest)
}

/// The removal of the key from a leaf or bucket of these pairs.
pub fn take_pair<'a, K: PathKey, V, S: Slots<K, V>, Q: Sought<K>, C: Condition<V>>(
    alloc: Global,
    pairs: &'a [Pair<K, V, S>],
    key: Q,
    stamp: Stamp,
    condition: &C,
) -> Result<Removal<'a, K, V, S>, NoMemory>
where
    S::Key: Drop,
    S::Value: Drop,
    ensures due { OnErr result (is_removable K.cmp (Q.key_of key) (C.holds condition.now) (map pair_values pairs.now) ≡ true) }
    ensures ok { IfOk result (λ r. (level before : ℕ) → IsTrie K.cmp K.path_of level (bucket before (map pair_values pairs.now)) → Removes K.cmp K.path_of level stamp.0 (Q.key_of key) (C.holds condition.now) (bucket before (map pair_values pairs.now)) r) }
{
    let Some(at) = place_of(pairs, key) else {
        return Ok(Removal::Nothing(None));
    };
    let pair = &pairs[at];
    if !condition.holds(Some(pair.value())) {
        return Ok(Removal::Nothing(Some(pair)));
    }
    if pairs.len() == 1 {
        return Ok(Removal::Gone(pair));
    }
    let rest = without_pair(alloc, stamp, pairs, at)?;
    Ok(Removal::Left(rest, pair))
}
