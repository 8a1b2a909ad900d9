//! Pairs of one path word, in order of their keys.

ghost use Rattle.std.specs.Prelude.{◌≡◌, ◌++◌, ◌∷◌, [], IfOk, T, map, option_map};
ghost use Rattle.std.specs.FinMap.{find, is_sorted};
ghost use Rattle.std.specs.FinMap.Entries.{put as put_in_order};
ghost use Rattle.trie_shape.specs.View.{pair_values};

use crate::no_memory::NoMemory;
use hash_path::{PathKey, Sought};
use slots::{Pair, Slots};
use std::alloc::Global;
use std::cmp::Ordering;

/// The pair of the key among pairs in order of their keys, from the pair in the middle. For the crates that write
/// whole roots.
pub fn find_pair<'a, K: PathKey, V, S: Slots<K, V>, Q: Sought<K>>(
    pairs: &'a [Pair<K, V, S>],
    key: Q,
) -> Option<&'a Pair<K, V, S>>
    requires sorted { T (is_sorted K.cmp (map pair_values pairs.now)) }
    ensures { option_map (λ p. p.now.1) result ≡ find K.cmp (Q.key_of key) (map pair_values pairs.now) }
{
    let (before, rest) = pairs.split_at(pairs.len() / 2);
    let Some((pair, behind)) = rest.split_first() else {
        return None;
    };
    match key.compare_with(pair.key()) {
        Ordering::Less => find_pair(before, key),
        Ordering::Equal => Some(pair),
        Ordering::Greater => find_pair(behind, key),
    }
}

/// The pairs with the value put at the key, in order. A key that is there stays. For the
/// crates that write whole roots.
pub fn put_pair<K: PathKey, V, S: Slots<K, V>>(
    alloc: Global,
    pairs: &[Pair<K, V, S>],
    pair: &Pair<K, V, S>,
) -> Result<Vec<Pair<K, V, S>>, NoMemory>
where
    S::Key: Drop,
    S::Value: Drop,
    ensures { IfOk result (λ v. map pair_values v.items ≡ put_in_order K.cmp pair.now.0 pair.now.1 (map pair_values pairs.now)) }
{
    let mut all = Vec::with_capacity(alloc, pairs.len().saturating_add(1))?;
    let mut placed = false;
    for old in pairs {
        let order = if placed {
            Ordering::Greater
        } else {
            pair.key().cmp(old.key())
        };
        if order == Ordering::Less {
            push_copy(&mut all, pair, pair)?;
        }
        let kept = if order == Ordering::Equal { pair } else { old };
        push_copy(&mut all, old, kept)?;
        placed = placed || order != Ordering::Greater;
    }
    if !placed {
        push_copy(&mut all, pair, pair)?;
    }
    Ok(all)
}

/// Pushes a pair with the key of one pair and the value of another.
fn push_copy<K, V, S: Slots<K, V>>(
    all: &mut Vec<Pair<K, V, S>>,
    keyed: &Pair<K, V, S>,
    valued: &Pair<K, V, S>,
) -> Result<(), NoMemory>
where
    S::Key: Drop,
    S::Value: Drop,
    ensures { IfOk result (λ pushed. all.new.items ≡ all.old.items ++ (keyed.now.0, valued.now.1) ∷ []) }
{
    all.push(keyed.another_with(valued.value_slot())?)?;
    Ok(())
}
