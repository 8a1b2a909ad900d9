//! Maps as plain lists of pairs in order of their keys, beside which the trie is tested.
ghost use Rattle.std.specs.Prelude.{◌≡◌, map, option_map, IfOk};
ghost use Rattle.test_maps.specs.Lists.{pair_values};
ghost use Rattle.versions.specs.Map.{value_at, with_pair, without};

use std::alloc::{AllocError, Global};
use std::cmp::Ordering;
use std::sync::Arc;

/// A key and its value, both shared.
pub type Pair<K, V> = (Arc<K>, Arc<V>);

/// Other handles on the key and the value.
pub fn shared_pair<K: Drop, V: Drop>(key: &Arc<K>, value: &Arc<V>) -> Result<Pair<K, V>, AllocError>
    ensures { IfOk result (λ pair. pair_values pair ≡ (key.now.value, value.now.value)) }
{
    Ok((Arc::try_clone(key)?, Arc::try_clone(value)?))
}

/// The value of the key among the pairs.
pub fn find_pair<'a, K: Ord, V>(pairs: &'a [Pair<K, V>], key: &K) -> Option<&'a Arc<V>>
    ensures { option_map (λ v. v.now.value) result ≡ value_at K.cmp (map pair_values pairs.now) key.now }
{
    for (each, value) in pairs {
        if key.cmp(each) == Ordering::Equal {
            return Some(value);
        }
    }
    None
}

/// The pairs with the value put at the key. Where the key is there already, its first `Arc` stays.
pub fn put_pair<K: Ord + Drop, V: Drop>(
    alloc: Global,
    pairs: &[Pair<K, V>],
    key: &Arc<K>,
    value: &Arc<V>,
) -> Result<Vec<Pair<K, V>>, AllocError>
    ensures { IfOk result (λ all. map pair_values all.items ≡ with_pair K.cmp (map pair_values pairs.now) key.now.value value.now.value) }
{
    let mut all = Vec::new(alloc);
    let mut placed = false;
    for (each, before) in pairs {
        let order = if placed {
            Ordering::Greater
        } else {
            key.cmp(each)
        };
        if order == Ordering::Less {
            all.push(shared_pair(key, value)?)?;
        }
        let kept = if order == Ordering::Equal {
            value
        } else {
            before
        };
        all.push(shared_pair(each, kept)?)?;
        placed = placed || order != Ordering::Greater;
    }
    if !placed {
        all.push(shared_pair(key, value)?)?;
    }
    Ok(all)
}

/// The pairs without the key.
pub fn without_pair<K: Ord + Drop, V: Drop>(
    alloc: Global,
    pairs: &[Pair<K, V>],
    key: &K,
) -> Result<Vec<Pair<K, V>>, AllocError>
    ensures { IfOk result (λ all. map pair_values all.items ≡ without K.cmp (map pair_values pairs.now) key.now) }
{
    let mut all = Vec::new(alloc);
    for (each, value) in pairs {
        if key.cmp(each) != Ordering::Equal {
            all.push(shared_pair(each, value)?)?;
        }
    }
    Ok(all)
}
