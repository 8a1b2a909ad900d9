//! Handles on values of a view.
ghost use Rattle.std.specs.Prelude.{◌≡◌, IfOk, map, option_map};
ghost use Rattle.versions.specs.Map.{value_at};

use hash_path::{PathKey, Sought};
use map_view::View;
use std::alloc::Global;
use stripes::Keeps;
use trie_node::{NoMemory, Slots, ValueSlots};

/// A handle on each of the values of keys in a view, or none where the key is absent.
pub fn handles_in<K: PathKey + Drop, V: Drop, P: Keeps<K, V>, S: Slots<K, V>, Q: Sought<K>>(
    alloc: Global,
    view: &View<K, V, P, S>,
    keys: &[Q],
) -> Result<Vec<Option<S::Value>>, NoMemory>
where
    S::Key: Drop,
    S::Value: Drop,
    ensures { IfOk result (λ values. map (option_map (λ value. S.value_of value)) values.items ≡ map (λ key. value_at K.cmp view.now (Q.key_of key)) keys.now) }
{
    let lent = view.get_many(keys)?;
    handles_on::<V, S>(alloc, lent.as_slice())
}

// A handle on each of some values that are lent, or none where none is.
fn handles_on<V, S: ValueSlots<V>>(
    alloc: Global,
    lent: &[Option<&S::Value>],
) -> Result<Vec<Option<S::Value>>, NoMemory>
where
    S::Value: Drop,
    ensures { IfOk result (λ values. map (option_map (λ value. S.value_of value)) values.items ≡ map (option_map (λ value. S.value_of value.now)) lent.now) }
{
    let mut values = Vec::with_capacity(alloc, lent.len())?;
    for value in lent {
        values.push(handle_on::<V, S>(*value)?)?;
    }
    Ok(values)
}

// A handle on a value that is lent, or none.
fn handle_on<V, S: ValueSlots<V>>(lent: Option<&S::Value>) -> Result<Option<S::Value>, NoMemory>
    ensures { IfOk result (λ value. option_map (λ value. S.value_of value) value ≡ option_map (λ value. S.value_of value.now) lent.entry) }
{
    match lent {
        Some(value) => Ok(Some(S::another_value(value)?)),
        None => Ok(None),
    }
}
