//! What calls on a map's root return, which ask for a root: look-ups of several keys, new values, and the pairs that pass.

use std::alloc::Global;
use std::sync::Arc;
use test_keys::ChosenKey;
use trie_filter::with_passing;
use trie_lookups::find_many;
use trie_node::{NoMemory, Stamp};
use trie_values::with_new_values;
use versions::Version;

/// What the keys find in the map.
pub fn found_in<'a, V: Drop>(
    alloc: Global,
    map: &'a Version<ChosenKey, V>,
    keys: &[&ChosenKey],
) -> Result<Vec<Option<&'a Arc<V>>>, NoMemory> {
    find_many(alloc, map.root(), keys)
}

/// The map with new values, whose nodes have the stamp.
pub fn changed<V: Drop, W: Drop, F: Fn(&ChosenKey, &V) -> W>(
    alloc: Global,
    map: &Version<ChosenKey, V>,
    stamp: Stamp,
    change: &F,
) -> Result<Version<ChosenKey, W>, NoMemory>
    requires callable { F.IsAlwaysCallable change.now }
{
    map.len();
    let root = with_new_values(alloc, map.root(), stamp, change)?;
    Ok(Version::from_root(root, map.limit(), stamp))
}

/// The map of the pairs that pass, whose new nodes have the stamp.
pub fn passing<V: Drop, F: Fn(&ChosenKey, &V) -> bool>(
    alloc: Global,
    map: &Version<ChosenKey, V>,
    stamp: Stamp,
    test: &F,
) -> Result<Version<ChosenKey, V>, NoMemory>
    requires callable { F.IsAlwaysCallable test.now }
{
    map.len();
    let root = with_passing(alloc, map.root(), stamp, test)?;
    Ok(Version::from_root(root, map.limit(), stamp))
}
