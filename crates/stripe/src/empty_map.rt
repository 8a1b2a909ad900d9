//! What a stripe is cleared with.
ghost use Rattle.stripe.specs.Contents.{IsEmptyMap};

use crate::stripe::MOST_PAIRS_OF_STRIPE;
use hash_path::PathKey;
use std::alloc::Global;
use std::marker::Model;
use trie_node::{NoMemory, Shared, Slots, Stamp, empty_root};
use versions::Version;

/// A map with no pairs and the limit of a stripe. It is made before the stripe is locked, so that clearing cannot fail.
#[derive(Drop)]
pub struct EmptyMap<K: PathKey, V, S: Slots<K, V> = Shared> {
    map: Version<K, V, S>,
}

impl<K: PathKey, V, S: Slots<K, V>> Model for EmptyMap<K, V, S> {
    ghost use Rattle.stripe.specs.Contents.{IsEmptyMap};
    ghost use Rattle.versions.specs.Contents.{Contents};

    ghost Value = { Contents K V };

    ghost view = { λ b. b.map };

    ghost invariant = { λ b. IsEmptyMap b.map };
}

impl<K: PathKey + Drop, V: Drop, S: Slots<K, V>> EmptyMap<K, V, S>
where
    S::Key: Drop,
    S::Value: Drop,
{
    /// A map with no pairs.
    pub fn new(alloc: Global) -> Result<EmptyMap<K, V, S>, NoMemory> {
        Ok(EmptyMap {
            map: Version::from_root(
                empty_root(alloc, Stamp::LOOSE)?,
                MOST_PAIRS_OF_STRIPE,
                Stamp::LOOSE,
            ),
        })
    }

    /// The map.
    pub fn into_map(self) -> Version<K, V, S>
        ensures { IsEmptyMap result }
    {
        self.map
    }
}
