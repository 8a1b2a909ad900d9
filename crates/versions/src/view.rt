//! A map as it stood at one moment.
ghost use Rattle.std.specs.Prelude.{◌≡◌, ◌≤◌, ◌↔◌, [], length, option_map, is_some, IfOk, IsTrue};
ghost use Rattle.trie_shape.specs.Roots.{IsRoot, map_of};
ghost use Rattle.trie_shape.specs.View.{tree};
ghost use Rattle.versions.specs.Map.{IsMap, value_at};
ghost use Rattle.versions.specs.declared.version.TheConstants.{MOST_PAIRS};

use crate::root::Root;
use hash_path::{PathKey, Sought};
use std::marker::Model;
use trie_node::{NoMemory, Node, Shared, Slots, root_is_map};

/// A map that never changes, as it stood when the view was taken. Any number of threads may read it, with no lock.
///
/// <!-- quoted from crates/example_expiry/src/tour.rt -->
/// ```rust
/// let frozen = registry.view()?;
/// lease(alloc, &mut registry, "alpha", 900)?;
/// ```
#[derive(Drop)]
pub struct View<K: PathKey, V, S: Slots<K, V> = Shared> {
    pub(crate) root: Root<K, V, S, S::Key, S::Value>,
}

impl<K: PathKey, V, S: Slots<K, V>> Model for View<K, V, S> {
    ghost use Rattle.std.specs.Prelude.{◌≤◌, length};
    ghost use Rattle.trie_shape.specs.Roots.{IsRoot, map_of};
    ghost use Rattle.versions.specs.Map.{Map};
    ghost use Rattle.versions.specs.declared.version.TheConstants.{MOST_PAIRS};

    ghost Value = { Map K V };

    ghost view = { λ a. map_of K.cmp a.root };

    ghost invariant = { λ a. IsRoot K.cmp K.path_of a.root × (length (map_of K.cmp a.root) ≤ MOST_PAIRS) };
}

impl<K: PathKey, V, S: Slots<K, V>> View<K, V, S> {
    /// The value of the key, or none.
    ///
    /// Cost: O(log n), no lock. Refused: never.
    pub fn get<Q: Sought<K>>(&self, key: Q) -> Option<&S::Value>
        ensures { option_map (λ value. S.value_of value.now) result ≡ value_at K.cmp self.now (Q.key_of key) }
    {
        trie_node::find(self.root.node(), key)
    }

    /// Whether the key has a value.
    ///
    /// Cost: O(log n), no lock. Refused: never.
    pub fn contains_key<Q: Sought<K>>(&self, key: Q) -> bool
        ensures { result ≡ is_some (value_at K.cmp self.now (Q.key_of key)) }
    {
        self.get(key).is_some()
    }

    /// How many pairs there are.
    ///
    /// Cost: O(1), no lock. Refused: never.
    pub fn len(&self) -> u64
        ensures count { result ≡ length self.now }
        ensures few { length self.now ≤ MOST_PAIRS }
        ensures sorted { IsMap K.cmp self.now }
    {
        root_is_map::<K, V>();
        trie_node::size(self.root.node())
    }

    /// Whether there is no pair.
    ///
    /// Cost: O(1), no lock. Refused: never.
    pub fn is_empty(&self) -> bool
        ensures { IsTrue result ↔ (self.now ≡ []) }
    {
        self.len() == 0
    }

    /// The root of the view's trie.
    ///
    /// Cost: O(1), no lock. Refused: never.
    pub fn root(&self) -> &Node<K, V, S>
        ensures root { IsRoot K.cmp K.path_of (tree result.now) }
        ensures entries { map_of K.cmp (tree result.now) ≡ self.now }
    {
        self.root.node()
    }
}

impl<K: PathKey, V, S: Slots<K, V>> View<K, V, S>
where
    S::Key: Drop,
    S::Value: Drop,
{
    /// Another handle on the same view.
    ///
    /// Cost: O(1), no lock and no request for memory. Refused: `NoMemory`, where the handle cannot be cloned.
    pub fn try_clone(&self) -> Result<View<K, V, S>, NoMemory>
        ensures { IfOk result (λ view. view ≡ self.now) }
    {
        Ok(View {
            root: self.root.try_clone()?,
        })
    }
}
