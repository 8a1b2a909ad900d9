//! Laws of the words in which contracts speak of maps. Their functions do nothing: each contract is the law.
ghost use Rattle.std.specs.Prelude.{◌≡◌, ◌↔◌, ℕ, List, Contains, map, true, if◌then◌else◌, Some, None};
ghost use Rattle.std.specs.Ordering.{eq_by_cmp};
ghost use Rattle.trie_shape.specs.Roots.{word_of};
ghost use Rattle.trie_shape.specs.Shape.{is_name};
ghost use Rattle.versions.specs.Map.{IsAntisymmetric, IsMap, Map, value_at, with_pair, without};

use crate::version::Version;
use hash_path::PathKey;
use trie_node::{Slots, map_names_nodes};

/// After a put the value at the key is the new one, and at every other key it is the one before.
pub fn law_of_put<K: Ord, V>()
    ensures value { (m : Map K V) (k q : K) (v : V) → value_at K.cmp (with_pair K.cmp m k v) q ≡ (if eq_by_cmp K.cmp q k then Some v else value_at K.cmp m q) }
    ensures map { (m : Map K V) (k : K) (v : V) → IsMap K.cmp m → IsMap K.cmp (with_pair K.cmp m k v) }
{}

/// After a removal there is no value at the key, and at every other key it is the one before.
pub fn law_of_removal<K: Ord, V>()
    ensures value { (m : Map K V) (k q : K) → value_at K.cmp (without K.cmp m k) q ≡ (if eq_by_cmp K.cmp k q then None else value_at K.cmp m q) }
    ensures map { (m : Map K V) (k : K) → IsMap K.cmp m → IsMap K.cmp (without K.cmp m k) }
{}

/// Two maps that have the same value at every key are one map, where keys that compare equal are one key.
pub fn law_of_equal_maps<K: Ord, V>()
    ensures { IsAntisymmetric K.cmp → (m n : Map K V) → IsMap K.cmp m → IsMap K.cmp n → ((q : K) → value_at K.cmp m q ≡ value_at K.cmp n q) → m ≡ n }
{}

/// The nodes of a version have the names that the trie of its map has, and no others.
pub fn law_of_names<K: PathKey, V, S: Slots<K, V>>(version: &Version<K, V, S>)
where
    S::Key: Drop,
    S::Value: Drop,
    ensures { (name : List ℕ) → Contains (map (λ node. node.0) version.now.nodes) name ↔ (is_name (word_of K.path_of) version.now.entries name ≡ true) }
{
    map_names_nodes::<K, V>();
    let _ = version.root();
}
