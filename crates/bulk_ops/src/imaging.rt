//! Maps of images, each beside a view of it.
//!
//! Both can be given away where nothing may be refused any more. Such a map has the largest limit, and no generation's
//! stamp.
ghost use Rattle.std.specs.Prelude.{◌≡◌, ◌≤◌, ◌<◌, ◌+◌, [], IfOk, OnOk, length};
ghost use Rattle.bulk_work.specs.Answers.{IsImage};
ghost use Rattle.bulk_ops.specs.Meanings.{MeansImages};
ghost use Rattle.combiner.specs.Unions.{AreApart};
ghost use Rattle.trie_shape.specs.Roots.{IsRoot, map_of};
ghost use Rattle.trie_shape.specs.View.{tree};
ghost use Rattle.versions.specs.Map.{IsMap, Map, union, with_pair};
ghost use Rattle.versions.specs.declared.version.TheConstants.{MOST_PAIRS};

use crate::closure::ImageFn;
use crate::part::no_pairs;
use crate::stored::StoredPairs;
use combiner::merge;
use hash_path::PathKey;
use iter::bunches_of_root;
use std::alloc::Global;
use std::sync::Arc;
use trie_node::{NoMemory, Node, Stamp, root_is_map, walk_lists_map};
use versions::{MOST_PAIRS, Refusal, Version, View};

/// A map, and a view of it.
pub(crate) type Seen<K, V> = (Version<K, V>, View<K, V>);

/// No images.
pub(crate) fn no_images<K: PathKey + Drop, V: Drop>(alloc: Global) -> Result<Seen<K, V>, NoMemory>
    ensures view { IfOk result (λ seen. seen.1 ≡ []) }
    ensures entries { IfOk result (λ seen. seen.0.entries ≡ seen.1) }
    ensures limit { IfOk result (λ seen. seen.0.limit ≡ MOST_PAIRS) }
    ensures stamp { IfOk result (λ seen. seen.0.stamp ≡ 0) }
{
    let map = no_pairs(alloc)?;
    let view = map.view()?;
    Ok((map, view))
}

/// The images of all pairs of a root.
pub(crate) fn images_of<K: PathKey + Drop, V: Drop, P: ImageFn<K, V>>(
    alloc: Global,
    root: &Node<K, V>,
    change: &StoredPairs<K, V, P>,
) -> Result<Seen<K, V>, NoMemory>
    requires callable { P.can change.now.call }
    requires root { IsRoot K.cmp K.path_of (tree root.now) }
    requires few { length (map_of K.cmp (tree root.now)) ≤ MOST_PAIRS }
    ensures images { IfOk result (λ seen. (p : K → V → K × V) → MeansImages (P.gives change.now.call) p → IsImage K.cmp p (map_of K.cmp (tree root.now)) seen.1) }
    ensures entries { IfOk result (λ seen. seen.0.entries ≡ seen.1) }
    ensures limit { IfOk result (λ seen. seen.0.limit ≡ MOST_PAIRS) }
    ensures stamp { IfOk result (λ seen. seen.0.stamp ≡ 0) }
{
    root_is_map::<K, V>();
    let none = no_pairs(alloc)?;
    let seen = more_images(alloc, none, root, change)?;
    Ok(seen)
}

/// The images of a map and those of all pairs of a root, which has none of its keys.
///
/// They are put into the map where it stands: a view of it is taken behind the last one, so that no put copies a node of
/// a map that nobody else holds.
pub(crate) fn more_images<K: PathKey + Drop, V: Drop, P: ImageFn<K, V>>(
    alloc: Global,
    map: Version<K, V>,
    root: &Node<K, V>,
    change: &StoredPairs<K, V, P>,
) -> Result<Seen<K, V>, NoMemory>
    requires callable { P.can change.now.call }
    requires root { IsRoot K.cmp K.path_of (tree root.now) }
    requires room { length map.entries + length (map_of K.cmp (tree root.now)) ≤ MOST_PAIRS }
    requires limit { map.limit ≡ MOST_PAIRS }
    requires stamp { map.stamp ≡ 0 }
    ensures images { IfOk result (λ seen. (p : K → V → K × V) (m : Map K V) → MeansImages (P.gives change.now.call) p → IsImage K.cmp p m map.entries → AreApart K.cmp m (map_of K.cmp (tree root.now)) → IsImage K.cmp p (union K.cmp m (map_of K.cmp (tree root.now))) seen.1) }
    ensures entries { IfOk result (λ seen. seen.0.entries ≡ seen.1) }
    ensures limit { IfOk result (λ seen. seen.0.limit ≡ MOST_PAIRS) }
    ensures stamp { IfOk result (λ seen. seen.0.stamp ≡ 0) }
{
    root_is_map::<K, V>();
    walk_lists_map::<K, V>();
    let mut all = map;
    // Called for its contract: the keys of the map rise strictly.
    all.len();
    for (key, value) in bunches_of_root(alloc, root) {
        let Ok((image, made)) = change.shared_at(alloc, key, value) else {
            drop(all);
            return Err(NoMemory);
        };
        let Ok(()) = put(alloc, &mut all, image, made) else {
            drop(all);
            return Err(NoMemory);
        };
    }
    let Ok(view) = all.view() else {
        drop(all);
        return Err(NoMemory);
    };
    Ok((all, view))
}

/// The map with the image. The old one stays as it is: a write copies the nodes that it changes.
pub(crate) fn with_image<K: PathKey + Drop, V: Drop>(
    alloc: Global,
    map: &Version<K, V>,
    key: Arc<K>,
    value: Arc<V>,
) -> Result<Seen<K, V>, NoMemory>
    requires room { length map.now.entries < MOST_PAIRS }
    requires stamp { map.now.stamp ≡ 0 }
    ensures view { IfOk result (λ seen. seen.1 ≡ with_pair K.cmp map.now.entries key.value value.value) }
    ensures sorted { IfOk result (λ seen. IsMap K.cmp seen.1) }
    ensures entries { IfOk result (λ seen. seen.0.entries ≡ seen.1) }
    ensures limit { IfOk result (λ seen. seen.0.limit ≡ MOST_PAIRS) }
    ensures stamp { IfOk result (λ seen. seen.0.stamp ≡ 0) }
{
    let mut more = again(map)?;
    let Ok(()) = put(alloc, &mut more, key, value) else {
        drop(more);
        return Err(NoMemory);
    };
    let Ok(view) = more.view() else {
        drop(more);
        return Err(NoMemory);
    };
    // Called for its contract: the keys of the view rise strictly.
    view.len();
    Ok((more, view))
}

/// The images of both. Of a key that both have the value of the left one stays.
pub(crate) fn joined_images<K: PathKey + Drop, V: Drop>(
    alloc: Global,
    left: &Version<K, V>,
    right: &Version<K, V>,
) -> Result<Seen<K, V>, NoMemory>
    requires room { length left.now.entries + length right.now.entries ≤ MOST_PAIRS }
    requires limits { (left.now.limit ≡ MOST_PAIRS) × (right.now.limit ≡ MOST_PAIRS) }
    requires stamps { (left.now.stamp ≡ 0) × (right.now.stamp ≡ 0) }
    ensures view { IfOk result (λ seen. seen.1 ≡ union K.cmp left.now.entries right.now.entries) }
    ensures sorted { IfOk result (λ seen. IsMap K.cmp seen.1) }
    ensures entries { IfOk result (λ seen. seen.0.entries ≡ seen.1) }
    ensures limit { IfOk result (λ seen. seen.0.limit ≡ MOST_PAIRS) }
    ensures stamp { IfOk result (λ seen. seen.0.stamp ≡ 0) }
{
    let both = merge(alloc, left, right)?;
    let Ok(view) = both.view() else {
        drop(both);
        return Err(NoMemory);
    };
    // Called for its contract: the keys of the view rise strictly.
    view.len();
    Ok((both, view))
}

// Another map with the same nodes.
fn again<K: PathKey + Drop, V: Drop>(map: &Version<K, V>) -> Result<Version<K, V>, NoMemory>
    requires room { length map.now.entries ≤ MOST_PAIRS }
    requires stamp { map.now.stamp ≡ 0 }
    ensures entries { IfOk result (λ same. same.entries ≡ map.now.entries) }
    ensures limit { IfOk result (λ same. same.limit ≡ MOST_PAIRS) }
    ensures stamp { IfOk result (λ same. same.stamp ≡ 0) }
{
    // Called for its contract: the map has no node of a later stamp.
    map.stamp();
    let root = map.root().try_clone()?;
    Ok(Version::from_root(root, MOST_PAIRS, Stamp::LOOSE))
}

// Puts the pair into the map, which has room for it.
fn put<K: PathKey + Drop, V: Drop>(
    alloc: Global,
    map: &mut Version<K, V>,
    key: Arc<K>,
    value: Arc<V>,
) -> Result<(), NoMemory>
    requires { length map.old.entries < map.old.limit }
    ensures entries { OnOk result (map.new.entries ≡ with_pair K.cmp map.old.entries key.value value.value) }
    ensures limit { map.new.limit ≡ map.old.limit }
    ensures stamp { map.new.stamp ≡ map.old.stamp }
{
    match map.put(alloc, key, value) {
        Ok(_) => Ok(()),
        Err(Refusal::NoMemory) => Err(NoMemory),
        Err(_) => unreachable!(),
    }
}
