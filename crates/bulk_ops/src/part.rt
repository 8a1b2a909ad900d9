//! What is known of some of the pairs of a map.
ghost use Rattle.std.specs.Prelude.{◌≡◌, [], IfOk, OnErr, OnOk};
ghost use Rattle.bulk_ops.specs.Parts.{HasImageRoom, HasImages, HasItem, HasMap, HasNumber, HasPair, HasRoom, HasTruth, IsImagePut, IsPut};
ghost use Rattle.versions.specs.declared.version.TheConstants.{MOST_PAIRS};

use crate::imaging::with_image;
use bulk_work::Pair;
use hash_path::PathKey;
use std::alloc::Global;
use std::sync::Arc;
use trie_node::{NoMemory, Stamp};
use versions::{MOST_PAIRS, Refusal, Version, View};

/// The answer of a query for some of the pairs.
///
/// <!-- quoted from crates/tests_task_pool/src/tests.rt -->
/// ```rust
/// fn number<I>(part: &Part<ChosenKey, u64, I>) -> Option<u64> {
///     match part {
///         Part::Number(number) => Some(*number),
///         _ => None,
///     }
/// }
/// ```
#[derive(Drop)]
pub enum Part<K: PathKey, V, I> {
    /// How many pass.
    Number(u64),
    /// Whether some pass, or all.
    Truth(bool),
    /// A pair that passes.
    Found(Option<Pair<K, V>>),
    /// The map that is made of them.
    Made(Version<K, V>),
    /// The map of their images, and a view of it.
    Images(Version<K, V>, View<K, V>),
    /// Their items combined.
    Item(I),
}

impl<K: PathKey + Drop, V: Drop, I> Part<K, V, I> {
    /// The number of a part that has one.
    ///
    /// Cost: O(1), no lock. Refused: never.
    pub fn number(&self) -> u64
        requires { HasNumber self.now }
        ensures { self.now ≡ Part.Number result }
    {
        match self {
            Part::Number(number) => *number,
            _ => unreachable!(),
        }
    }

    /// The truth of a part that has one.
    ///
    /// Cost: O(1), no lock. Refused: never.
    pub fn truth(&self) -> bool
        requires { HasTruth self.now }
        ensures { self.now ≡ Part.Truth result }
    {
        match self {
            Part::Truth(truth) => *truth,
            _ => unreachable!(),
        }
    }

    /// The pair of a part that may have found one.
    ///
    /// Cost: O(1), no lock. Refused: never.
    pub fn found(&self) -> &Option<Pair<K, V>>
        requires { HasPair self.now }
        ensures { self.now ≡ Part.Found result.now }
    {
        match self {
            Part::Found(found) => found,
            _ => unreachable!(),
        }
    }

    /// The map of a part that made one.
    ///
    /// Cost: O(1), no lock. Refused: never.
    pub fn map(&self) -> &Version<K, V>
        requires { HasMap self.now }
        ensures { self.now ≡ Part.Made result.now }
    {
        match self {
            Part::Made(map) => map,
            _ => unreachable!(),
        }
    }

    /// The map of a part of images, and the view of it.
    ///
    /// Cost: O(1), no lock. Refused: never.
    pub fn images(&self) -> (&Version<K, V>, &View<K, V>)
        requires { HasImages self.now }
        ensures { self.now ≡ Part.Images result.0.now result.1.now }
    {
        match self {
            Part::Images(map, view) => (map, view),
            _ => unreachable!(),
        }
    }

    /// The same, moved out of the part.
    pub(crate) fn into_images(self) -> (Version<K, V>, View<K, V>)
        requires { HasImages self }
        ensures { self ≡ Part.Images result.0 result.1 }
    {
        match self {
            Part::Images(map, view) => (map, view),
            _ => unreachable!(),
        }
    }

    /// The item of a part that has one.
    ///
    /// Cost: O(1), no lock. Refused: never.
    pub fn item(&self) -> &I
        requires { HasItem self.now }
        ensures { self.now ≡ Part.Item result.now }
    {
        match self {
            Part::Item(item) => item,
            _ => unreachable!(),
        }
    }

    /// Puts a pair into the map of a part that made one. After `NoMemory` the part is as before.
    pub(crate) fn put(&mut self, alloc: Global, key: Arc<K>, value: Arc<V>) -> Result<(), NoMemory>
        requires { HasRoom self.old }
        ensures put { OnOk result (IsPut K.cmp self.old key.value value.value self.new) }
        ensures err { OnErr result (self.new ≡ self.old) }
    {
        match self {
            Part::Made(map) => match map.put(alloc, key, value) {
                Ok(_) => Ok(()),
                Err(Refusal::NoMemory) => Err(NoMemory),
                Err(_) => unreachable!(),
            },
            _ => unreachable!(),
        }
    }

    /// The same with another handle on the key, and a value that is shared first.
    pub(crate) fn put_value(
        &mut self,
        alloc: Global,
        key: &Arc<K>,
        value: V,
    ) -> Result<(), NoMemory>
        requires { HasRoom self.old }
        ensures put { OnOk result (IsPut K.cmp self.old key.now.value value self.new) }
        ensures err { OnErr result (self.new ≡ self.old) }
    {
        let value = Arc::new(alloc, value)?;
        let Ok(key) = Arc::try_clone(key) else {
            drop(value);
            return Err(NoMemory);
        };
        self.put(alloc, key, value)
    }

    /// Puts an image into the map of a part of images. After `NoMemory` the part is as before.
    pub(crate) fn put_image(
        &mut self,
        alloc: Global,
        key: Arc<K>,
        value: Arc<V>,
    ) -> Result<(), NoMemory>
        requires { HasImageRoom self.old }
        ensures put { OnOk result (IsImagePut K.cmp self.old key.value value.value self.new) }
        ensures err { OnErr result (self.new ≡ self.old) }
    {
        match self {
            Part::Images(map, view) => {
                let (next, seen) = with_image(alloc, map, key, value)?;
                drop(std::mem::replace(map, next));
                drop(std::mem::replace(view, seen));
                Ok(())
            }
            _ => unreachable!(),
        }
    }

    /// Puts another handle on a pair into the map of a part that made one. After `NoMemory` the part is as before.
    pub(crate) fn put_shared(
        &mut self,
        alloc: Global,
        key: &Arc<K>,
        value: &Arc<V>,
    ) -> Result<(), NoMemory>
        requires { HasRoom self.old }
        ensures put { OnOk result (IsPut K.cmp self.old key.now.value value.now.value self.new) }
        ensures err { OnErr result (self.new ≡ self.old) }
    {
        let key = Arc::try_clone(key)?;
        let Ok(value) = Arc::try_clone(value) else {
            drop(key);
            return Err(NoMemory);
        };
        self.put(alloc, key, value)
    }
}

/// Puts another part in this one's place.
pub(crate) fn replace<K: PathKey + Drop, V: Drop, I: Drop>(
    part: &mut Part<K, V, I>,
    next: Part<K, V, I>,
)
    ensures { part.new ≡ next }
{
    drop(std::mem::replace(part, next));
}

/// A map of a part, with no pairs: it has the largest limit, and no generation's stamp.
pub(crate) fn no_pairs<K: PathKey + Drop, V: Drop>(alloc: Global) -> Result<Version<K, V>, NoMemory>
    ensures entries { IfOk result (λ map. map.entries ≡ []) }
    ensures limit { IfOk result (λ map. map.limit ≡ MOST_PAIRS) }
    ensures stamp { IfOk result (λ map. map.stamp ≡ 0) }
{
    Version::empty(alloc, MOST_PAIRS, Stamp::LOOSE)
}
