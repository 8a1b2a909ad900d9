//! What a key is looked up by.

ghost use Rattle.std.specs.Prelude.{◌≡◌};

use crate::key::PathKey;
use crate::word::Path;
use std::cmp::Ordering;
use std::sync::Arc;

/// What a key is looked up by: a reference to a key, or what a key type lets stand for one.
///
/// <!-- quoted from crates/tests_trie_map/src/tests/texts.rt -->
/// ```rust
/// fn got<R: Wait>(rt: &R, map: &TrieMap<ByteText, u64>, text: &str) -> Result<Option<u64>, NoMemory> {
///     Ok(map.get(rt, text)?.map(|value| *value))
/// }
/// ```
///
/// As `Borrow` does for the maps of the standard library, it spares the caller making a key in order to look it up.
/// What stands for a key has the key's path word and its order. A map that threads share calls `compare_with` under its
/// locks, so it must not call the map.
pub trait Sought<K: PathKey>: Copy {
    /// The key that it stands for.
    ghost key_of: { Self → K };

    /// The path word of that key.
    fn path_sought(self) -> Path
        ensures { result.0 ≡ K.path_of (key_of self) };

    /// How that key compares with this one.
    fn compare_with(self, key: &K) -> Ordering
        ensures { result ≡ K.Ord.cmp (key_of self) key.now };
}

impl<'a, K: PathKey> Sought<K> for &'a K {
    ghost key_of = { λ reference. reference.now };

    fn path_sought(self) -> Path {
        self.path()
    }

    fn compare_with(self, key: &K) -> Ordering {
        self.cmp(key)
    }
}

impl<'a, K: PathKey> Sought<K> for &'a Arc<K> {
    ghost key_of = { λ reference. reference.now.value };

    fn path_sought(self) -> Path {
        self.as_ref().path()
    }

    fn compare_with(self, key: &K) -> Ordering {
        self.as_ref().cmp(key)
    }
}
