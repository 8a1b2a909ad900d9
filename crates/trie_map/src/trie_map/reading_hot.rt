//! Readers of a map's hot keys.
ghost use Rattle.std.specs.Prelude.{◌≡◌};

use super::TrieMap;
use hash_path::PathKey;
use map_reader::{Readers, Since};
use stripes::Keeps;
use trie_node::Slots;
use write_history::{Front, Naming, Unnamed};

impl<K: PathKey + Drop, V: Drop, P: Keeps<K, V>, S: Slots<K, V>> TrieMap<K, V, P, Unnamed, S>
where
    S::Key: Drop,
    S::Value: Drop,
{
    /// What the readers of this map share, with no base yet.
    ///
    /// Threads share it by reference, and each makes a [`Reader`](crate::Reader) of its own by
    /// [`reader`](crate::Readers::reader), which reads keys mostly with no lock. Make one for all threads that read the
    /// map, and keep it for as long as they do: of two, each ends the bases of the other.
    ///
    /// Cost: O(1), no lock. Refused: never.
    pub fn readers(&self) -> Readers<'_, K, V, P, Unnamed, Unnamed, S> {
        Readers::new(self.alloc, &self.row)
    }
}

impl<K: PathKey + Drop, V: Drop, P: Keeps<K, V>, J: Naming, S: Slots<K, V>> TrieMap<K, V, P, J, S>
where
    S::Key: Drop,
    S::Value: Drop,
{
    /// The same of a map that has a history: what a reader finds is what that leaves the key, at a moment no older than
    /// what the front has seen, as [`Session::front`](crate::Session::front) returns it. `S` names that
    /// ([`Since`](crate::Since)); `Unnamed` is the history with no write.
    ///
    /// Cost: O(1), no lock. Refused: never.
    pub fn readers_since<W: Since<K, V>>(
        &self,
        front: &Front<K, V, J>,
    ) -> Readers<'_, K, V, P, J, W, S>
        requires { W.since ≡ front.now }
    {
        Readers::since(self.alloc, &self.row, front)
    }
}
