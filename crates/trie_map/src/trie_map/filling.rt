//! Maps that are filled with many pairs.
ghost use Rattle.std.specs.Iterator.{IsFiniteIterable};
ghost use Rattle.std.specs.Prelude.{All};
ghost use Rattle.map_session.specs.Iterables.{EachKeeps};

use super::TrieMap;
use hash_path::PathKey;
use map_session::PutError;
use std::sync::Wait;
use stripes::Keeps;
use trie_node::Slots;
use write_history::{Naming, Unnamed};

impl<K: PathKey + Drop, V: Drop, P: Keeps<K, V>, S: Slots<K, V>> TrieMap<K, V, P, Unnamed, S>
where
    S::Key: Drop,
    S::Value: Drop,
{
    /// A map of the pairs, which are put in order: of several with one key the last stays. The iterator has to end.
    ///
    /// Cost: O(n log n) for n pairs, a lock each. Refused: as `put`.
    pub fn from_pairs<R: AllocGlobal + Wait, I: IntoIterator<Item = (K, V)> + Drop>(
        rt: &R,
        pairs: I,
    ) -> Result<TrieMap<K, V, P, Unnamed, S>, PutError>
        requires ends { IsFiniteIterable I.into_iter_gives I.IntoIter.can_next I.IntoIter.remaining pairs }
        requires rule { EachKeeps P.holds I.into_iter_gives I.IntoIter.next_gives pairs }
    {
        let map = TrieMap::new(rt)?;
        map.extend_from(rt, pairs)?;
        Ok(map)
    }
}

impl<K: PathKey + Drop, V: Drop, P: Keeps<K, V>, J: Naming, S: Slots<K, V>> TrieMap<K, V, P, J, S>
where
    S::Key: Drop,
    S::Value: Drop,
{
    /// Puts each of the pairs, in order. Where one is refused, those before it are in the map.
    ///
    /// Cost: O(k log n) for k pairs, a lock each. Refused: as `put`.
    pub fn extend<R: Wait>(&self, rt: &R, pairs: Vec<(K, V)>) -> Result<(), PutError>
        requires { All (λ pair. P.holds pair.0 pair.1) pairs.items }
    {
        for (key, value) in pairs {
            self.put(rt, key, value)?;
        }
        Ok(())
    }

    /// Puts each pair that an iterator gives, in order. Where one is refused, those before it are in the map.
    ///
    /// The iterator has to end, and runs with no lock held. Where the map has a rule, the proofs' `list_keeps` shows
    /// that the pairs of an iterator that gives a list in order keep it, and `vec_keeps` those of an iterator over a
    /// `Vec` (`specs/Iterables.antt` of `map_session`).
    ///
    /// Cost: O(k log n) for k pairs, a lock each. Refused: as `put`.
    pub fn extend_from<R: Wait, I: IntoIterator<Item = (K, V)>>(
        &self,
        rt: &R,
        pairs: I,
    ) -> Result<(), PutError>
        requires ends { IsFiniteIterable I.into_iter_gives I.IntoIter.can_next I.IntoIter.remaining pairs }
        requires rule { EachKeeps P.holds I.into_iter_gives I.IntoIter.next_gives pairs }
    {
        for (key, value) in pairs {
            self.put(rt, key, value)?;
        }
        Ok(())
    }
}
