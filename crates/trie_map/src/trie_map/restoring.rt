//! Maps whose whole content comes from a view, or from a map of one owner.
ghost use Rattle.std.specs.Prelude.{◌≡◌, IfOk};
ghost use Rattle.hash_path.specs.Digits.{fan_out};
ghost use Rattle.stripe.specs.Rules.{AllKeep};
ghost use Rattle.stripes.specs.Stripes.{digits_of, up_to};

use super::TrieMap;
use hash_path::PathKey;
use map_session::PutError;
use map_view::View;
use std::alloc::Global;
use std::sync::Wait;
use stripes::{Keeps, Stripe, Stripes, exchange_all, joined_while_held, parted};
use trie_node::Slots;
use united_roots::RootRow;
use versions::Version;
use write_history::Unnamed;

/// What is made shares every key, every value and nearly every node with what it is made of: 33 nodes are new, however
/// many pairs there are.
impl<K: PathKey + Drop, V: Drop, P: Keeps<K, V>, S: Slots<K, V>> TrieMap<K, V, P, Unnamed, S>
where
    S::Key: Drop,
    S::Value: Drop,
{
    /// A map with the pairs of a view.
    ///
    /// That each of its pairs keeps the rule is part of its type. Which pairs it has no clause can say: tests do.
    ///
    /// Cost: O(1), no lock. Refused: `Full`, where a stripe would have more than 524,288 pairs; `NoMemory`, if memory
    /// runs out.
    pub fn from_view<R: AllocGlobal>(
        rt: &R,
        view: &View<K, V, P, S>,
    ) -> Result<TrieMap<K, V, P, Unnamed, S>, PutError> {
        TrieMap::from_version(rt, view.whole())
    }

    /// A map with the pairs of a map of one owner, as `filter` and `map_values` make them.
    ///
    /// Cost: O(1), no lock. Refused: as `from_view`.
    pub fn from_version<R: AllocGlobal>(
        rt: &R,
        version: &Version<K, V, S>,
    ) -> Result<TrieMap<K, V, P, Unnamed, S>, PutError>
        requires rule { AllKeep K.cmp P.holds version.now.entries }
    {
        let alloc = rt.alloc();
        Ok(TrieMap {
            alloc,
            row: Stripes::new(alloc, parts(alloc, version)?)?,
        })
    }

    /// Puts the content of a view back, in place of all that the map has: each key is mapped as it is there, and no
    /// other key. It is one step, at one moment when all locks are held, and returns the view of what there was. So it
    /// undoes all writes since the view was taken, and `restore` of what it returns undoes that. The view may be one of
    /// another map, as of a snapshot.
    ///
    /// Cost: O(1), under all locks. Refused: `Full`, where a stripe would have more than 524,288 pairs, which no view of
    /// a map has; `NoMemory`, if memory runs out.
    pub fn restore<R: Wait>(
        &self,
        rt: &R,
        view: &View<K, V, P, S>,
    ) -> Result<View<K, V, P, S>, PutError>
        ensures before { IfOk result (λ before. AllKeep K.cmp P.holds before) }
    {
        self.restore_version(rt, view.whole())
    }

    /// The same with a map of one owner, as `filter` and `map_values` make them.
    ///
    /// Cost: O(1), under all locks. Refused: as `restore`.
    pub fn restore_version<R: Wait>(
        &self,
        rt: &R,
        version: &Version<K, V, S>,
    ) -> Result<View<K, V, P, S>, PutError>
        requires rule { AllKeep K.cmp P.holds version.now.entries }
        ensures before { IfOk result (λ before. AllKeep K.cmp P.holds before) }
    {
        let mut others = parts(self.alloc, version)?;
        let room = RootRow::new(self.alloc)?;
        let held = self.row.all(rt, self.alloc)?;
        // What may be refused comes before the first stripe is written.
        let before = View::of(self.alloc, joined_while_held(self.alloc, room, &held)?)?;
        exchange_all(held, &mut others);
        Ok(before)
    }
}

// The stripes of a map.
fn parts<K: PathKey + Drop, V: Drop, P: Keeps<K, V>, S: Slots<K, V>>(
    alloc: Global,
    version: &Version<K, V, S>,
) -> Result<Vec<Stripe<K, V, P, Unnamed, S>>, PutError>
where
    S::Key: Drop,
    S::Value: Drop,
    requires rule { AllKeep K.cmp P.holds version.now.entries }
    ensures digits { IfOk result (λ stripes. digits_of stripes.items ≡ up_to fan_out) }
{
    match parted(alloc, version) {
        Ok(stripes) => Ok(stripes),
        Err(refusal) => Err(PutError::of(refusal)),
    }
}
