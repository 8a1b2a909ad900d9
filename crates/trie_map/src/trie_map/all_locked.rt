//! Calls that hold all locks at one moment.
ghost use Rattle.std.specs.Prelude.{◌≡◌, IfOk, length, map};
ghost use Rattle.std.specs.Sync.Mutex.{mutex_guard_value};
ghost use Rattle.hash_path.specs.Digits.{fan_out};
ghost use Rattle.stripe.specs.Rules.{AllKeep};
ghost use Rattle.stripes.specs.Stripes.{digits_of, up_to};

use super::TrieMap;
use hash_path::PathKey;
use map_view::View;
use std::sync::Wait;
use stripes::{
    EmptyMap, Guards, Keeps, STRIPES, Stripe, Stripes, clear_all, empty_maps, forks, joined,
};
use trie_node::{NoMemory, Slots};
use united_roots::RootRow;
use write_history::{Author, Naming, Unnamed};

impl<K: PathKey + Drop, V: Drop, P: Keeps<K, V>, J: Naming, S: Slots<K, V>> TrieMap<K, V, P, J, S>
where
    S::Key: Drop,
    S::Value: Drop,
{
    /// Removes all pairs at one moment of the call. They are dropped once the locks are free.
    ///
    /// Cost: O(1), under all locks; then what the drops take. Refused: `NoMemory`, if memory runs out.
    pub fn clear<R: Wait>(&self, rt: &R) -> Result<(), NoMemory> {
        let empty_maps = empty_maps(self.alloc)?;
        let room = Vec::with_capacity(self.alloc, STRIPES as usize)?;
        let held = self.row.all(rt, self.alloc)?;
        // The pairs are dropped once the locks are free.
        let before = forks(room, &held)?;
        Self::clear_held(held, empty_maps);
        drop(before);
        Ok(())
    }

    // Gives each stripe an empty map, and frees the locks.
    fn clear_held(held: Guards<'_, K, V, P, J, S>, empty_maps: Vec<EmptyMap<K, V, S>>)
        requires digits { digits_of (map mutex_guard_value held.items) ≡ up_to fan_out }
        requires maps { length empty_maps.items ≡ fan_out }
    {
        if let Some(stripe) = held.first() {
            let all = stripe.gathered();
            drop(clear_all(held, empty_maps, all, &mut Author::nobody()));
        } else {
            drop(held);
            drop(empty_maps);
        }
    }

    /// The map as it stands at one moment of the call. The view keeps the nodes of that moment.
    ///
    /// Its clause says that each pair keeps the rule; that it has the pairs of one moment, that of [`Session::view`].
    /// Here each step of it is proved (`Stripes::all`, `joined`), and tests show it whole.
    ///
    /// Cost: O(1), under all locks. Refused: `NoMemory`, if memory runs out.
    pub fn view<R: Wait>(&self, rt: &R) -> Result<View<K, V, P, S>, NoMemory>
        ensures { IfOk result (λ view. AllKeep K.cmp P.holds view) }
    {
        let room = RootRow::new(self.alloc)?;
        let held = self.row.all(rt, self.alloc)?;
        let map = joined(self.alloc, room, held)?;
        View::of(self.alloc, map)
    }

    /// Another map with the pairs of one moment of the call, and locks of its own: the two go separate ways.
    ///
    /// That each of its pairs keeps the rule is part of its type. Which pairs it has no clause says: tests do.
    ///
    /// Cost: O(1), under all locks. Refused: `NoMemory`, if memory runs out.
    pub fn snapshot<R: Wait>(&self, rt: &R) -> Result<TrieMap<K, V, P, Unnamed, S>, NoMemory> {
        Ok(TrieMap {
            alloc: self.alloc,
            row: Stripes::new(self.alloc, self.forks(rt)?)?,
        })
    }

    // A fork of each stripe, all as they stand at one moment when all are held.
    fn forks<R: Wait>(&self, rt: &R) -> Result<Vec<Stripe<K, V, P, Unnamed, S>>, NoMemory>
        ensures digits { IfOk result (λ stripes. digits_of stripes.items ≡ up_to fan_out) }
        ensures count { IfOk result (λ stripes. length stripes.items ≡ fan_out) }
    {
        let room = Vec::with_capacity(self.alloc, STRIPES as usize)?;
        let held = self.row.all(rt, self.alloc)?;
        forks(room, &held)
    }
}
