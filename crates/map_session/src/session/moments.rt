//! The whole map at one moment of the history, which is then seen.
ghost use Rattle.std.specs.Prelude.{◌≡◌, ◌↔◌, ◌≤◌, ◌++◌, ◌∷◌, [], IfOk, IsTrue, List, None, OnErr, OnOk, length, map, option_map};
ghost use mathlib.Core.List.{IsPrefix};
ghost use Rattle.stripe.specs.Rules.{AllKeep};
ghost use Rattle.versions.specs.Map.{IsMap, Map, value_at};
ghost use Rattle.versions.specs.declared.version.TheConstants.{MOST_PAIRS};
ghost use Rattle.write_history.specs.declared.entry.Entry.{Entry};
ghost use Rattle.write_history.specs.declared.entry.Write.TheVariants.{Clear};
ghost use Rattle.write_history.specs.Histories.{value_in};
ghost use Rattle.write_history.specs.Signers.{Made, signed_once};

use super::Session;
use crate::handles::handles_in;
use hash_path::{PathKey, Sought};
use map_view::View;
use std::sync::Wait;
use stripes::{Keeps, STRIPES, clear_all, empty_maps, forks};
use trie_node::{NoMemory, Slots};
use united_roots::RootRow;
use write_history::{Gathered, Naming};

impl<'m, K: PathKey + Drop, V: Drop, P: Keeps<K, V>, J: Naming, S: Slots<K, V>> Session<
    'm,
    K,
    V,
    P,
    J,
    S,
>
where
    S::Key: Drop,
    S::Value: Drop,
{
    /// The map of one moment: each key has in it the value that it has in the history which is then seen.
    ///
    /// Cost: O(1), under all locks. Refused: `NoMemory`, if memory runs out.
    pub fn view<R: Wait>(&mut self, rt: &R) -> Result<View<K, V, P, S>, NoMemory>
        ensures moment { IfOk result (λ view. (key : K) → value_at K.cmp view key ≡ value_in K.cmp K.path_of self.new.log key) }
        ensures kept { IfOk result (λ view. AllKeep K.cmp P.holds view) }
        ensures seen { IsPrefix self.old.log self.new.log }
        ensures signer { self.new.signer ≡ self.old.signer }
    {
        let room = RootRow::new(self.alloc)?;
        let map = self.row.moment(rt, self.alloc, room, &mut self.front)?;
        View::of(self.alloc, map)
    }

    /// How many pairs there are at one moment: as many as the map has in which each key has the value that it has in the
    /// history which is then seen.
    ///
    /// Cost: O(1), under all locks. Refused: never.
    pub fn len<R: Wait>(&mut self, rt: &R) -> u64
        ensures count { (m : Map K V) × IsMap K.cmp m × ((key : K) → value_at K.cmp m key ≡ value_in K.cmp K.path_of self.new.log key) × (result ≡ length m) }
        ensures few { result ≤ MOST_PAIRS }
        ensures seen { IsPrefix self.old.log self.new.log }
        ensures signer { self.new.signer ≡ self.old.signer }
    {
        self.row.count_from(rt, 0, &mut self.front)
    }

    /// Whether no key has a value in the history which is then seen.
    ///
    /// Cost: O(1), under all locks, as `len`. Refused: never.
    pub fn is_empty<R: Wait>(&mut self, rt: &R) -> bool
        ensures none { IsTrue result ↔ ((key : K) → value_in K.cmp K.path_of self.new.log key ≡ None) }
        ensures seen { IsPrefix self.old.log self.new.log }
        ensures signer { self.new.signer ≡ self.old.signer }
    {
        self.len(rt) == 0
    }

    /// The values of keys, in the order of the keys, at one moment: for each the value that it has in the history which
    /// is then seen, or none. A view is taken and asked, so nobody waits for the look-ups.
    ///
    /// Cost: O(k log n) for k keys, under all locks for the view alone, and memory for the list. Refused: `NoMemory`,
    /// if memory runs out, or a handle on a value cannot be cloned.
    pub fn get_many<R: Wait, Q: Sought<K>>(
        &mut self,
        rt: &R,
        keys: &[Q],
    ) -> Result<Vec<Option<S::Value>>, NoMemory>
        ensures read { IfOk result (λ values. map (option_map S.value_of) values.items ≡ map (λ key. value_in K.cmp K.path_of self.new.log (Q.key_of key)) keys.now) }
        ensures kept { IfOk result (λ values. (m : Map K V) × AllKeep K.cmp P.holds m × (map (option_map S.value_of) values.items ≡ map (λ key. value_at K.cmp m (Q.key_of key)) keys.now)) }
        ensures seen { IsPrefix self.old.log self.new.log }
        ensures signer { self.new.signer ≡ self.old.signer }
    {
        let view = self.view(rt)?;
        view.law();
        let values = handles_in(self.alloc, &view, keys);
        drop(view);
        values
    }

    /// Removes all pairs, as one entry of the history, which is the last that was seen then.
    ///
    /// Cost: O(1), under all locks; then what the drops take. Refused: `NoMemory`, if memory runs out. Nothing was
    /// written or seen then.
    pub fn clear<R: Wait>(&mut self, rt: &R) -> Result<(), NoMemory>
        ensures wrote { OnOk result ((h : List (Entry K V)) × IsPrefix self.old.log h × Made K.path_of self.old.signer h × (self.new.log ≡ h ++ record { by = self.old.signer.by; write = Clear } ∷ [])) }
        ensures signer { OnOk result (self.new.signer ≡ signed_once self.old.signer) }
        ensures refused { OnErr result (self.new ≡ self.old) }
    {
        let empty_maps = empty_maps(self.alloc)?;
        let room = Vec::with_capacity(self.alloc, STRIPES as usize)?;
        let held = self.row.all(rt, self.alloc)?;
        // The pairs are dropped once the locks are free.
        let before = forks(room, &held)?;
        self.front.law();
        let all = Gathered::after(&self.front);
        let cleared = clear_all(held, empty_maps, all, &mut self.author);
        cleared.tell(&mut self.front);
        drop(cleared);
        drop(before);
        Ok(())
    }
}
