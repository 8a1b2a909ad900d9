//! Maps that are made of the pairs of a view.
ghost use Rattle.std.specs.Prelude.{◌≡◌, ◌≤◌, Bool, IfOk, length};
ghost use Rattle.bulk_work.specs.Answers.{passing};
ghost use Rattle.bulk_ops.specs.Meanings.{MayAnswer, Means};
ghost use Rattle.map_view.specs.Questions.{changed};
ghost use Rattle.trie_filter.specs.Passing.{AreChosen};
ghost use Rattle.trie_values.specs.Values.{AreGiven};
ghost use Rattle.versions.specs.declared.version.TheConstants.{MOST_PAIRS};

use super::View;
use hash_path::PathKey;
use std::alloc::Global;
use stripes::Keeps;
use trie_filter::with_passing;
use trie_node::{NoMemory, Slots, Stamp, ValueSlots};
use trie_values::with_new_values;
use versions::{MOST_PAIRS, Version};

/// Each map that is made has one owner, who may write it; it shares its keys, and the values that it has of the view,
/// with the view. It is made on the caller's thread, with no lock held, by the shape of the view's trie: no key is hashed
/// or compared.
impl<K: PathKey, V, P: Keeps<K, V>, S: Slots<K, V>> View<K, V, P, S>
where
    S::Key: Drop,
    S::Value: Drop,
{
    /// The map of the pairs that pass the test. It asks for memory for the nodes of these pairs alone. Whatever the closure
    /// means, it may have answered true at each pair of the map, and false at each that is left out.
    ///
    /// Cost: O(n), no lock. Refused: `NoMemory`, if memory runs out.
    pub fn filter<F: Fn(&K, &V) -> bool>(&self, test: F) -> Result<Version<K, V, S>, NoMemory>
        requires callable { F.IsAlwaysCallable test }
        ensures entries { IfOk result (λ made. (p : K → V → Bool) → Means (MayAnswer F.Fn test) p → made.entries ≡ passing p self.now) }
        ensures chosen { IfOk result (λ made. AreChosen (MayAnswer F.Fn test) self.now made.entries) }
        ensures few { IfOk result (λ made. length made.entries ≤ length self.now) }
        ensures limit { IfOk result (λ made. made.limit ≡ MOST_PAIRS) }
    {
        self.len();
        let root = with_passing(self.alloc, self.plain.root(), Stamp::LOOSE, &test)?;
        Ok(Version::from_root(root, MOST_PAIRS, Stamp::LOOSE))
    }

    /// The map of the same keys, each with what the closure makes of its pair: whatever it means, with a value that it may
    /// have made.
    ///
    /// Cost: O(n), no lock, and memory for each node and each value. Refused: `NoMemory`, if memory runs out.
    pub fn map_values<W: Drop, G: Fn(&K, &V) -> W>(
        &self,
        change: G,
    ) -> Result<Version<K, W, S>, NoMemory>
    where
        S: Slots<K, W>,
        <S as ValueSlots<W>>::Value: Drop,
        requires callable { G.IsAlwaysCallable change }
        ensures entries { IfOk result (λ made. (f : K → V → W) → Means (MayAnswer G.Fn change) f → made.entries ≡ changed f self.now) }
        ensures given { IfOk result (λ made. AreGiven (MayAnswer G.Fn change) self.now made.entries) }
        ensures few { IfOk result (λ made. length made.entries ≤ length self.now) }
        ensures limit { IfOk result (λ made. made.limit ≡ MOST_PAIRS) }
    {
        self.len();
        let root = with_new_values(self.alloc, self.plain.root(), Stamp::LOOSE, &change)?;
        Ok(Version::from_root(root, MOST_PAIRS, Stamp::LOOSE))
    }
}
