//! The values of several keys of a view.
ghost use Rattle.std.specs.Prelude.{◌≡◌, IfOk, map, option_map};
ghost use Rattle.versions.specs.Map.{value_at};

use super::View;
use hash_path::{PathKey, Sought};
use stripes::Keeps;
use trie_lookups::find_many;
use trie_node::{NoMemory, Slots};

impl<K: PathKey, V, P: Keeps<K, V>, S: Slots<K, V>> View<K, V, P, S>
where
    S::Key: Drop,
    S::Value: Drop,
{
    /// The values of keys, in the order of the keys: for each what `get` returns. They are lent, and no memory is
    /// requested but for the list.
    ///
    /// Eight keys are looked up side by side: a look-up waits for memory at each level, and those of other keys do not
    /// wait for it. So in a map larger than the caches a key takes less time than by `get`. In a small map it takes about
    /// as long, and a list of one key nearly twice as long.
    ///
    /// Cost: O(k log n) for k keys, no lock. Refused: `NoMemory`, if memory runs out.
    pub fn get_many<Q: Sought<K>>(&self, keys: &[Q]) -> Result<Vec<Option<&S::Value>>, NoMemory>
        ensures { IfOk result (λ values. map (option_map (λ value. S.value_of value.now)) values.items ≡ map (λ key. value_at K.cmp self.now (Q.key_of key)) keys.now) }
    {
        find_many(self.alloc, self.plain.root(), keys)
    }
}
