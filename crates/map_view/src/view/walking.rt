//! Walks over a view.
ghost use Rattle.std.specs.Prelude.{◌≡◌, All, IsPermutation};
ghost use Rattle.trie_shape.specs.Order.{walked};

use super::View;
use hash_path::PathKey;
use iter::{BunchedPairs, Pairs, bunches_of_root, walk_of_root};
use stripes::Keeps;
use trie_node::{KeySlots, Slots, ValueSlots};

impl<K: PathKey, V, P: Keeps<K, V>, S: Slots<K, V>> View<K, V, P, S>
where
    S::Key: Drop,
    S::Value: Drop,
{
    /// A walk over all pairs, as `pairs` gives it, and as `for (key, value) in &view` walks it.
    ///
    /// Cost: O(1), no lock, and O(n) for the walk. Refused: never.
    pub fn iter(&self) -> Pairs<'_, K, V, S>
        ensures rest { result.rest ≡ walked K.cmp K.path_of self.now }
        ensures once { IsPermutation self.now result.rest }
        ensures kept { All (λ pair. P.holds pair.0 pair.1) result.rest }
    {
        self.law();
        walk_of_root(self.alloc, self.plain.root())
    }

    /// The same walk, which takes its pairs from the trie in bunches: for calls that mostly look at all of them.
    ///
    /// Cost: O(1), no lock, and O(n) for the walk. Refused: never.
    pub fn bunched(&self) -> BunchedPairs<'_, K, V, S>
        ensures rest { result ≡ walked K.cmp K.path_of self.now }
        ensures once { IsPermutation self.now result }
        ensures kept { All (λ pair. P.holds pair.0 pair.1) result }
    {
        self.law();
        bunches_of_root(self.alloc, self.plain.root())
    }
}

impl<
    'a,
    K: PathKey,
    V,
    P: Keeps<K, V>,
    S: Slots<K, V> + KeySlots<K, Key = A> + ValueSlots<V, Value = B>,
    A: Drop + 'a,
    B: Drop + 'a,
> IntoIterator for &'a View<K, V, P, S> {
    type Item = (&'a A, &'a B);

    type IntoIter = Pairs<'a, K, V, S>;

    ghost use Rattle.std.specs.Prelude.{◌≡◌, All, IsPermutation};
    ghost use Rattle.trie_shape.specs.Order.{walked};

    ghost into_iter_gives = { λ view walk. (walk.rest ≡ walked K.cmp K.path_of view.now) × IsPermutation view.now walk.rest × All (λ pair. P.holds pair.0 pair.1) walk.rest };

    fn into_iter(self) -> Pairs<'a, K, V, S> {
        self.iter()
    }
}
