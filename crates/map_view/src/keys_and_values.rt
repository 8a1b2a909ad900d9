//! Walks over the keys, or the values, of a view.
ghost use Rattle.std.specs.Prelude.{◌≡◌, map};
ghost use Rattle.std.specs.Iterator.{YieldsFirstBy, item_count};

use hash_path::PathKey;
use iter::Pairs;
use std::marker::Model;
use trie_node::{KeySlots, Shared, Slots, ValueSlots};

/// The keys that are still to come, in the order of `View::pairs`. A step takes amortized O(1), no lock and no memory.
///
/// <!-- quoted from crates/tests_trie_map/src/tests/asked.rt -->
/// ```rust
/// for key in view.keys() {
///     digits = digits.wrapping_mul(10).wrapping_add(key.id);
/// }
/// ```
#[derive(Drop)]
pub struct Keys<'a, K: PathKey, V, S: Slots<K, V> = Shared> {
    pairs: Pairs<'a, K, V, S>,
}

impl<'a, K: PathKey, V, S: Slots<K, V>> Model for Keys<'a, K, V, S> {
    ghost use Rattle.std.specs.Prelude.{List, map};

    ghost Value = { List K };

    ghost view = { λ a. map (λ pair. pair.0) a.pairs.rest };
}

impl<'a, K: PathKey, V, S: Slots<K, V>> Keys<'a, K, V, S> {
    /// The keys of the pairs that are still to come.
    pub(crate) fn of(pairs: Pairs<'a, K, V, S>) -> Keys<'a, K, V, S>
        ensures { result ≡ map (λ pair. pair.0) pairs.entry.rest }
    {
        Keys { pairs }
    }
}

impl<'a, K: PathKey, V, S: Slots<K, V> + KeySlots<K, Key = A>, A: 'a> Iterator
    for Keys<'a, K, V, S> {
    type Item = &'a A;

    ghost next_gives = { YieldsFirstBy (λ key. S.key_of key.now) (λ keys. keys) };

    ghost remaining = { item_count (λ keys. keys) };

    fn next(&mut self) -> Option<&'a A> {
        match self.pairs.step() {
            Some((key, _)) => Some(key),
            None => None,
        }
    }
}

/// The values that are still to come, in the order of `View::pairs`. A step takes amortized O(1), no lock and no
/// memory.
///
/// <!-- quoted from crates/tests_trie_map/src/tests/asked.rt -->
/// ```rust
/// for value in view.values() {
///     digits = digits.wrapping_mul(10).wrapping_add(**value);
/// }
/// ```
#[derive(Drop)]
pub struct Values<'a, K: PathKey, V, S: Slots<K, V> = Shared> {
    pairs: Pairs<'a, K, V, S>,
}

impl<'a, K: PathKey, V, S: Slots<K, V>> Model for Values<'a, K, V, S> {
    ghost use Rattle.std.specs.Prelude.{List, map};

    ghost Value = { List V };

    ghost view = { λ a. map (λ pair. pair.1) a.pairs.rest };
}

impl<'a, K: PathKey, V, S: Slots<K, V>> Values<'a, K, V, S> {
    /// The values of the pairs that are still to come.
    pub(crate) fn of(pairs: Pairs<'a, K, V, S>) -> Values<'a, K, V, S>
        ensures { result ≡ map (λ pair. pair.1) pairs.entry.rest }
    {
        Values { pairs }
    }
}

impl<'a, K: PathKey, V, S: Slots<K, V> + ValueSlots<V, Value = B>, B: 'a> Iterator
    for Values<'a, K, V, S> {
    type Item = &'a B;

    ghost next_gives = { YieldsFirstBy (λ value. S.value_of value.now) (λ values. values) };

    ghost remaining = { item_count (λ values. values) };

    fn next(&mut self) -> Option<&'a B> {
        match self.pairs.step() {
            Some((_, value)) => Some(value),
            None => None,
        }
    }
}
