//! A pair with its score.
ghost use Rattle.std.specs.Prelude.{◌≡◌, IfOk};

use std::marker::Model;
use trie_node::{NoMemory, Shared, Slots};

/// A pair of a map with its score.
///
/// <!-- quoted from crates/tests_trie_map/src/tests/ranks.rt -->
/// ```rust
/// for (place, pair) in top.as_slice().iter().enumerate() {
///     assert_is(&rt, pair.score(), 99 - place as u64);
///     assert_is(&rt, **pair.value(), 99 - place as u64);
///     assert_is(&rt, u64::from(pair.key().id) * 37 % 100, pair.score());
/// }
/// ```
///
/// Contracts see the score, the key and the value.
#[derive(Drop)]
pub struct Scored<K, V, N, S: Slots<K, V> = Shared> {
    score: N,
    key: S::Key,
    value: S::Value,
}

impl<K, V, N, S: Slots<K, V>> Model for Scored<K, V, N, S> {
    ghost use Rattle.top_pairs.specs.Ranks.{Listed};

    ghost Value = { Listed K V N };

    ghost view = { λ s. record { score = s.score; key = S.key_of s.key; value = S.value_of s.value } };
}

impl<K, V, N: Copy, S: Slots<K, V>> Scored<K, V, N, S>
where
    S::Key: Drop,
    S::Value: Drop,
{
    /// The pair of these handles with the score. Only the handles are cloned.
    pub(crate) fn of(
        score: N,
        key: &S::Key,
        value: &S::Value,
    ) -> Result<Scored<K, V, N, S>, NoMemory>
        ensures { IfOk result (λ item. item ≡ record { score = score; key = S.key_of key.now; value = S.value_of value.now }) }
    {
        Ok(Scored {
            score,
            key: S::another_key(key)?,
            value: S::another_value(value)?,
        })
    }

    /// The score of the pair.
    ///
    /// Cost: O(1), no lock. Refused: never.
    pub fn score(&self) -> N
        ensures { result ≡ self.now.score }
    {
        self.score
    }

    /// A handle on the key of the pair.
    ///
    /// Cost: O(1), no lock. Refused: never.
    pub fn key(&self) -> &S::Key
        ensures { S.key_of result.now ≡ self.now.key }
    {
        &self.key
    }

    /// A handle on the value of the pair.
    ///
    /// Cost: O(1), no lock. Refused: never.
    pub fn value(&self) -> &S::Value
        ensures { S.value_of result.now ≡ self.now.value }
    {
        &self.value
    }

    /// The same pair with its score, by other handles.
    ///
    /// Cost: O(1), no lock. Refused: `NoMemory`, where a handle cannot be cloned.
    pub fn try_clone(&self) -> Result<Scored<K, V, N, S>, NoMemory>
        ensures { IfOk result (λ item. item ≡ self.now) }
    {
        Scored::of(self.score, &self.key, &self.value)
    }
}
