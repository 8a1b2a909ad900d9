//! Tests of pairs that say what they mean.
ghost use Rattle.std.specs.Prelude.{◌≡◌, Bool};

use trie_map::{PairFn, Stored, StoredTest};

/// A test of pairs, beside what it means. A closure needs none of this: a [`View`](crate::View) takes it as it is. A
/// query, which is kept beside what it means, does.
///
/// <!-- quoted from crates/tambyulo/src/tests.rt -->
/// ```rust
/// impl Passes<u64, u64> for Is {
///     ghost use Rattle.std.specs.Prelude.{◌==◌};
///
///     ghost meaning = { λ test key value. value == test.0 };
///
///     fn passes(&self, _key: &u64, value: &u64) -> bool {
///         *value == self.0
///     }
/// }
/// ```
pub trait Passes<K, V> {
    ghost use Rattle.std.specs.Prelude.{Bool};

    /// Whether a pair passes.
    ghost meaning: { Self → K → V → Bool };

    /// Whether the pair passes.
    fn passes(&self, key: &K, value: &V) -> bool
        ensures { result ≡ meaning self.now key.now value.now };
}

/// A test that says what it means, as a query asks it.
///
/// <!-- quoted from crates/tambyulo/src/tests.rt -->
/// ```rust
/// let stored = test_by::<u64, u64, Is>(Is(7));
/// let passes = |value: u64| stored.closure().answer(&1, &value);
/// ```
#[derive(Drop)]
pub struct Tested<T>(pub T);

impl<K, V, T: Passes<K, V>> PairFn<K, V, bool> for Tested<T> {
    ghost use Rattle.std.specs.Prelude.{◌≡◌};

    ghost can = { λ t. Unit {0} };

    ghost gives = { λ t k v r. r ≡ T.meaning t.0 k v };

    fn answer(&self, key: &K, value: &V) -> bool {
        self.0.passes(key, value)
    }
}

/// The test, beside the fact that it has one answer for each pair.
///
/// Cost: O(1), no lock. Refused: never.
pub fn test_by<K, V, T: Passes<K, V>>(test: T) -> StoredTest<K, V, Tested<T>>
    ensures { result.call.0 ≡ test }
{
    Stored::new(Tested(test))
}
