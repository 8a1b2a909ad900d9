//! Operations that combine items in any order.
ghost use Rattle.std.specs.Prelude.{◌≡◌};
ghost use Rattle.combiner.specs.Monoids.{IsAssociative, IsClosed, IsCommutative, IsNeutral};

/// An operation on items that is associative and commutative, with a unit.
///
/// <!-- quoted from crates/tests_bulk_ops/src/tests/combining.rt -->
/// ```rust
/// assert_is(&rt, Least.op(&Some(4), &Some(-3)), Some(-3));
/// let least = Least.op(&Some(i64::MIN), &Least.unit());
/// assert_is(&rt, least, Some(i64::MIN));
/// ```
///
/// A crew calls `unit` and `op` on its threads, several at once. At the finish of a job of a `SharedMap`, `op` runs
/// under the lock of the table, so it must not call the map.
pub trait Monoid {
    /// What is combined.
    type Item: Drop;

    /// It is one of the items. (Of an `i128`, for one, a law speaks at every integer.)
    ghost is_item: { Self → Self.Item → Type 0 };

    /// The item that changes no other.
    ghost unit_of: { Self → Self.Item };

    /// Two items combined.
    ghost combine: { Self → Self.Item → Self.Item → Self.Item };

    /// The item that changes no other.
    fn unit(&self) -> Self::Item
        ensures { result ≡ unit_of self.now };

    /// Two items combined.
    fn op(&self, a: &Self::Item, b: &Self::Item) -> Self::Item
        ensures combined { result ≡ combine self.now a.now b.now }
        ensures neutral { b.now ≡ unit_of self.now → result ≡ a.now };

    ghost associative: { (m : Self) → IsAssociative (combine m) };

    ghost commutative: { (m : Self) → IsCommutative (combine m) };

    ghost neutral: { (m : Self) → IsNeutral (combine m) (is_item m) (unit_of m) };

    ghost closed: { (m : Self) → IsClosed (combine m) (is_item m) };

    ghost unit_is_item: { (m : Self) → is_item m (unit_of m) };
}
