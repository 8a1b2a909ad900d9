//! Two operations at once.
use crate::monoid::Monoid;

/// Two operations side by side, each on its own part of a pair: two folds over one walk.
///
/// <!-- quoted from crates/map_sizes/src/asking.rt -->
/// ```rust
/// let (least, greatest) = map.fold(rt, &Both(Least, Greatest), |_, value| {
///     let item = i64::try_from(*value).ok();
///     (item, item)
/// })?;
/// ```
#[derive(Clone, Copy, Debug)]
pub struct Both<M, N>(pub M, pub N);

impl<M: Monoid, N: Monoid> Monoid for Both<M, N> {
    type Item = (M::Item, N::Item);

    ghost use Rattle.combiner.specs.Pairs.{side-associative, side-commutative, side_by_side};

    ghost is_item = { λ b a. M.is_item b.0 a.0 × N.is_item b.1 a.1 };

    ghost unit_of = { λ b. (M.unit_of b.0, N.unit_of b.1) };

    ghost combine = { λ b. side_by_side (M.combine b.0) (N.combine b.1) };

    ghost associative = { λ b. side-associative (M.combine b.0) (N.combine b.1) (M.associative b.0) (N.associative b.1) };

    ghost commutative = { λ b. side-commutative (M.combine b.0) (N.combine b.1) (M.commutative b.0) (N.commutative b.1) };

    ghost neutral = { λ b a h i. (M.neutral b.0 a.0 h.0 i, N.neutral b.1 a.1 h.1 i) };

    ghost closed = { λ b x y. (M.closed b.0 x.0 y.0, N.closed b.1 x.1 y.1) };

    ghost unit_is_item = { λ b. (M.unit_is_item b.0, N.unit_is_item b.1) };

    fn unit(&self) -> (M::Item, N::Item) {
        (self.0.unit(), self.1.unit())
    }

    fn op(&self, a: &(M::Item, N::Item), b: &(M::Item, N::Item)) -> (M::Item, N::Item) {
        (self.0.op(&a.0, &b.0), self.1.op(&a.1, &b.1))
    }
}
