//! What the law of folds shows of values.
ghost use Rattle.std.specs.Prelude.{◌≡◌, ℕ, ℤ, [], ◌∷◌, pos};
ghost use Rattle.bulk_work.specs.Answers.{items_of};
ghost use Rattle.combiner.specs.Monoids.{folded};
ghost use Rattle.combiner.specs.Numbers.{wrapped_sum};

use super::assert_is;
use bulk_ops::law_of_folds;
use combiner::{Monoid, Sum};

// Two values summed, the last of the map first. The law says that this is the fold over the map's own listing.
fn sum_of_two(sum: Sum, first: i64, last: i64) -> i128
    ensures own { result ≡ folded wrapped_sum (pos 0) (last ∷ first ∷ []) }
    ensures map { folded wrapped_sum (pos 0) (last ∷ first ∷ []) ≡ folded wrapped_sum (pos 0) (items_of {K = ℕ} {V = ℤ} (λ k v. v) ((1, first) ∷ (2, last) ∷ [])) }
{
    law_of_folds::<u64, i64, Sum>();
    let only = sum.op(&i128::from(first), &sum.unit());
    sum.op(&i128::from(last), &only)
}

#[test]
fn a_fold_is_the_same_in_any_order(rt: HostRuntime) {
    let table = [
        (i64::MAX, i64::MAX, 18_446_744_073_709_551_614),
        (i64::MIN, i64::MAX, -1),
        (-3, 4, 1),
    ];
    for (first, last, want) in table {
        assert_is(&rt, sum_of_two(Sum, first, last), want);
        assert_is(&rt, sum_of_two(Sum, last, first), want);
    }
}
