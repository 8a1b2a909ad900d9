//! What the laws of sums show of values.
ghost use Rattle.std.specs.Prelude.{◌≡◌, ◌+ℤ◌, [], ◌∷◌, pos};
ghost use Rattle.combiner.specs.Monoids.{folded};
ghost use Rattle.combiner.specs.Numbers.{wrapped_sum};
ghost use Rattle.combiner.specs.Pairs.{side_by_side};

use super::assert_is;
use combiner::{Monoid, Sum, law_of_sums, law_of_sums_within};

// Two values summed. The laws say that this is their plain sum, and so it is in each part of a pair.
fn sum_of_two(sum: Sum, first: i64, last: i64) -> i128
    ensures own { result ≡ folded wrapped_sum (pos 0) (first ∷ last ∷ []) }
    ensures plain { folded wrapped_sum (pos 0) (first ∷ last ∷ []) ≡ first +ℤ last }
    ensures within { folded (side_by_side wrapped_sum wrapped_sum) (pos 0, pos 0) ((first, first) ∷ (last, last) ∷ []) ≡ (first +ℤ last, first +ℤ last) }
{
    law_of_sums();
    law_of_sums_within::<(i128, i128)>();
    let only = sum.op(&i128::from(last), &sum.unit());
    sum.op(&i128::from(first), &only)
}

#[test]
fn sums_of_64_bits_do_not_wrap(rt: HostRuntime) {
    let table = [
        (i64::MAX, i64::MAX, 18_446_744_073_709_551_614),
        (i64::MIN, i64::MIN, -18_446_744_073_709_551_616),
        (i64::MIN, i64::MAX, -1),
    ];
    for (first, last, want) in table {
        assert_is(&rt, sum_of_two(Sum, first, last), want);
        assert_is(&rt, sum_of_two(Sum, last, first), want);
    }
}
