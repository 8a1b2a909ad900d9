//! Laws of numbers. Their functions do nothing: each contract is the law.
ghost use Rattle.std.specs.Prelude.{◌≡◌, ◌+ℤ◌, ◌≤◌, ◌^◌, ℤ, pos, List, All, length, map};
ghost use Rattle.combiner.specs.Monoids.{folded};
ghost use Rattle.combiner.specs.Numbers.{IsI64, wrapped_sum};

/// The sum of at most 2^64 numbers of 64 bits does not wrap: it is their plain sum. (A map has at most 2^24 pairs.)
pub fn law_of_sums()
    ensures { (xs : List ℤ) → All IsI64 xs → length xs ≤ 2 ^ 64 → folded wrapped_sum (pos 0) xs ≡ folded ◌+ℤ◌ (pos 0) xs }
{}

/// Nor does it where an operation adds the numbers that stand within items of another type, as in an `Option`.
pub fn law_of_sums_within<T>()
    ensures { (op : T → T → T) (item : ℤ → T) → ((a b : ℤ) → op (item a) (item b) ≡ item (wrapped_sum a b)) → (xs : List ℤ) → All IsI64 xs → length xs ≤ 2 ^ 64 → folded op (item (pos 0)) (map item xs) ≡ item (folded ◌+ℤ◌ (pos 0) xs) }
{
    law_of_sums();
}
