//! Sums.
ghost use Rattle.std.specs.Prelude.{◌≡◌};
ghost use Rattle.combiner.specs.Numbers.{wrapped_sum};

use crate::monoid::Monoid;

/// The sum of numbers, wrapped to 128 bits. Of numbers of 64 bits, as many as a map can have, it never wraps
/// (`law_of_sums`).
///
/// <!-- quoted from crates/example_leases/src/main.rt -->
/// ```rust
/// let sum = view.fold(&Sum, |_, lease| i128::from(lease.port));
/// ```
#[derive(Clone, Copy, Debug)]
pub struct Sum;

impl Monoid for Sum {
    type Item = i128;

    ghost use Rattle.combiner.specs.Numbers.{IsI128, wrapped_sum};
    ghost use Rattle.combiner.specs.NumberLaws.{sum-associative, sum-closed, sum-commutative, sum-neutral};
    ghost use Rattle.std.specs.Prelude.{pos};

    ghost is_item = { λ m a. IsI128 a };

    ghost unit_of = { λ m. pos 0 };

    ghost combine = { λ m. wrapped_sum };

    ghost associative = { λ m. sum-associative };

    ghost commutative = { λ m. sum-commutative };

    ghost neutral = { λ m. sum-neutral };

    ghost closed = { λ m. sum-closed };

    ghost use Rattle.std.proofs.Common.{rules};

    ghost unit_is_item = { λ m. Prim.search rules };

    fn unit(&self) -> i128 {
        0
    }

    fn op(&self, a: &i128, b: &i128) -> i128 {
        sum_of(*a, *b)
    }
}

// The range of a number is known where it is passed by value.
fn sum_of(a: i128, b: i128) -> i128
    ensures { result ≡ wrapped_sum a b }
{
    a.wrapping_add(b)
}
