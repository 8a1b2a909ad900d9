//! The least and the greatest of numbers.
use crate::monoid::Monoid;

/// The least of numbers, none for no number.
///
/// <!-- quoted from crates/tests_trie_map/src/tests/asked.rt -->
/// ```rust
/// view.fold(&Least, |key, _| Some(-i64::from(key.id))),
/// ```
#[derive(Clone, Copy, Debug)]
pub struct Least;

impl Monoid for Least {
    type Item = Option<i64>;

    ghost use Rattle.combiner.specs.Numbers.{lesser};
    ghost use Rattle.combiner.specs.NumberLaws.{lesser-associative, lesser-commutative, lesser-neutral};
    ghost use Rattle.std.specs.Prelude.{None};

    ghost is_item = { λ m a. Unit {0} };

    ghost unit_of = { λ m. None };

    ghost combine = { λ m. lesser };

    ghost associative = { λ m. lesser-associative };

    ghost commutative = { λ m. lesser-commutative };

    ghost neutral = { λ m a h. lesser-neutral a };

    ghost closed = { λ m a b. tt };

    ghost unit_is_item = { λ m. tt };

    fn unit(&self) -> Option<i64> {
        None
    }

    fn op(&self, a: &Option<i64>, b: &Option<i64>) -> Option<i64> {
        match (*a, *b) {
            (Some(x), Some(y)) => Some(x.min(y)),
            (Some(x), None) => Some(x),
            (None, other) => other,
        }
    }
}

/// The greatest of numbers, none for no number.
///
/// <!-- quoted from crates/tests_trie_map/src/tests/asked.rt -->
/// ```rust
/// view.fold(&Greatest, |key, _| Some(-i64::from(key.id))),
/// ```
#[derive(Clone, Copy, Debug)]
pub struct Greatest;

impl Monoid for Greatest {
    type Item = Option<i64>;

    ghost use Rattle.combiner.specs.Numbers.{greater};
    ghost use Rattle.combiner.specs.NumberLaws.{greater-associative, greater-commutative, greater-neutral};
    ghost use Rattle.std.specs.Prelude.{None};

    ghost is_item = { λ m a. Unit {0} };

    ghost unit_of = { λ m. None };

    ghost combine = { λ m. greater };

    ghost associative = { λ m. greater-associative };

    ghost commutative = { λ m. greater-commutative };

    ghost neutral = { λ m a h. greater-neutral a };

    ghost closed = { λ m a b. tt };

    ghost unit_is_item = { λ m. tt };

    fn unit(&self) -> Option<i64> {
        None
    }

    fn op(&self, a: &Option<i64>, b: &Option<i64>) -> Option<i64> {
        match (*a, *b) {
            (Some(x), Some(y)) => Some(x.max(y)),
            (Some(x), None) => Some(x),
            (None, other) => other,
        }
    }
}
