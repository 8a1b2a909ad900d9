//! A closure that gives zeros, and one that gives values.
ghost use Rattle.std.specs.Prelude.{◌≡◌, pos};

use bulk_ops::{PairFn, Stored};
use test_keys::ChosenKey;

/// Each pair's new value is zero.
#[derive(Drop)]
pub struct Zero;

impl PairFn<ChosenKey, u64, u64> for Zero {
    ghost use Rattle.std.specs.Prelude.{◌≡◌};

    ghost can = { λ t. Unit {0} };

    ghost gives = { λ t k v r. r ≡ 0 };

    fn answer(&self, _key: &ChosenKey, _value: &u64) -> u64 {
        0
    }
}

/// Each pair's item is its value.
#[derive(Drop)]
pub struct Values;

impl PairFn<ChosenKey, u64, i128> for Values {
    ghost use Rattle.std.specs.Prelude.{◌≡◌, pos};

    ghost can = { λ t. Unit {0} };

    ghost gives = { λ t k v r. r ≡ pos v };

    fn answer(&self, _key: &ChosenKey, value: &u64) -> i128 {
        item_of(*value)
    }
}

// The range of a number is known where it is passed by value.
fn item_of(value: u64) -> i128
    ensures { result ≡ pos value }
{
    value as i128
}

/// The closure of zeros, as queries keep it.
pub fn stored_zero() -> Stored<ChosenKey, u64, u64, Zero> {
    Stored::new(Zero)
}

/// The closure of values, as queries keep it.
pub fn stored_values() -> Stored<ChosenKey, u64, i128, Values> {
    Stored::new(Values)
}
