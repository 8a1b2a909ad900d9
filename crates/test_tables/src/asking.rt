//! A table of maps from chosen keys to numbers that is asked queries.

use bulk_ops::{NoImages, PairFn, Query, Stored};
use combiner::{Both, Greatest, Least, Sum};
use handles::Table;
use test_keys::ChosenKey;

/// Pairs with a value from the first number to the second pass.
#[derive(Drop)]
pub struct Within(pub i64, pub i64);

impl PairFn<ChosenKey, i64, bool> for Within {
    ghost use Rattle.std.specs.Prelude.{◌≡◌, ◌&&◌, int_le};

    ghost can = { λ t. Unit {0} };

    ghost gives = { λ t k v r. r ≡ (int_le t.0 v && int_le v t.1) };

    fn answer(&self, _key: &ChosenKey, value: &i64) -> bool {
        self.0 <= *value && *value <= self.1
    }
}

/// One new value for all keys.
#[derive(Drop)]
pub struct NewValue(pub i64);

impl PairFn<ChosenKey, i64, i64> for NewValue {
    ghost use Rattle.std.specs.Prelude.{◌≡◌};

    ghost can = { λ t. Unit {0} };

    ghost gives = { λ t k v r. r ≡ t.0 };

    fn answer(&self, _key: &ChosenKey, _value: &i64) -> i64 {
        self.0
    }
}

/// The sum, the least and the greatest of all values.
pub type Three = Both<Sum, Both<Least, Greatest>>;

pub type ThreeItems = (i128, (Option<i64>, Option<i64>));

/// The value, for each of the three.
#[derive(Drop)]
pub struct EachValue;

impl PairFn<ChosenKey, i64, ThreeItems> for EachValue {
    ghost use Rattle.std.specs.Prelude.{◌≡◌, Some};

    ghost can = { λ t. Unit {0} };

    ghost gives = { λ t k v r. r ≡ (v, (Some v, Some v)) };

    fn answer(&self, _key: &ChosenKey, value: &i64) -> ThreeItems {
        (i128::from(*value), (Some(*value), Some(*value)))
    }
}

/// A query of the tests.
pub type Asked = Query<ChosenKey, i64, Within, NewValue, Three, EachValue, NoImages>;

/// A table of the tests.
pub type Asking = Table<ChosenKey, i64, Asked>;

/// A query as a plain value. A test lets the values from the first to the second pass.
#[derive(Clone, Copy)]
pub enum Ask {
    Count(i64, i64),
    Exists(i64, i64),
    ForAll(i64, i64),
    Find(i64, i64),
    /// The map goes to the handle of the number.
    Filter(i64, i64, u32),
    /// Each key gets the value, on the handle of the number.
    NewValues(i64, u32),
    Fold,
}

// The test, as queries keep it.
fn passing(test: Within) -> Stored<ChosenKey, i64, bool, Within> {
    Stored::new(test)
}

// The new value, as queries keep it.
fn changing(change: NewValue) -> Stored<ChosenKey, i64, i64, NewValue> {
    Stored::new(change)
}

// The values, as queries keep them.
fn each_value() -> Stored<ChosenKey, i64, ThreeItems, EachValue> {
    Stored::new(EachValue)
}

/// The query of a plain one.
pub fn query_of(ask: Ask) -> Asked {
    match ask {
        Ask::Count(least, most) => Query::Count(passing(Within(least, most))),
        Ask::Exists(least, most) => Query::Exists(passing(Within(least, most))),
        Ask::ForAll(least, most) => Query::ForAll(passing(Within(least, most))),
        Ask::Find(least, most) => Query::Find(passing(Within(least, most))),
        Ask::Filter(least, most, to) => Query::Filter(passing(Within(least, most)), to),
        Ask::NewValues(value, to) => Query::MapValues(changing(NewValue(value)), to),
        Ask::Fold => Query::Fold(Both(Sum, Both(Least, Greatest)), each_value()),
    }
}
