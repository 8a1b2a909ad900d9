//! What the tests ask of whole maps: each question as a plain value, as a query over closures, and the rows that it is
//! about.

ghost use Rattle.bulk_ops.specs.Queries.{IsReady};

use crate::rows::PlainPair;
use bulk_ops::{NoImages, PairFn, Query, Stored, StoredTest};
use combiner::Sum;
use std::alloc::{AllocError, Global};
use test_keys::ChosenKey;
use test_queries::{Values, Zero, stored_values, stored_zero};

/// Which values pass: the even ones from the least to the most, and the odd ones of these where this says so.
#[derive(Clone, Copy, Debug, PartialEq, Eq)]
pub struct Passing {
    pub least: u64,
    pub most: u64,
    pub odd: bool,
}

/// Every value passes.
pub const ALL: Passing = Passing {
    least: 0,
    most: u64::MAX,
    odd: true,
};

/// Even values pass.
pub const EVEN: Passing = Passing {
    least: 0,
    most: u64::MAX,
    odd: false,
};

impl Passing {
    /// Whether the value passes.
    pub fn passes(self, value: u64) -> bool {
        self.least <= value && value <= self.most && (self.odd || value % 2 == 0)
    }
}

impl PairFn<ChosenKey, u64, bool> for Passing {
    ghost use Rattle.std.specs.Prelude.{◌≡◌, ◌%◌, ◌==◌, ◌&&◌, ◌||◌, nat_le};

    ghost can = { λ t. Unit {0} };

    ghost gives = { λ t k v r. r ≡ (nat_le t.least v && (nat_le v t.most && (t.odd || v % 2 == 0))) };

    fn answer(&self, _key: &ChosenKey, value: &u64) -> bool {
        self.least <= *value && (*value <= self.most && (self.odd || *value % 2 == 0))
    }
}

/// A query of the tests.
pub type TestQuery = Query<ChosenKey, u64, Passing, Zero, Sum, Values, NoImages>;

/// A question as a plain value.
#[derive(Clone, Copy, Debug, PartialEq, Eq)]
pub enum Question {
    Count(Passing),
    Exists(Passing),
    ForAll(Passing),
    Find(Passing),
    /// The map of the pairs that pass, on the handle of the number.
    Filter(Passing, u32),
    /// The map of the same keys with zeros, on the handle of the number.
    Zeros(u32),
    Total,
}

// The test, as queries keep it.
fn stored(test: Passing) -> StoredTest<ChosenKey, u64, Passing> {
    Stored::new(test)
}

/// The query of a question.
pub fn query_of(question: Question) -> TestQuery
    ensures { IsReady result }
{
    match question {
        Question::Count(test) => Query::Count(stored(test)),
        Question::Exists(test) => Query::Exists(stored(test)),
        Question::ForAll(test) => Query::ForAll(stored(test)),
        Question::Find(test) => Query::Find(stored(test)),
        Question::Filter(test, to) => Query::Filter(stored(test), to),
        Question::Zeros(to) => Query::MapValues(stored_zero(), to),
        Question::Total => Query::Fold(Sum, stored_values()),
    }
}

impl Question {
    /// The number of the handle that is to have the map that is made.
    pub fn target(self) -> Option<u32> {
        match self {
            Question::Filter(_, to) | Question::Zeros(to) => Some(to),
            _ => None,
        }
    }

    // The test of the pairs that the answer is about.
    fn test(self) -> Passing {
        match self {
            Question::Count(test) | Question::Exists(test) => test,
            Question::ForAll(test) | Question::Find(test) => test,
            Question::Filter(test, _) => test,
            Question::Zeros(_) | Question::Total => ALL,
        }
    }

    // A pair's value, or its new one in a map that is made.
    fn value_of(self, value: u64) -> u64 {
        match self {
            Question::Zeros(_) => 0,
            _ => value,
        }
    }

    /// The rows that the answer is about: those that pass, and those of a map that is made.
    ///
    /// # Errors
    ///
    /// There is no memory for them.
    pub fn chosen(self, alloc: Global, rows: &[PlainPair]) -> Result<Vec<PlainPair>, AllocError> {
        let mut chosen = Vec::new(alloc);
        for row in rows {
            if self.test().passes(row.value) {
                let value = self.value_of(row.value);
                let (place, key) = (row.place, row.key);
                chosen.push(PlainPair { place, key, value })?;
            }
        }
        Ok(chosen)
    }

    /// Whether `all` rows, of which `chosen` pass, have the answer whatever other rows there are.
    pub fn is_decided(self, chosen: usize, all: usize) -> bool {
        match self {
            Question::Exists(_) | Question::Find(_) => chosen > 0,
            Question::ForAll(_) => chosen < all,
            _ => false,
        }
    }
}
