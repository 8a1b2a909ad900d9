//! What the tests ask of whole maps: the question of a query, and its part of a view.
ghost use Rattle.std.specs.Prelude.{IfOk};

use bulk_ops::{Part, StoredTest};
use bulk_work::work;
use combiner::Bulk;
use iter::parts_follow_intervals;
use splitter::whole;
use std::alloc::Global;
use test_keys::ChosenKey;
use test_machine::{ALL, EVEN, Passing, Question, TestQuery};
use versions::{NoMemory, View};

/// A query of the tests.
pub type Query = TestQuery;

// The test that a query keeps, all values or the even ones, by what it answers of an odd value.
fn test_of(test: &StoredTest<ChosenKey, u64, Passing>) -> Passing {
    if test.at(&ChosenKey { path: 0, id: 0 }, &1) {
        ALL
    } else {
        EVEN
    }
}

/// The question of a query.
pub fn question_of(query: &Query) -> Question {
    match query {
        Query::Count(test) => Question::Count(test_of(test)),
        Query::Exists(test) => Question::Exists(test_of(test)),
        Query::ForAll(test) => Question::ForAll(test_of(test)),
        Query::Find(test) => Question::Find(test_of(test)),
        Query::Filter(test, to) => Question::Filter(test_of(test), *to),
        // No question asks for images.
        Query::MapValues(_, to) | Query::MapPairs(_, to) => Question::Zeros(*to),
        Query::Fold(_, _) => Question::Total,
    }
}

/// The part of the whole view. The query's closures may be called on every pair.
pub fn worked(
    alloc: Global,
    view: &View<ChosenKey, u64>,
    query: &Query,
) -> Result<Part<ChosenKey, u64, i128>, NoMemory>
    ensures { IfOk result (λ part. ⟦<Query as Bulk<ChosenKey, u64>>⟧.answers query.now view.now part) }
{
    parts_follow_intervals::<ChosenKey, u64>();
    let piece = whole(alloc, view.try_clone()?);
    work(alloc, &piece, query)
}
