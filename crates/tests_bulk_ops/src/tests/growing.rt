//! Parts that grow by a piece, beside the join of two parts.
use super::pieces::{part_of, two_of};
use super::stopping::Given;
use super::{Asked, Plain, assert_is, assert_plain, below, first, instead, plain_of};
use bulk_work::work_into;
use combiner::Bulk;
use hash_path::PathKey;
use std::alloc::Global;
use std::panic::Expect;
use std::process::Abort;
use test_keys::ChosenKey;
use versions::View;

// The part of the lower piece of a cut, grown by the upper one.
fn grown<K: PathKey + Drop, V: Drop, B: Bulk<K, V>>(
    rt: &impl Abort,
    alloc: Global,
    view: View<K, V>,
    bulk: &B,
) -> B::Part
    requires { B.ready bulk.now }
{
    let (lower, upper) = two_of(rt, alloc, view);
    let begun = part_of(rt, alloc, &lower, bulk);
    drop(lower);
    let part = work_into(alloc, &upper, bulk, begun).expect(rt, "no part");
    drop(upper);
    part
}

/// The answer to the query by the part of the lower of two pieces of the three pairs, grown by the upper one.
pub(super) fn plain_of_grown(rt: &impl Abort, alloc: Global, query: &Asked) -> Plain
    requires { ⟦<Asked as Bulk<ChosenKey, i64>>⟧.ready query.now }
{
    let view = first(rt, alloc, 3);
    plain_of(rt, &grown(rt, alloc, view, query))
}

// The part of the lower piece of a cut, and whether the root of the upper one was joined to it.
fn joined_by_root<K: PathKey + Drop, V: Drop, B: Bulk<K, V>>(
    rt: &impl Abort,
    alloc: Global,
    view: View<K, V>,
    bulk: &B,
) -> (B::Part, bool)
    requires { B.ready bulk.now }
{
    let (lower, upper) = two_of(rt, alloc, view);
    let begun = part_of(rt, alloc, &lower, bulk);
    drop(lower);
    let root = upper.root().expect(rt, "no root");
    drop(upper);
    let joined = bulk.join_root(alloc, begun, &root).expect(rt, "no part");
    drop(root);
    match joined {
        Ok(part) => (part, true),
        Err(part) => (part, false),
    }
}

// The answer to the query by that part, and whether the root was joined.
fn plain_by_root(rt: &impl Abort, alloc: Global, query: &Asked) -> (Option<Plain>, bool)
    requires { ⟦<Asked as Bulk<ChosenKey, i64>>⟧.ready query.now }
{
    let view = first(rt, alloc, 3);
    let (part, is_joined) = joined_by_root(rt, alloc, view, query);
    (Some(plain_of(rt, &part)), is_joined)
}

// Two of the three pairs are in the lower piece, and the greatest value is that of both. A filter and a map of values are
// joined with the root; a count gets back what it has.
#[test]
fn a_root_is_joined_where_a_part_has_its_shape(rt: HostRuntime) {
    let alloc = rt.alloc();
    let (seen, is_joined) = plain_by_root(&rt, alloc, &Asked::Count(below(4)));
    assert_plain(&rt, seen, Plain::Number(2));
    assert!(rt; !is_joined);
    let (seen, is_joined) = plain_by_root(&rt, alloc, &Asked::Filter(below(3), 9));
    let two = (Some(i64::MAX), None, Some(i64::MIN));
    assert_plain(&rt, seen, Plain::Made(2, two));
    assert!(rt; is_joined);
    let (seen, is_joined) = plain_by_root(&rt, alloc, &Asked::MapValues(instead(4), 9));
    assert_plain(&rt, seen, Plain::Made(3, (Some(4), Some(4), Some(4))));
    assert!(rt; is_joined);
}

// The lower piece has two pairs, of which a part that is settled at once is given one. It is then given none of the upper.
#[test]
fn a_settled_part_does_not_grow(rt: HostRuntime) {
    let alloc = rt.alloc();
    for (settled, want) in [(true, 1), (false, 3)] {
        let seen = grown(&rt, alloc, first(&rt, alloc, 3), &Given { settled });
        assert_is(&rt, seen, want);
    }
}
