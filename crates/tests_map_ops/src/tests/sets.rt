//! What two views make together.

use std::alloc::Global;
use std::panic::Expect;
use std::process::Abort;
use std::sync::Arc;
use std::test::Fail;
use trie_node::{NoMemory, Stamp};
use versions::{Refusal, Version, View};
use view_sets::{changes_between, difference, intersection, union};

/// The pairs that two views make together.
#[derive(Clone, Copy)]
struct Together<'a> {
    union: &'a [(u64, u64)],
    common: &'a [(u64, u64)],
    apart: &'a [(u64, u64)],
    altered: &'a [(u64, u64)],
    removed: &'a [(u64, u64)],
}

/// A pair is put.
fn put_pair(
    alloc: Global,
    map: &mut Version<u64, u64>,
    key: u64,
    value: u64,
) -> Result<(), Refusal> {
    let key = Arc::new(alloc, key)?;
    let value = Arc::new(alloc, value)?;
    map.put(alloc, key, value)?;
    Ok(())
}

/// A view of these pairs.
fn view_of(rt: &impl Abort, alloc: Global, pairs: &[(u64, u64)]) -> View<u64, u64> {
    let mut map = Version::empty(alloc, 1_000, Stamp(7)).expect(rt, "no map");
    for (key, value) in pairs {
        put_pair(alloc, &mut map, *key, *value).expect(rt, "not put");
    }
    map.view().expect(rt, "no view")
}

/// Whether the map has these pairs and no more.
fn has(map: &Version<u64, u64>, pairs: &[(u64, u64)]) -> bool {
    map.len() == pairs.len() as u64
        && pairs.iter().all(|(key, value)| map.get(key).is_some_and(|found| **found == *value))
}

fn assert_union(
    rt: &impl Abort,
    alloc: Global,
    new: &View<u64, u64>,
    old: &View<u64, u64>,
    want: Together<'_>,
) -> Result<(), Refusal> {
    let both = union(alloc, new, old)?;
    assert!(rt; has(&both, want.union));
    Ok(())
}

fn assert_common(
    rt: &impl Abort,
    alloc: Global,
    new: &View<u64, u64>,
    old: &View<u64, u64>,
    want: Together<'_>,
) -> Result<(), NoMemory> {
    let common = intersection(alloc, new, old)?;
    assert!(rt; has(&common, want.common));
    Ok(())
}

fn assert_apart(
    rt: &impl Abort,
    alloc: Global,
    new: &View<u64, u64>,
    old: &View<u64, u64>,
    want: Together<'_>,
) -> Result<(), NoMemory> {
    let apart = difference(alloc, new, old)?;
    assert!(rt; has(&apart, want.apart));
    Ok(())
}

fn assert_changes(
    rt: &impl Abort,
    alloc: Global,
    new: &View<u64, u64>,
    old: &View<u64, u64>,
    want: Together<'_>,
) -> Result<(), NoMemory> {
    let changed = changes_between(alloc, new, old)?;
    assert!(rt; has(&changed.put, want.apart));
    assert!(rt; has(&changed.altered, want.altered));
    assert!(rt; has(&changed.removed, want.removed));
    Ok(())
}

/// All that two views make.
fn assert_each(
    rt: &impl Abort,
    alloc: Global,
    new: &View<u64, u64>,
    old: &View<u64, u64>,
    want: Together<'_>,
) -> Result<(), Refusal> {
    assert_union(rt, alloc, new, old, want)?;
    assert_common(rt, alloc, new, old, want)?;
    assert_apart(rt, alloc, new, old, want)?;
    assert_changes(rt, alloc, new, old, want)?;
    Ok(())
}

fn assert_together(
    rt: &impl Abort,
    alloc: Global,
    newer: &[(u64, u64)],
    older: &[(u64, u64)],
    want: Together<'_>,
) {
    let new = view_of(rt, alloc, newer);
    let old = view_of(rt, alloc, older);
    assert_each(rt, alloc, &new, &old, want).expect(rt, "no map");
}

/// Two views together, by hand.
#[test]
fn two_views_together(rt: HostRuntime) {
    let want = Together {
        union: &[(1, 10), (2, 20), (3, 31), (4, 40)],
        common: &[(2, 20), (3, 31)],
        apart: &[(4, 40)],
        altered: &[(3, 31)],
        removed: &[(1, 10)],
    };
    let newer = &[(2, 20), (3, 31), (4, 40)];
    let older = &[(1, 10), (2, 20), (3, 30)];
    assert_together(&rt, rt.alloc(), newer, older, want);
}

/// The same of a view beside one without pairs.
#[test]
fn a_view_beside_an_empty_one(rt: HostRuntime) {
    let want = Together {
        union: &[(5, 1)],
        common: &[],
        apart: &[(5, 1)],
        altered: &[],
        removed: &[],
    };
    assert_together(&rt, rt.alloc(), &[(5, 1)], &[], want);
}

/// The same of a view without pairs beside another one.
#[test]
fn an_empty_view_beside_another(rt: HostRuntime) {
    let want = Together {
        union: &[(5, 1)],
        common: &[],
        apart: &[],
        altered: &[],
        removed: &[(5, 1)],
    };
    assert_together(&rt, rt.alloc(), &[], &[(5, 1)], want);
}

fn assert_written(
    rt: &impl Abort,
    alloc: Global,
    left: &View<u64, u64>,
    right: &View<u64, u64>,
) -> Result<(), Refusal> {
    let mut both = union(alloc, left, right)?;
    put_pair(alloc, &mut both, 3, 3)?;
    both.remove(alloc, &1u64)?;
    assert!(rt; has(&both, &[(2, 2), (3, 3)]));
    Ok(())
}

/// A map that is made has an owner, who may write it; the views stay.
#[test]
fn a_union_may_be_written(rt: HostRuntime) {
    let alloc = rt.alloc();
    let left = view_of(&rt, alloc, &[(1, 1)]);
    let right = view_of(&rt, alloc, &[(2, 2)]);
    assert_written(&rt, alloc, &left, &right).expect(&rt, "not written");
    assert_eq!(rt; (left.len(), right.len()), (1, 1));
}
