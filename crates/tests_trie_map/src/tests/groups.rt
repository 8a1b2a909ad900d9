//! Groups of a few pairs, by hand: a whole map, parts that pairs are added to, and joins.

use bulk_work::work_in;
use combiner::BulkIn;
use group_counts::{GroupCounts, Groups};
use splitter::whole;
use std::alloc::Global;
use std::panic::Expect;
use std::process::Abort;
use std::sync::Arc;
use trie_node::{Shared, Stamp};
use versions::{Version, View};

// A map of these values, each under its number.
fn map_of(rt: &impl Abort, alloc: Global, values: &[u64]) -> View<u64, u64> {
    let mut map = Version::empty(alloc, 100, Stamp(1)).expect(rt, "no map");
    let mut number: u64 = 0;
    for value in values {
        let key = Arc::new(alloc, number).expect(rt, "no key");
        let value = Arc::new(alloc, *value).expect(rt, "no value");
        map.put(alloc, key, value).expect(rt, "not put");
        number = number.wrapping_add(1);
    }
    map.view().expect(rt, "no view")
}

// How many of the values leave each rest of a division by three.
fn by_rest(rt: &impl Abort, alloc: Global, values: &[u64]) -> Groups<u64> {
    let counts = GroupCounts {
        group: |_: &u64, value: &u64| *value % 3,
    };
    let piece = whole(alloc, map_of(rt, alloc, values));
    work_in(alloc, &piece, &counts).expect(rt, "no part")
}

// The counts of pairs under the numbers from `first` on, whose values are these groups.
fn counted(rt: &impl Abort, alloc: Global, first: u64, groups: &[u64]) -> Groups<u64> {
    let counts = GroupCounts {
        group: |_: &u64, value: &u64| *value,
    };
    let none = BulkIn::<u64, u64, Shared>::unit(&counts, alloc);
    let mut part = none.expect(rt, "no part");
    let mut number = first;
    for group in groups {
        let key = Arc::new(alloc, number).expect(rt, "no key");
        let value = Arc::new(alloc, *group).expect(rt, "no value");
        let added = BulkIn::<u64, u64, Shared>::add(&counts, alloc, &mut part, &key, &value);
        added.expect(rt, "not counted");
        number = number.wrapping_add(1);
    }
    part
}

// The groups and their counts, as plain numbers.
fn shown(rt: &impl Abort, alloc: Global, groups: &Groups<u64>) -> Vec<(u64, u64)> {
    let mut all = Vec::new(alloc);
    for (group, count) in groups.as_slice() {
        all.push((**group, *count)).expect(rt, "no room");
    }
    all
}

// The groups are these, with these counts.
fn assert_counts(rt: &impl Abort, alloc: Global, groups: &Groups<u64>, want: &[(u64, u64)]) {
    assert_eq!(rt; groups.len(), want.len());
    assert_eq!(rt; groups.is_empty(), want.is_empty());
    assert_eq!(rt; shown(rt, alloc, groups).as_slice(), want);
}

// The counts of pairs with these groups joined, of which no two share a key.
fn joined(rt: &impl Abort, alloc: Global, left: &[u64], right: &[u64]) -> Groups<u64> {
    let counts = GroupCounts {
        group: |_: &u64, value: &u64| *value,
    };
    let (left, right) = (counted(rt, alloc, 0, left), counted(rt, alloc, 100, right));
    let both = BulkIn::<u64, u64, Shared>::join(&counts, alloc, &left, &right);
    both.expect(rt, "not joined")
}

// 3, 6 and 9 leave 0; 4, 7, 10 and 1 leave 1; 2 leaves 2.
#[test]
fn the_values_of_a_map_by_their_rest(rt: HostRuntime) {
    let groups = by_rest(&rt, rt.alloc(), &[4, 7, 3, 10, 2, 6, 1, 9]);
    assert_counts(&rt, rt.alloc(), &groups, &[(0, 3), (1, 4), (2, 1)]);
    assert_eq!(rt; groups.get(&1), 4);
}

#[test]
fn a_group_of_one(rt: HostRuntime) {
    let groups = by_rest(&rt, rt.alloc(), &[5]);
    assert_counts(&rt, rt.alloc(), &groups, &[(2, 1)]);
}

#[test]
fn no_groups_of_no_pairs(rt: HostRuntime) {
    let groups = by_rest(&rt, rt.alloc(), &[]);
    assert_counts(&rt, rt.alloc(), &groups, &[]);
    assert_eq!(rt; groups.get(&0), 0);
}

#[test]
fn a_group_that_no_pair_has(rt: HostRuntime) {
    let groups = counted(&rt, rt.alloc(), 0, &[8, 2, 8, 4]);
    assert_counts(&rt, rt.alloc(), &groups, &[(2, 1), (4, 1), (8, 2)]);
    for group in [0, 3, 5, 9] {
        assert_eq!(rt; groups.get(&group), 0);
    }
}

#[test]
fn one_pair_has_one_group(rt: HostRuntime) {
    let alloc = rt.alloc();
    let counts = GroupCounts {
        group: |key: &u64, value: &u64| *key % 10 + *value % 10,
    };
    let key = Arc::new(alloc, 14).expect(&rt, "no key");
    let value = Arc::new(alloc, 23).expect(&rt, "no value");
    let made = BulkIn::<u64, u64, Shared>::one(&counts, alloc, &key, &value);
    let groups = made.expect(&rt, "no part");
    assert_counts(&rt, alloc, &groups, &[(7, 1)]);
}

// 2 and 6 are in both, 1 and 9 in the left alone, 0, 5 and 8 in the right alone.
#[test]
fn a_join_of_shared_and_of_own_groups(rt: HostRuntime) {
    let alloc = rt.alloc();
    let groups = joined(&rt, alloc, &[9, 2, 6, 2, 1], &[8, 6, 0, 2, 6, 5]);
    let want = [(0, 1), (1, 1), (2, 3), (5, 1), (6, 3), (8, 1), (9, 1)];
    assert_counts(&rt, alloc, &groups, &want);
}

#[test]
fn a_join_with_no_groups(rt: HostRuntime) {
    let alloc = rt.alloc();
    assert_counts(&rt, alloc, &joined(&rt, alloc, &[3, 3], &[]), &[(3, 2)]);
    assert_counts(&rt, alloc, &joined(&rt, alloc, &[], &[3, 3]), &[(3, 2)]);
    assert_counts(&rt, alloc, &joined(&rt, alloc, &[], &[]), &[]);
}
