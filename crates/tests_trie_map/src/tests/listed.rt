//! The highest scores of small maps, by hand.

use bulk_work::work_in;
use combiner::BulkIn;
use splitter::whole;
use std::alloc::Global;
use std::panic::Expect;
use std::process::Abort;
use std::sync::Arc;
use top_pairs::{Ranked, TopPairs};
use trie_node::{Shared, Stamp};
use versions::{Version, View};

// The pairs of a part: score, key and value.
type Rows = Vec<(i64, u64, i64)>;

// The score of a pair: its value less 100.
fn score_of(value: i64) -> i64 {
    value.wrapping_sub(100)
}

// A map with these pairs.
fn view_of(rt: &impl Abort, alloc: Global, pairs: &[(u64, i64)]) -> View<u64, i64> {
    let mut map = Version::empty(alloc, 100, Stamp(1)).expect(rt, "no map");
    for (key, value) in pairs {
        let key = Arc::new(alloc, *key).expect(rt, "no key");
        let value = Arc::new(alloc, *value).expect(rt, "no value");
        map.put(alloc, key, value).expect(rt, "not put");
    }
    map.view().expect(rt, "no view")
}

// The part of a map with these pairs.
fn part_of<B: BulkIn<u64, i64, Shared>>(
    rt: &impl Abort,
    alloc: Global,
    bulk: &B,
    pairs: &[(u64, i64)],
) -> B::Part {
    let piece = whole(alloc, view_of(rt, alloc, pairs));
    work_in(alloc, &piece, bulk).expect(rt, "no list")
}

// The list of a map with these pairs.
fn top_of(
    rt: &impl Abort,
    alloc: Global,
    most: usize,
    pairs: &[(u64, i64)],
) -> Ranked<u64, i64, i64> {
    let top = TopPairs {
        most,
        score: |_key: &u64, value: &i64| score_of(*value),
    };
    part_of(rt, alloc, &top, pairs)
}

// What is listed.
fn rows_of(rt: &impl Abort, alloc: Global, listed: &Ranked<u64, i64, i64>) -> Rows {
    let mut rows = Vec::new(alloc);
    for item in listed.as_slice() {
        let row = (item.score(), **item.key(), **item.value());
        rows.push(row).expect(rt, "no row");
    }
    rows
}

// The rows of the list of a map with these pairs.
fn rows(rt: &impl Abort, alloc: Global, most: usize, pairs: &[(u64, i64)]) -> Rows {
    rows_of(rt, alloc, &top_of(rt, alloc, most, pairs))
}

const SMALL: [(u64, i64); 5] = [(1, 30), (2, 500), (3, 10), (4, 200), (5, 100)];

#[test]
fn three_highest_of_a_small_map(rt: HostRuntime) {
    let listed = top_of(&rt, rt.alloc(), 3, &SMALL);
    let rows = rows_of(&rt, rt.alloc(), &listed);
    assert_eq!(rt;
        rows.as_slice(),
        [(400, 2, 500), (100, 4, 200), (0, 5, 100)].as_slice()
    );
    assert_eq!(rt; listed.len(), 3);
    assert!(rt; !listed.is_empty());
    assert_eq!(rt; listed.get(1).map(|item| item.score()), Some(100));
    assert!(rt; listed.get(3).is_none());
}

#[test]
fn all_pairs_where_more_are_asked_for(rt: HostRuntime) {
    let rows = rows(&rt, rt.alloc(), 9, &SMALL);
    let all = [
        (400, 2, 500),
        (100, 4, 200),
        (0, 5, 100),
        (-70, 1, 30),
        (-90, 3, 10),
    ];
    assert_eq!(rt; rows.as_slice(), all.as_slice());
}

#[test]
fn two_of_three_alike(rt: HostRuntime) {
    let rows = rows(&rt, rt.alloc(), 3, &[(1, 7), (2, 7), (3, 9), (4, 7)]);
    assert_eq!(rt; rows.len(), 3);
    assert_eq!(rt; rows[0], (-91, 3, 9));
    assert_eq!(rt; (rows[1].0, rows[1].2), (-93, 7));
    assert_eq!(rt; (rows[2].0, rows[2].2), (-93, 7));
    assert_ne!(rt; rows[1].1, rows[2].1);
}

#[test]
fn none_where_none_is_asked_for(rt: HostRuntime) {
    let listed = top_of(&rt, rt.alloc(), 0, &SMALL);
    assert!(rt; listed.is_empty());
    assert_eq!(rt; listed.len(), 0);
}

#[test]
fn none_of_no_pairs(rt: HostRuntime) {
    let listed = top_of(&rt, rt.alloc(), 3, &[]);
    assert!(rt; listed.is_empty());
    assert!(rt; listed.get(0).is_none());
}

// The list of both maps together, which have no key in common.
fn joined_of<B: BulkIn<u64, i64, Shared>>(
    rt: &impl Abort,
    alloc: Global,
    bulk: &B,
    left: &[(u64, i64)],
    right: &[(u64, i64)],
) -> B::Part {
    for (key, _) in left {
        assert!(rt; right.iter().all(|(other, _)| other != key));
    }
    let left = part_of(rt, alloc, bulk, left);
    let right = part_of(rt, alloc, bulk, right);
    bulk.join(alloc, &left, &right).expect(rt, "no list")
}

#[test]
fn two_parts_joined(rt: HostRuntime) {
    let alloc = rt.alloc();
    let left = [(1, 30), (2, 500), (3, 10)];
    let right = [(4, 200), (5, 100)];
    let three = TopPairs {
        most: 3,
        score: |_key: &u64, value: &i64| score_of(*value),
    };
    let both = joined_of(&rt, alloc, &three, &left, &right);
    let rows = rows_of(&rt, alloc, &both);
    assert_eq!(rt;
        rows.as_slice(),
        [(400, 2, 500), (100, 4, 200), (0, 5, 100)].as_slice()
    );
    let nine = TopPairs {
        most: 9,
        score: |_key: &u64, value: &i64| score_of(*value),
    };
    let more = joined_of(&rt, alloc, &nine, &right, &left);
    assert_eq!(rt; more.len(), 5);
    assert_eq!(rt; more.get(4).map(|item| item.score()), Some(-90));
}

// Adds a pair of a key that the part has not.
fn add<B: BulkIn<u64, i64, Shared>>(
    rt: &impl Abort,
    alloc: Global,
    bulk: &B,
    part: &mut B::Part,
    (key, value): (u64, i64),
) {
    let key = Arc::new(alloc, key).expect(rt, "no key");
    let value = Arc::new(alloc, value).expect(rt, "no value");
    bulk.add(alloc, part, &key, &value).expect(rt, "no memory");
}

#[test]
fn a_pair_added_to_a_full_list(rt: HostRuntime) {
    let alloc = rt.alloc();
    let top = TopPairs {
        most: 2,
        score: |_key: &u64, value: &i64| score_of(*value),
    };
    let mut listed = part_of(&rt, alloc, &top, &[(1, 30), (2, 500)]);
    add(&rt, alloc, &top, &mut listed, (8, 30));
    let same = rows_of(&rt, alloc, &listed);
    assert_eq!(rt; same.as_slice(), [(400, 2, 500), (-70, 1, 30)].as_slice());
    add(&rt, alloc, &top, &mut listed, (9, 31));
    let other = rows_of(&rt, alloc, &listed);
    assert_eq!(rt; other.as_slice(), [(400, 2, 500), (-69, 9, 31)].as_slice());
}
