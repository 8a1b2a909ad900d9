//! Monoids, and the merge of small maps, by hand.
use super::{Map, assert_is, at, chosen, map_of};
use combiner::{Both, Greatest, Least, Monoid, Sum, merge};
use std::alloc::Global;
use std::panic::Expect;
use std::process::Abort;

#[test]
fn sums_wrap_at_the_ends_of_i128(rt: HostRuntime) {
    assert_is(&rt, Sum.unit(), 0);
    let end = 9_223_372_036_854_775_807;
    let table = [
        (end, end, 18_446_744_073_709_551_614),
        (i128::MAX, 1, i128::MIN),
        (i128::MIN, -1, i128::MAX),
    ];
    for (left, right, sum) in table {
        assert_is(&rt, Sum.op(&left, &right), sum);
    }
}

#[test]
fn extremes_of_numbers(rt: HostRuntime) {
    assert_is(&rt, Least.op(&Some(4), &Some(-3)), Some(-3));
    let least = Least.op(&Some(i64::MIN), &Least.unit());
    assert_is(&rt, least, Some(i64::MIN));
    assert_is(&rt, Greatest.op(&Some(4), &Some(-3)), Some(4));
    let greatest = Greatest.op(&Greatest.unit(), &Some(i64::MAX));
    assert_is(&rt, greatest, Some(i64::MAX));
    assert_is(&rt, Greatest.op(&None, &None), None);
}

#[test]
fn three_operations_at_once(rt: HostRuntime) {
    let all = Both(Sum, Both(Least, Greatest));
    let both = all.op(&(5, (Some(5), Some(5))), &(-7, (Some(-7), Some(-7))));
    assert_is(&rt, both, (-2, (Some(-7), Some(5))));
    assert_is(&rt, all.unit(), (0, (None, None)));
}

/// The pairs of both maps, where there is memory. Each has room for 100 pairs, and at most 50.
pub(super) fn union_of(rt: &impl Abort, alloc: Global, left: &Map, right: &Map) -> Option<Map> {
    assert!(rt; left.limit() == 100 && right.limit() == 100);
    assert!(rt; left.len() <= 50 && right.len() <= 50);
    merge(alloc, left, right).ok()
}

// A map of the keys with two path words.
fn of_two(rt: &impl Abort, alloc: Global, first: (u64, i64), last: (u64, i64)) -> Map {
    let (first, last) = ((chosen(first.0, 0), first.1), (chosen(last.0, 0), last.1));
    map_of(rt, alloc, &[first, last])
}

// How many pairs there are in the two maps put together, and the values at four path words.
fn union_seen(rt: &impl Abort, alloc: Global, left: &Map, right: &Map) -> (u64, [Option<i64>; 4]) {
    let both = union_of(rt, alloc, left, right).expect(rt, "no map");
    let values = [
        at(&both, chosen(0, 0)),
        at(&both, chosen(0xc000_0000_0000_0000, 0)),
        at(&both, chosen(7, 0)),
        at(&both, chosen(0xffff_ffff_ffff_ffff, 0)),
    ];
    (both.len(), values)
}

// The left value wins where both have a key; 0 and 0xc000_0000_0000_0000 lie at the positions 0 and 12, the others far
// above.
#[test]
fn merged_maps_have_the_pairs_of_both(rt: HostRuntime) {
    let alloc = rt.alloc();
    let low = of_two(&rt, alloc, (0, 1), (0xc000_0000_0000_0000, 2));
    let mixed = of_two(&rt, alloc, (0xc000_0000_0000_0000, 3), (7, 4));
    let high = of_two(&rt, alloc, (7, 5), (0xffff_ffff_ffff_ffff, 6));
    for (left, right, want) in [
        (&low, &mixed, (3, [Some(1), Some(2), Some(4), None])),
        (&mixed, &low, (3, [Some(1), Some(3), Some(4), None])),
        (&low, &high, (4, [Some(1), Some(2), Some(5), Some(6)])),
    ] {
        assert_is(&rt, union_seen(&rt, alloc, left, right), want);
    }
}
