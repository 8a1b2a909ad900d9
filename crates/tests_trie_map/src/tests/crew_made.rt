//! Maps that a crew makes, and sums by groups.
use super::crews::{four, in_thirds};
use super::{Map, assert_is, empty, key, put, view_of};
use combiner::{Greatest, Sum};
use std::alloc::AllocError;
use std::process::Abort;
use std::sync::Wait;
use test_keys::ChosenKey;
use trie_map::{ByteText, Crew, PutError, TrieMap, Version};

// How many pairs a map has, and the values of its keys of the numbers 0, 1, 2 and 299.
fn shown<W: Copy + Drop>(made: &Version<ChosenKey, W>) -> (u64, [Option<W>; 4]) {
    let at = |id: u32| {
        let key = ChosenKey {
            path: u64::from(id),
            id,
        };
        made.get(&key).map(|value| **value)
    };
    (made.len(), [at(0), at(1), at(2), at(299)])
}

#[test]
fn a_crew_filters_by_a_plain_closure(rt: HostRuntime) {
    let map = in_thirds(&rt);
    let of_map = map.par_filter(&rt, |_, value| *value != 1, four());
    let want = (200, [Some(0), None, Some(2), Some(2)]);
    assert_is(&rt, shown(&of_map.expect(&rt, "no map")), want);
    let view = view_of(&rt, &map);
    let of_view = view.par_filter(&rt, |key, _| key.id < 2, four());
    let want = (2, [Some(0), Some(1), None, None]);
    assert_is(&rt, shown(&of_view.expect(&rt, "no map")), want);
    let none = view.par_filter(&rt, |_, _| false, Crew::of(2));
    assert_is(&rt, none.expect(&rt, "no map").len(), 0);
}

#[test]
fn a_crew_makes_new_values_by_a_plain_closure(rt: HostRuntime) {
    let map = in_thirds(&rt);
    let of_map = map.par_map_values(&rt, |key, value| (key.id, *value == 2), four());
    let want = [
        Some((0, false)),
        Some((1, false)),
        Some((2, true)),
        Some((299, true)),
    ];
    assert_is(&rt, shown(&of_map.expect(&rt, "no map")), (300, want));
    let of_view = view_of(&rt, &map).par_map_values(&rt, |key, _| key.id / 2, four());
    let want = [Some(0), Some(0), Some(1), Some(149)];
    assert_is(&rt, shown(&of_view.expect(&rt, "no map")), (300, want));
}

// Keys of one word stand in a bucket, and their values are in it again.
#[test]
fn a_crew_makes_buckets(rt: HostRuntime) {
    let map = empty(&rt);
    for id in 0..40 {
        put(&rt, &map, key(id % 2, id), u64::from(id));
    }
    let view = view_of(&rt, &map);
    let odd = view.par_filter(&rt, |_, value| *value % 4 == 1, four());
    let odd = odd.expect(&rt, "no map");
    assert_is(&rt, odd.len(), 10);
    assert_is(&rt, odd.get(&key(1, 37)).map(|value| **value), Some(37));
    let doubled = view.par_map_values(&rt, |_, value| value.wrapping_mul(2), four());
    let doubled = doubled.expect(&rt, "no map");
    assert_is(&rt, doubled.len(), 40);
    assert_is(&rt, doubled.get(&key(0, 38)).map(|value| **value), Some(76));
}

// A word for each rest of a division by three.
fn word_of<R: AllocGlobal>(rt: &R, number: u64) -> Result<ByteText, AllocError> {
    let word = match number % 3 {
        0 => "none",
        1 => "one",
        _ => "two",
    };
    ByteText::from_text(rt.alloc(), word)
}

// The words of the rests of 300 numbers, under these.
fn words<R: AllocGlobal + Wait>(rt: &R) -> Result<TrieMap<u64, ByteText>, PutError> {
    let words = TrieMap::new(rt)?;
    for number in 0..300 {
        words.put(rt, number, word_of(rt, number)?)?;
    }
    Ok(words)
}

#[test]
fn a_crew_counts_groups_that_are_texts(rt: HostRuntime) {
    let words = words(&rt).expect(&rt, "no map");
    let groups = words.par_try_group_count(&rt, |_, word| word.clone(), four());
    let groups = groups.expect(&rt, "no counts");
    assert_is(&rt, groups.len(), 3);
    for (group, count) in groups.as_slice() {
        assert_is(&rt, *count, 100);
        assert!(rt; matches!(group.as_str(), Some("none" | "one" | "two")));
    }
}

#[test]
fn a_crew_adds_up_each_group(rt: HostRuntime) {
    let words = words(&rt).expect(&rt, "no map");
    let item = |number: &u64, _: &ByteText| i128::from(*number);
    let sums = words.par_group_fold(&rt, |_, word| word.clone(), &Sum, item, four());
    let sums = sums.expect(&rt, "no sums");
    let found = [
        sums.get("none").map(|sum| **sum),
        sums.get("one").map(|sum| **sum),
        sums.get("two").map(|sum| **sum),
        sums.get("three").map(|sum| **sum),
    ];
    // The sums of 0, 3, .. 297, of 1, 4, .. 298, and of 2, 5, .. 299.
    assert_is(&rt, found, [Some(14_850), Some(14_950), Some(15_050), None]);
    assert_is(&rt, sums.len(), 3);
}

#[test]
fn a_crew_finds_the_greatest_of_each_group(rt: HostRuntime) {
    let view = view_of(&rt, &in_thirds(&rt));
    let item = |key: &ChosenKey, _: &u64| Some(i64::from(key.id));
    let best = view.par_group_fold(&rt, |_, value| Ok(*value), &Greatest, item, Crew::of(3));
    let best = best.expect(&rt, "no map");
    for group in 0..3u64 {
        let found = best.get(&group).map(|best| **best);
        assert_is(&rt, found, Some(Some((group as i64).wrapping_add(297))));
    }
    assert_is(&rt, best.len(), 3);
}

// The value as a group, for which there is no memory at the last key.
fn group_of(key: &ChosenKey, value: &u64) -> Result<u64, AllocError> {
    if key.id == 299 {
        Err(AllocError)
    } else {
        Ok(*value)
    }
}

#[test]
fn a_group_without_memory_is_refused(rt: HostRuntime) {
    let map = in_thirds(&rt);
    let counts = map.par_try_group_count(&rt, |key, value| group_of(key, value), four());
    assert_is(&rt, counts.is_err(), true);
    let sums = map.par_group_fold(
        &rt,
        |key, value| group_of(key, value),
        &Sum,
        |_, _| 1,
        four(),
    );
    assert_is(&rt, sums.is_err(), true);
}
