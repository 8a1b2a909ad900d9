//! Counts by groups, and the pairs with the highest scores, which a crew finds.

use super::crews::{four, in_thirds};
use super::{Map, assert_is, empty, key, put, view_of};
use std::process::Abort;
use std::sync::Wait;
use trie_map::Crew;

#[test]
fn a_crew_counts_the_pairs_of_each_group(rt: HostRuntime) {
    let map = in_thirds(&rt);
    let groups = map.par_group_count(&rt, |_, value| *value, four());
    let groups = groups.expect(&rt, "no counts");
    assert_is(&rt, groups.len(), 3);
    let counts = [
        groups.get(&0),
        groups.get(&1),
        groups.get(&2),
        groups.get(&3),
    ];
    assert_is(&rt, counts, [100, 100, 100, 0]);
}

// Of the numbers from 0 to 299, 43 leave each rest by 7 from 0 to 5, and 42 leave 6.
#[test]
fn groups_of_a_view_are_listed_in_order(rt: HostRuntime) {
    let view = view_of(&rt, &in_thirds(&rt));
    let groups = view.par_group_count(&rt, |key, _| u64::from(key.id % 7), Crew::of(2));
    let groups = groups.expect(&rt, "no counts");
    assert_is(&rt, groups.len(), 7);
    for (place, (group, count)) in groups.as_slice().iter().enumerate() {
        assert_is(&rt, **group, place as u64);
        assert_is(&rt, *count, if place < 6 { 43 } else { 42 });
    }
}

#[test]
fn no_pair_has_no_group(rt: HostRuntime) {
    let groups = empty(&rt).par_group_count(&rt, |_, value| *value, four());
    assert!(rt; groups.is_ok_and(|groups| groups.is_empty()));
}

// A map of 100 keys with the values from 0 to 99, each once, in another order than the keys.
fn mixed_up<R: AllocGlobal + Wait + Abort>(rt: &R) -> Map {
    let map = empty(rt);
    for id in 0..100 {
        put(rt, &map, key(id % 32, id), u64::from(id) * 37 % 100);
    }
    map
}

#[test]
fn a_crew_finds_the_pairs_with_the_highest_scores(rt: HostRuntime) {
    let map = mixed_up(&rt);
    let top = map.par_top(&rt, 3, |_, value| *value, four());
    let top = top.expect(&rt, "no pairs");
    assert_is(&rt, top.len(), 3);
    for (place, pair) in top.as_slice().iter().enumerate() {
        assert_is(&rt, pair.score(), 99 - place as u64);
        assert_is(&rt, **pair.value(), 99 - place as u64);
        assert_is(&rt, u64::from(pair.key().id) * 37 % 100, pair.score());
    }
}

#[test]
fn all_pairs_are_listed_where_more_are_asked_for(rt: HostRuntime) {
    let view = view_of(&rt, &mixed_up(&rt));
    let all = view.par_top(&rt, 1_000, |_, value| *value, Crew::of(1));
    let all = all.expect(&rt, "no pairs");
    assert_is(&rt, all.len(), 100);
    assert_is(&rt, all.get(99).map(|pair| pair.score()), Some(0));
    let none = view.par_top(&rt, 0, |_, value| *value, four());
    assert!(rt; none.is_ok_and(|none| none.is_empty()));
}
