//! Questions by closures that a crew works.

use super::{Map, assert_is, empty, put, view_of};
use combiner::Sum;
use std::process::Abort;
use std::sync::Wait;
use test_keys::ChosenKey;
use trie_map::Crew;

/// Four workers, each of which has its pieces cut down to single pairs. None ends before the last piece is worked.
pub(super) fn four() -> Crew {
    Crew {
        workers: 4,
        grain: 1,
        patience: u32::MAX,
    }
}

/// A map of 300 keys in all stripes: a third of them each have the values 0, 1 and 2.
pub(super) fn in_thirds<R: AllocGlobal + Wait + Abort>(rt: &R) -> Map {
    let map = empty(rt);
    for id in 0..300 {
        let path = u64::from(id);
        put(rt, &map, ChosenKey { path, id }, path % 3);
    }
    map
}

#[test]
fn a_crew_counts_by_a_plain_closure(rt: HostRuntime) {
    let map = in_thirds(&rt);
    let counted = map.par_count(&rt, |_, value| *value == 1, four());
    assert!(rt; matches!(counted, Ok(100)));
    let view = view_of(&rt, &map);
    let absent = view.par_count(&rt, |_, value| *value == 3, four());
    assert!(rt; matches!(absent, Ok(0)));
    let all = view.par_count(&rt, |_, _| true, Crew::of(1));
    assert!(rt; matches!(all, Ok(300)));
}

#[test]
fn a_crew_folds_by_a_plain_closure(rt: HostRuntime) {
    let map = in_thirds(&rt);
    let of_map = map.par_fold(&rt, &Sum, |_, value| i128::from(*value), four());
    assert!(rt; matches!(of_map, Ok(300)));
    let of_view = view_of(&rt, &map).par_fold(&rt, &Sum, |_, value| i128::from(*value), four());
    assert!(rt; matches!(of_view, Ok(300)));
}

#[test]
fn a_crew_finds_a_pair_by_a_plain_closure(rt: HostRuntime) {
    let map = in_thirds(&rt);
    let found = map.par_find(&rt, |key, _| key.id == 299, four());
    let found = found
        .expect(&rt, "not searched")
        .map(|pair| (pair.0.id, *pair.1));
    assert_is(&rt, found, Some((299, 2)));
    let view = view_of(&rt, &map);
    let absent = view.par_find(&rt, |_, value| *value == 3, four());
    assert_is(&rt, absent.expect(&rt, "not searched").is_none(), true);
}

#[test]
fn a_crew_says_whether_some_pass_and_whether_all(rt: HostRuntime) {
    let map = in_thirds(&rt);
    let view = view_of(&rt, &map);
    assert_is(
        &rt,
        map.par_exists(&rt, |_, value| *value == 2, four()),
        Ok(true),
    );
    assert_is(
        &rt,
        view.par_exists(&rt, |_, value| *value == 3, four()),
        Ok(false),
    );
    assert_is(
        &rt,
        map.par_for_all(&rt, |_, value| *value < 3, four()),
        Ok(true),
    );
    assert_is(
        &rt,
        view.par_for_all(&rt, |_, value| *value < 2, four()),
        Ok(false),
    );
    let none = view_of(&rt, &empty(&rt));
    assert_is(&rt, none.par_exists(&rt, |_, _| true, four()), Ok(false));
    assert_is(&rt, none.par_for_all(&rt, |_, _| false, four()), Ok(true));
}

#[test]
fn a_crew_calls_a_closure_at_each_pair(rt: HostRuntime) {
    let map = in_thirds(&rt);
    let sum: Map = empty(&rt);
    let done = map.par_for_each(
        &rt,
        |key, _| {
            sum.put(&rt, *key, 1).is_ok();
        },
        four(),
    );
    assert_is(&rt, done, Ok(()));
    assert_is(&rt, sum.len(&rt), 300);
}
