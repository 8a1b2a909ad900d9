//! Sets of keys.
use super::assert_is;
use tambyulo::TrieSet;

#[test]
fn a_set_has_each_key_once(rt: HostRuntime) {
    let seen: TrieSet<u64> = TrieSet::new(&rt).expect(&rt, "no set");
    let first = seen.insert(&rt, 7).expect(&rt, "not inserted");
    assert_is(&rt, first, true);
    assert_is(&rt, seen.insert(&rt, 7), Ok(false));
    assert_is(&rt, seen.insert(&rt, 8), Ok(true));
    assert_is(&rt, seen.contains(&rt, &7), true);
    assert_is(&rt, seen.len(&rt), 2);
    assert_is(&rt, seen.remove(&rt, &7), Ok(true));
    assert_is(&rt, seen.remove(&rt, &7), Ok(false));
    assert_is(&rt, seen.contains(&rt, &7), false);
    seen.clear(&rt).expect(&rt, "not cleared");
    assert_is(&rt, seen.is_empty(&rt), true);
}

#[test]
fn sets_are_put_together_by_their_views(rt: HostRuntime) {
    let odd: TrieSet<u64> = TrieSet::new(&rt).expect(&rt, "no set");
    let small: TrieSet<u64> = TrieSet::new(&rt).expect(&rt, "no set");
    for key in 0..10 {
        if key % 2 == 1 {
            odd.insert(&rt, key).expect(&rt, "not inserted");
        }
        if key < 5 {
            small.insert(&rt, key).expect(&rt, "not inserted");
        }
    }
    let view = odd.view(&rt).expect(&rt, "no view");
    let both = view.intersection(&small.view(&rt).expect(&rt, "no view"));
    let both = both.expect(&rt, "no map");
    assert_is(&rt, (both.len(), both.contains_key(&3)), (2, true));
    small
        .as_map()
        .restore_version(&rt, &both)
        .expect(&rt, "not restored");
    assert_is(&rt, small.len(&rt), 2);
    let sum = view
        .keys()
        .map(|key| **key)
        .fold(0, |sum: u64, key| sum.wrapping_add(key));
    assert_is(&rt, sum, 25);
}
