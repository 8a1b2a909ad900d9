//! Maps that are filled with many pairs.
use super::{Map, assert_is, at, empty, key, plain};
use std::alloc::Global;
use std::process::Abort;
use std::sync::Wait;
use test_keys::ChosenKey;
use trie_map::{Anything, PutError, TrieMap};

// How many pairs there are.
const MANY: u32 = 100_000;

#[test]
fn a_map_is_extended_by_an_iterator(rt: HostRuntime) {
    let map = empty(&rt);
    let pairs = (0..MANY).map(|id| (key(id % 1_000, id), u64::from(id)));
    assert_is(&rt, map.extend_from(&rt, pairs), Ok(()));
    assert_is(&rt, map.len(&rt), 100_000);
    assert_is(&rt, at(&rt, &map, key(999, 99_999)), Some(99_999));
}

// Many pairs in a vector.
fn many(rt: &impl Abort, alloc: Global) -> Vec<(ChosenKey, u64)> {
    let mut pairs = Vec::new(alloc);
    for id in 0..MANY {
        let pair = (key(id % 1_000, id), u64::from(id));
        pairs.push(pair).expect(rt, "no room");
    }
    pairs
}

#[test]
fn a_map_is_extended_by_a_vector(rt: HostRuntime) {
    let map = empty(&rt);
    let pairs = many(&rt, rt.alloc());
    assert_is(&rt, map.extend(&rt, pairs), Ok(()));
    assert_is(&rt, map.len(&rt), 100_000);
    assert_is(&rt, at(&rt, &map, key(999, 99_999)), Some(99_999));
}

// A map of pairs of which three have one key: its value, and how many pairs there are.
fn filled<R: AllocGlobal + Wait>(rt: &R) -> Result<(Option<u64>, u64), PutError> {
    let pairs = [
        (key(1, 0), 1),
        (key(1, 0), 2),
        (key(2, 0), 9),
        (key(1, 0), 3),
    ];
    let map: TrieMap<_, _, Anything> = TrieMap::from_pairs(rt, pairs)?;
    Ok((plain(map.get(rt, &key(1, 0))?), map.len(rt)))
}

#[test]
fn a_map_is_made_of_pairs(rt: HostRuntime) {
    assert_is(&rt, filled(&rt), Ok((Some(3), 2)));
}

// Extends a map by the pairs of a view of another, each value one more.
fn copied<R: Wait>(rt: &R, from: &Map, to: &Map) -> Result<(), PutError> {
    let view = from.view(rt)?;
    to.extend_from(
        rt,
        view.iter()
            .map(|(key, value)| (**key, value.wrapping_add(1))),
    )
}

#[test]
fn a_map_is_extended_by_a_walk(rt: HostRuntime) {
    let from = empty(&rt);
    let to = empty(&rt);
    assert_is(
        &rt,
        from.extend_from(&rt, [(key(1, 0), 1), (key(2, 0), 2)]),
        Ok(()),
    );
    assert_is(&rt, copied(&rt, &from, &to), Ok(()));
    assert_is(&rt, at(&rt, &to, key(2, 0)), Some(3));
    assert_is(&rt, to.len(&rt), 2);
}
