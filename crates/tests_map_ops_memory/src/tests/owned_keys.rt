//! Puts of keys that lie in no `Arc` yet, by hand.
use super::{Chosen, assert_is, assert_value, chosen, empty, len, plainly, put, shared};
use hash_path::PathKey;
use std::alloc::Global;
use std::panic::Expect;
use std::process::Abort;
use std::sync::Arc;
use test_keys::{ChosenKey, take_all};
use trie_node::{Always, Condition, IfAbsent, IfEqual, IfPresent};
use versions::Refusal;

// Maps the key to the value where the condition holds. It returns the value before and whether it was done.
fn put_key_where<C: Condition<i64>>(
    alloc: Global,
    version: &mut Chosen,
    key: ChosenKey,
    value: Arc<i64>,
    condition: &C,
) -> Result<(Option<i64>, bool), Refusal> {
    let path = key.path();
    let change = version.put_key_where_along(alloc, key, path, value, condition)?;
    Ok((plainly(change.previous), change.written))
}

// What a put of the key under a condition is answered: the value before, and whether it was done.
fn assert_put_key<C: Condition<i64>>(
    rt: &impl Abort,
    alloc: Global,
    version: &mut Chosen,
    (key, value): (ChosenKey, i64),
    condition: &C,
    want: Result<(Option<i64>, bool), Refusal>,
) {
    let value = shared(rt, alloc, value);
    let seen = put_key_where(alloc, version, key, value, condition);
    assert_is(rt, seen, want);
}

// A map of two pairs, which may hold that many and one more.
fn of_two(rt: &impl Abort, alloc: Global) -> Chosen {
    let mut version = empty(rt, alloc, 3);
    assert_is(rt, put(rt, alloc, &mut version, chosen(0, 0), 1), Ok(None));
    assert_is(rt, put(rt, alloc, &mut version, chosen(9, 0), 2), Ok(None));
    version
}

#[test]
fn a_put_of_an_owned_key_tells_whether_it_was_done(rt: HostRuntime) {
    let alloc = rt.alloc();
    let mut map: Chosen = empty(&rt, alloc, 1);
    let a = chosen(0, 0);
    let b = chosen(1, 0);
    assert_put_key(&rt, alloc, &mut map, (a, 5), &IfPresent, Ok((None, false)));
    assert_put_key(&rt, alloc, &mut map, (a, 5), &IfAbsent, Ok((None, true)));
    assert_put_key(
        &rt,
        alloc,
        &mut map,
        (a, 6),
        &IfAbsent,
        Ok((Some(5), false)),
    );
    assert_put_key(
        &rt,
        alloc,
        &mut map,
        (a, 6),
        &IfEqual(&6),
        Ok((Some(5), false)),
    );
    assert_put_key(
        &rt,
        alloc,
        &mut map,
        (a, 6),
        &IfEqual(&5),
        Ok((Some(5), true)),
    );
    assert_put_key(&rt, alloc, &mut map, (b, 7), &IfAbsent, Err(Refusal::Full));
    assert_put_key(&rt, alloc, &mut map, (b, 7), &IfPresent, Ok((None, false)));
    assert_value(&rt, &map, a, Some(6));
    assert_value(&rt, &map, b, None);
}

// A body that makes the key's block first fails here, and one that copies a node that nobody shares.
#[test]
fn a_put_of_an_owned_key_that_is_there_makes_no_request(rt: HostRuntime) {
    let alloc = rt.alloc();
    let mut map = of_two(&rt, alloc);
    let three = shared(&rt, alloc, 3);
    let four = shared(&rt, alloc, 4);

    let taken = take_all(alloc).expect(&rt, "no list");
    let there = put_key_where(alloc, &mut map, chosen(0, 0), three, &Always);
    let absent = put_key_where(alloc, &mut map, chosen(5, 0), four, &Always);
    drop(taken);

    assert_is(&rt, there, Ok((Some(1), true)));
    assert_is(&rt, absent, Err(Refusal::NoMemory));
    assert_value(&rt, &map, chosen(0, 0), Some(3));
    assert_value(&rt, &map, chosen(5, 0), None);
    assert_is(&rt, len(&map), 2);
}

// A view shares the nodes of the key's way, so they are copied, and the view keeps what it had.
#[test]
fn a_put_of_an_owned_key_leaves_a_view(rt: HostRuntime) {
    let alloc = rt.alloc();
    let mut map = of_two(&rt, alloc);
    let view = map.view().expect(&rt, "no view");
    let three = shared(&rt, alloc, 3);

    let taken = take_all(alloc).expect(&rt, "no list");
    let refused = put_key_where(alloc, &mut map, chosen(0, 0), three, &Always);
    drop(taken);
    assert_is(&rt, refused, Err(Refusal::NoMemory));
    assert_value(&rt, &map, chosen(0, 0), Some(1));

    assert_put_key(
        &rt,
        alloc,
        &mut map,
        (chosen(0, 0), 4),
        &Always,
        Ok((Some(1), true)),
    );
    assert_value(&rt, &map, chosen(0, 0), Some(4));
    assert_is(&rt, view.get(&chosen(0, 0)).map(|value| **value), Some(1));
}

// A map that is full says so with every request refused.
#[test]
fn a_full_map_refuses_an_owned_key_without_memory(rt: HostRuntime) {
    let alloc = rt.alloc();
    let mut map = of_two(&rt, alloc);
    assert_put_key(
        &rt,
        alloc,
        &mut map,
        (chosen(4, 0), 3),
        &Always,
        Ok((None, true)),
    );
    let four = shared(&rt, alloc, 4);
    let taken = take_all(alloc).expect(&rt, "no list");
    let answer = put_key_where(alloc, &mut map, chosen(5, 0), four, &Always);
    drop(taken);
    assert_is(&rt, answer, Err(Refusal::Full));
}
