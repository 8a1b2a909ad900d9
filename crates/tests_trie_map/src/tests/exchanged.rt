//! Writes of keys that are there: where the map alone holds the nodes of their way, the values are exchanged.
use super::{Map, assert_is, at, empty, key, plain, put, snapshot_of, view_of};
use std::process::Abort;
use std::sync::{Arc, Wait};
use test_keys::ChosenKey;
use trie_map::PutError;

// Each call that writes a value at a key that is there.
#[derive(Clone, Copy, Debug)]
enum Write {
    Put,
    PutShared,
    PutMany,
    Extend,
    Replace,
    ReplaceShared,
    ReplaceIf,
    Update,
    UpdateWith,
    TryUpdate,
}

const WRITES: [Write; 10] = [
    Write::Put,
    Write::PutShared,
    Write::PutMany,
    Write::Extend,
    Write::Replace,
    Write::ReplaceShared,
    Write::ReplaceIf,
    Write::Update,
    Write::UpdateWith,
    Write::TryUpdate,
];

// Keys of one stripe: one that stands alone, and two that share a path word. Each has its place here as its value.
const KEYS: [ChosenKey; 3] = [
    ChosenKey { path: 35, id: 0 },
    ChosenKey { path: 3, id: 0 },
    ChosenKey { path: 3, id: 1 },
];

// A map of these keys.
fn of_three<R: AllocGlobal + Wait + Abort>(rt: &R) -> Map {
    let map = empty(rt);
    for (value, key) in (0u64..).zip(KEYS) {
        put(rt, &map, key, value);
    }
    map
}

// The values of these keys.
fn values<R: Wait + Abort>(rt: &R, map: &Map) -> [Option<u64>; 3] {
    KEYS.map(|key| at(rt, map, key))
}

// Writes the value at the key that has the other one, and returns the value before, if the call returns that.
fn make_write<R: AllocGlobal + Wait>(
    rt: &R,
    map: &Map,
    key: ChosenKey,
    (old, new): (u64, u64),
    call: Write,
) -> Result<Option<u64>, PutError> {
    Ok(match call {
        Write::Put => plain(map.put(rt, key, new)?),
        Write::PutShared => plain(map.put_shared(rt, key, Arc::new(rt.alloc(), new)?)?),
        Write::Replace => plain(map.replace(rt, key, new)?),
        Write::ReplaceShared => plain(map.replace_shared(rt, key, Arc::new(rt.alloc(), new)?)?),
        Write::ReplaceIf => map.replace_if(rt, key, &old, new)?.then_some(old),
        Write::Update => plain(map.update(rt, key, |_| Some(new))?),
        Write::UpdateWith => map.update_with(rt, key, |old| (Some(new), old.copied()))?,
        Write::TryUpdate => match map.try_update(rt, key, |_| Ok::<Option<u64>, u64>(Some(new)))? {
            Ok(before) => plain(before),
            Err(_) => None,
        },
        Write::PutMany | Write::Extend => write_list(rt, map, (key, new), old, call)?,
    })
}

// The same of the calls that take a list.
fn write_list<R: AllocGlobal + Wait>(
    rt: &R,
    map: &Map,
    pair: (ChosenKey, u64),
    old: u64,
    call: Write,
) -> Result<Option<u64>, PutError> {
    let mut pairs = Vec::new(rt.alloc());
    pairs.push(pair)?;
    match call {
        Write::PutMany => Ok(plain(map.put_many(rt, pairs)?.pop().flatten())),
        _ => {
            map.extend(rt, pairs)?;
            Ok(Some(old))
        }
    }
}

// Writes each of the keys, whose values grow by ten.
fn write_all<R: AllocGlobal + Wait + Abort>(rt: &R, map: &Map, base: u64, call: Write) {
    for (place, key) in (0u64..).zip(KEYS) {
        let old = base.wrapping_add(place);
        let before = make_write(rt, map, key, (old, old.wrapping_add(10)), call);
        assert_is(rt, before, Ok(Some(old)));
    }
}

// Each kind of call writes keys whose way only the map holds, then keys whose way others hold too, and then once more.
#[test]
fn a_snapshot_and_a_view_keep_the_values_of_their_moment(rt: HostRuntime) {
    for call in WRITES {
        let map = of_three(&rt);
        write_all(&rt, &map, 0, call);
        let snapshot = snapshot_of(&rt, &map);
        let view = view_of(&rt, &map);
        write_all(&rt, &map, 10, call);
        write_all(&rt, &map, 20, call);
        assert_is(&rt, values(&rt, &map), [Some(30), Some(31), Some(32)]);
        assert_is(&rt, values(&rt, &snapshot), [Some(10), Some(11), Some(12)]);
        assert_is(
            &rt,
            KEYS.map(|key| view.get(&key).map(|value| **value)),
            [Some(10), Some(11), Some(12)],
        );
        write_all(&rt, &snapshot, 10, call);
        assert_is(&rt, values(&rt, &map), [Some(30), Some(31), Some(32)]);
        assert_is(&rt, map.len(&rt), 3);
    }
}

// The value before is a handle that the caller has alone, once nobody else holds it.
#[test]
fn the_value_before_is_handed_out(rt: HostRuntime) {
    for call in [Write::Put, Write::Replace] {
        let map = of_three(&rt);
        let before = match call {
            Write::Put => map.put(&rt, KEYS[0], 10).expect(&rt, "not put"),
            _ => map.replace(&rt, KEYS[0], 10).expect(&rt, "not replaced"),
        };
        let own = before.map(|value| Arc::try_unwrap(value).ok());
        assert_is(&rt, own, Some(Some(0)));
    }
}

// A replacement of a key that is not there, or that has another value, writes nothing.
#[test]
fn what_is_not_there_is_not_replaced(rt: HostRuntime) {
    let map = of_three(&rt);
    let absent = [key(4, 0), ChosenKey { path: 3, id: 2 }];
    for key in absent {
        assert_is(&rt, map.replace(&rt, key, 5).map(plain), Ok(None));
        assert_is(&rt, map.replace_if(&rt, key, &0, 5), Ok(false));
    }
    assert_is(&rt, map.replace_if(&rt, KEYS[1], &0, 5), Ok(false));
    let view = view_of(&rt, &map);
    assert_is(&rt, map.replace_if(&rt, KEYS[1], &0, 5), Ok(false));
    assert_is(&rt, map.replace_if(&rt, KEYS[1], &1, 5), Ok(true));
    drop(view);
    assert_is(&rt, values(&rt, &map), [Some(0), Some(5), Some(2)]);
}
