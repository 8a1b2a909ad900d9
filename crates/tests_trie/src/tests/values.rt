//! What maps with new values have, by hand.

use super::assert_is;
use super::maps::{KEYS, Map, NEW, key_at, put, spread};
use std::alloc::Global;
use std::process::Abort;
use std::sync::atomic::{AtomicU32, Ordering};
use std::test::Fail;
use test_keys::ChosenKey;
use test_maps::changed;
use trie_node::Stamp;
use versions::{Refusal, Version};

/// The root and two branches, four leaves and the bucket.
const NODES: u64 = 8;

/// The seven keys, each mapped to ten times its number.
fn seven(alloc: Global) -> Result<Map<u32>, Refusal> {
    let mut map = Version::empty(alloc, 1000, Stamp(1))?;
    for at in KEYS {
        put(alloc, &mut map, key_at(at), at.1.wrapping_mul(10))?;
    }
    Ok(map)
}

/// The value at the key, or none.
fn value_of<W: Copy + Drop>(map: &Map<W>, at: (u64, u32)) -> Option<W> {
    match map.get(&key_at(at)) {
        Some(value) => Some(**value),
        None => None,
    }
}

/// The values at the seven keys.
fn values<W: Copy + Drop>(map: &Map<W>) -> [Option<W>; 7] {
    [
        value_of(map, KEYS[0]),
        value_of(map, KEYS[1]),
        value_of(map, KEYS[2]),
        value_of(map, KEYS[3]),
        value_of(map, KEYS[4]),
        value_of(map, KEYS[5]),
        value_of(map, KEYS[6]),
    ]
}

/// How many pairs there are, and how many nodes have the map's own stamp.
fn sizes<W: Drop>(map: &Map<W>) -> (u64, u64) {
    (map.len(), map.own_nodes())
}

/// The map of seven keys is as it was made.
fn assert_as_before(rt: &impl Abort, map: &Map<u32>) {
    let tens = [
        Some(0),
        Some(10),
        Some(20),
        Some(30),
        Some(40),
        Some(50),
        Some(60),
    ];
    assert_is(rt, (values(map), sizes(map)), (tens, (7, NODES)));
}

#[test]
fn keys_at_several_levels_get_values_of_another_type(rt: HostRuntime) -> Result<(), Fail> {
    let map = seven(rt.alloc())?;
    let made = changed(
        rt.alloc(),
        &map,
        NEW,
        &|key: &ChosenKey, value: &u32| { (key.id % 2 == 0, u64::from(*value) + 1) },
    )?;
    let want = [
        Some((true, 1)),
        Some((false, 11)),
        Some((true, 21)),
        Some((false, 31)),
        Some((true, 41)),
        Some((false, 51)),
        Some((true, 61)),
    ];
    assert_is(&rt, (values(&made), sizes(&made)), (want, (7, NODES)));
    assert_as_before(&rt, &map);
    Ok(())
}

#[test]
fn no_keys_get_no_values(rt: HostRuntime) -> Result<(), Fail> {
    let map = Version::empty(rt.alloc(), 10, Stamp(1))?;
    let made = changed(rt.alloc(), &map, NEW, &|_: &ChosenKey, value: &u32| *value)?;
    assert_is(&rt, sizes(&made), (0, 1));
    Ok(())
}

/// How many of the keys are mapped to one more than their number.
fn raised(map: &Map<u32>, numbers: u32) -> u32 {
    let mut raised = 0u32;
    for number in 0..numbers {
        if let Some(value) = map.get(&spread(number)) {
            raised = raised.wrapping_add(u32::from(**value == number.wrapping_add(1)));
        }
    }
    raised
}

/// More pairs than are fetched at once, and branches of fewer.
#[test]
fn many_keys_get_values(rt: HostRuntime) -> Result<(), Fail> {
    let mut map = Version::empty(rt.alloc(), 2000, Stamp(1))?;
    for number in 0..2000u32 {
        put(rt.alloc(), &mut map, spread(number), number)?;
    }
    let made = changed(
        rt.alloc(),
        &map,
        NEW,
        &|_: &ChosenKey, value: &u32| value.wrapping_add(1),
    )?;
    assert_is(
        &rt,
        (made.len(), raised(&made, 2000), raised(&map, 2000)),
        (2000, 2000, 0),
    );
    Ok(())
}

/// The closure counts its calls, so it means nothing: what the keys are and where they stand is as ever.
#[test]
fn a_closure_is_called_once_for_each_pair(rt: HostRuntime) -> Result<(), Fail> {
    let map = seven(rt.alloc())?;
    let calls = AtomicU32::new(0);
    let made = changed(
        rt.alloc(),
        &map,
        NEW,
        &|_: &ChosenKey, _: &u32| { calls.fetch_add(1, Ordering::Relaxed) },
    )?;
    assert_is(
        &rt,
        (sizes(&made), calls.load(Ordering::Relaxed)),
        ((7, NODES), 7),
    );
    assert_is(
        &rt,
        values(&made),
        [
            Some(0),
            Some(1),
            Some(2),
            Some(3),
            Some(4),
            Some(5),
            Some(6),
        ],
    );
    Ok(())
}
