//! What maps of the pairs that pass have, by hand and by puts of the same pairs.

use super::assert_is;
use super::maps::{KEYS, Map, NEW, key_at, put, spread};
use std::alloc::Global;
use std::process::Abort;
use std::sync::atomic::{AtomicU32, Ordering};
use std::test::Fail;
use test_keys::ChosenKey;
use test_maps::{outline_of_map, passing};
use test_roots::Outline;
use trie_node::Stamp;
use versions::{NoMemory, Refusal, Version};

/// Whether a set of numbers, by their bits, has a number.
fn has(numbers: u32, number: u32) -> bool {
    number < 32 && (numbers >> number) & 1 == 1
}

/// Those of the seven keys whose numbers the set has, each mapped to ten times its number.
fn some_of_seven(alloc: Global, numbers: u32, stamp: Stamp) -> Result<Map<u32>, Refusal> {
    let mut map = Version::empty(alloc, 1000, stamp)?;
    for at in KEYS {
        if has(numbers, at.1) {
            put(alloc, &mut map, key_at(at), at.1.wrapping_mul(10))?;
        }
    }
    Ok(map)
}

/// The nodes and pairs of a map.
fn seen(rt: &impl Abort, alloc: Global, map: &Map<u32>) -> Outline<u32> {
    outline_of_map(alloc, map).expect(rt, "no outline")
}

/// For each set of the seven keys: those that pass are left, node for node as puts of the same pairs make them, and
/// the map is as before. Among the sets are all, none, every second, one pair of the bucket and two, and each single
/// leaf from deep below, which is drawn up to the root.
#[test]
fn each_set_of_keys_is_left_as_puts_make_it(rt: HostRuntime) -> Result<(), Fail> {
    let map = some_of_seven(rt.alloc(), 127, Stamp(1))?;
    for numbers in 0..128u32 {
        let left = passing(
            rt.alloc(),
            &map,
            NEW,
            &|key: &ChosenKey, _: &u32| { has(numbers, key.id) },
        )?;
        let want = some_of_seven(rt.alloc(), numbers, NEW)?;
        assert_is(
            &rt,
            seen(&rt, rt.alloc(), &left),
            seen(&rt, rt.alloc(), &want),
        );
    }
    let before = some_of_seven(rt.alloc(), 127, Stamp(1))?;
    assert_is(
        &rt,
        seen(&rt, rt.alloc(), &map),
        seen(&rt, rt.alloc(), &before),
    );
    Ok(())
}

/// How many pairs and nodes there are where some keys are left, by hand.
fn sizes(alloc: Global, map: &Map<u32>, numbers: u32) -> Result<(u64, u64), NoMemory> {
    let left = passing(
        alloc,
        map,
        NEW,
        &|key: &ChosenKey, _: &u32| { has(numbers, key.id) },
    )?;
    Ok((left.len(), left.own_nodes()))
}

#[test]
fn what_is_left_alone_is_drawn_up(rt: HostRuntime) -> Result<(), Fail> {
    let map = some_of_seven(rt.alloc(), 127, Stamp(1))?;
    // The root alone; with one leaf, from three levels below it; with one leaf, from a bucket; with a bucket.
    assert_is(&rt, sizes(rt.alloc(), &map, 0)?, (0, 1));
    assert_is(&rt, sizes(rt.alloc(), &map, 0b100)?, (1, 2));
    assert_is(&rt, sizes(rt.alloc(), &map, 0b10_0000)?, (1, 2));
    assert_is(&rt, sizes(rt.alloc(), &map, 0b110_0000)?, (2, 2));
    // The root, a branch with one child, the branch below it and its two leaves; then all.
    assert_is(&rt, sizes(rt.alloc(), &map, 0b110)?, (2, 5));
    assert_is(&rt, sizes(rt.alloc(), &map, 127)?, (7, 8));
    Ok(())
}

/// The keys of the numbers, or of the even ones alone, each mapped to its number.
fn spread_map(alloc: Global, all: bool, stamp: Stamp) -> Result<Map<u32>, Refusal> {
    let mut map = Version::empty(alloc, 2000, stamp)?;
    for number in 0..2000u32 {
        if all || number % 2 == 0 {
            put(alloc, &mut map, spread(number), number)?;
        }
    }
    Ok(map)
}

/// More pairs than are fetched at once, and branches of fewer.
#[test]
fn every_second_of_many_is_left_as_puts_make_it(rt: HostRuntime) -> Result<(), Fail> {
    let map = spread_map(rt.alloc(), true, Stamp(1))?;
    let left = passing(
        rt.alloc(),
        &map,
        NEW,
        &|_: &ChosenKey, value: &u32| value % 2 == 0,
    )?;
    let want = spread_map(rt.alloc(), false, NEW)?;
    assert_is(
        &rt,
        seen(&rt, rt.alloc(), &left),
        seen(&rt, rt.alloc(), &want),
    );
    Ok(())
}

/// The test counts its calls and lets every third pair pass, so it means nothing: it is asked in the order of a walk.
#[test]
fn a_test_is_asked_once_for_each_pair(rt: HostRuntime) -> Result<(), Fail> {
    let map = some_of_seven(rt.alloc(), 127, Stamp(1))?;
    let calls = AtomicU32::new(0);
    let left = passing(
        rt.alloc(),
        &map,
        NEW,
        &|_: &ChosenKey, _: &u32| { calls.fetch_add(1, Ordering::Relaxed) % 3 == 0 },
    )?;
    assert_is(&rt, calls.load(Ordering::Relaxed), 7);
    let want = some_of_seven(rt.alloc(), 0b100_1001, NEW)?;
    assert_is(
        &rt,
        seen(&rt, rt.alloc(), &left),
        seen(&rt, rt.alloc(), &want),
    );
    Ok(())
}
