//! What lists of keys find, beside a plain search of the pairs that were put.

use super::assert_is;
use super::maps::{Map, key_at, put, spread};
use std::alloc::{AllocError, Global};
use std::process::Abort;
use std::test::Fail;
use test_keys::{ChosenKey, Random};
use test_maps::found_in;
use trie_node::{NoMemory, Stamp};
use versions::{Refusal, Version};

/// Keys by their words and numbers. The first three share their words' lowest digit, and two of them the next one too, so
/// that their leaves stand two and three levels below the root. The fourth's leaf stands right below it, and so does a
/// bucket of three, which have one word. The last two share all digits but the last.
const KEYS: [(u64, u32); 9] = [
    (1, 0),
    (65, 1),
    (3137, 2),
    (7, 3),
    (9, 4),
    (9, 5),
    (9, 6),
    (30, 7),
    (0xc000_0000_0000_001e, 8),
];

/// Keys that no map of the tests has: at the root's digits and at others, in a bucket's word, with the word of a leaf, and
/// beside the deepest leaves.
const ABSENT: [(u64, u32); 6] = [
    (2, 0),
    (33, 1),
    (9, 7),
    (7, 9),
    (0x8000_0000_0000_001e, 8),
    (62, 7),
];

/// A list of keys, given by words and numbers.
fn listed(alloc: Global, keys: &[(u64, u32)]) -> Result<Vec<ChosenKey>, AllocError> {
    let mut list = Vec::new(alloc);
    for at in keys {
        list.push(key_at(*at))?;
    }
    Ok(list)
}

/// The map of these keys, each mapped to its number.
fn map_of(alloc: Global, keys: &[ChosenKey]) -> Result<Map<u32>, Refusal> {
    let mut map = Version::empty(alloc, 10_000, Stamp(1))?;
    for key in keys {
        put(alloc, &mut map, *key, key.id)?;
    }
    Ok(map)
}

/// What the keys find in the map.
fn found(alloc: Global, map: &Map<u32>, keys: &[ChosenKey]) -> Result<Vec<Option<u32>>, NoMemory> {
    let mut sought = Vec::with_capacity(alloc, keys.len())?;
    for key in keys {
        sought.push(key)?;
    }
    let mut values = Vec::with_capacity(alloc, keys.len())?;
    for value in found_in(alloc, map, sought.as_slice())? {
        values.push(match value {
            Some(value) => Some(**value),
            None => None,
        })?;
    }
    Ok(values)
}

/// What they are to find: the number of each key that was put.
fn wanted(
    alloc: Global,
    put: &[ChosenKey],
    keys: &[ChosenKey],
) -> Result<Vec<Option<u32>>, AllocError> {
    let mut values = Vec::new(alloc);
    for key in keys {
        values.push(if put.contains(key) {
            Some(key.id)
        } else {
            None
        })?;
    }
    Ok(values)
}

/// In the map of some keys these keys find what they are to.
fn assert_found(
    rt: &impl Abort,
    alloc: Global,
    put: &[ChosenKey],
    keys: &[ChosenKey],
) -> Result<(), Fail> {
    let map = map_of(alloc, put)?;
    assert_is(rt, found(alloc, &map, keys)?, wanted(alloc, put, keys)?);
    Ok(())
}

/// A root with no pairs, with one, with a few at each depth, with a bucket alone, and with all.
#[test]
fn each_key_finds_its_value_or_none(rt: HostRuntime) -> Result<(), Fail> {
    let alloc = rt.alloc();
    let mut keys = listed(alloc, &KEYS)?;
    keys.append(&mut listed(alloc, &ABSENT)?)?;
    for few in [0..0, 0..1, 0..3, 3..4, 4..7, 7..9, 1..8, 0..9] {
        let put = listed(alloc, KEYS.get(few).unwrap_or(&KEYS))?;
        assert_found(&rt, alloc, &put, &keys)?;
    }
    Ok(())
}

/// Some of the keys, chosen at random: most stand more than once.
fn chosen(
    alloc: Global,
    random: &mut Random,
    keys: &[ChosenKey],
    count: usize,
) -> Result<Vec<ChosenKey>, AllocError> {
    let most = u32::try_from(keys.len()).unwrap_or(u32::MAX);
    let mut list = Vec::new(alloc);
    for _ in 0..count {
        if let Some(key) = keys.get(random.next(most) as usize) {
            list.push(*key)?;
        }
    }
    Ok(list)
}

/// Fewer keys than go down side by side, as many, one more, and several times as many.
#[test]
fn lists_of_any_length_are_answered_in_order(rt: HostRuntime) -> Result<(), Fail> {
    let alloc = rt.alloc();
    let put = listed(alloc, &KEYS)?;
    let mut keys = listed(alloc, &KEYS)?;
    keys.append(&mut listed(alloc, &ABSENT)?)?;
    let mut random = Random(1);
    for count in [0, 1, 7, 8, 9, 16, 17, 100] {
        let list = chosen(alloc, &mut random, &keys, count)?;
        assert_found(&rt, alloc, &put, &list)?;
    }
    Ok(())
}

/// Two thousand keys whose words are spread over all levels, of which every second one was put.
#[test]
fn many_keys_find_what_was_put(rt: HostRuntime) -> Result<(), Fail> {
    let alloc = rt.alloc();
    let mut put = Vec::new(alloc);
    let mut keys = Vec::new(alloc);
    for number in 0..2000u32 {
        let at = spread(number);
        keys.push(at)?;
        if number % 2 == 0 {
            put.push(at)?;
        }
    }
    assert_found(&rt, alloc, &put, &keys)
}
