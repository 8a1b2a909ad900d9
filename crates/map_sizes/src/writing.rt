//! Calls that write the map, and look-ups.
use crate::{Numbers, PAIRS};
use std::sync::Wait;
use tambyulo::{NoMemory, PutError, TrieMap};

// How many numbers single calls are made of, and how far these are apart.
const SOME: u64 = 1_000;

const APART: u64 = PAIRS / SOME;

/// A map of all numbers.
pub fn filled<R: AllocGlobal + Wait>(rt: &R) -> Result<Numbers, PutError> {
    let map = TrieMap::new(rt)?;
    map.extend_from(rt, (0..PAIRS).map(|number| (number, number)))?;
    Ok(map)
}

/// How many of some numbers have themselves as their value, and how many pairs there are.
pub fn found<R: Wait>(rt: &R, map: &Numbers) -> Result<[u64; 2], NoMemory> {
    let mut right = 0u64;
    for some in 0..SOME {
        let number = some.wrapping_mul(APART);
        if map.get(rt, &number)?.is_some_and(|value| *value == number) {
            right = right.wrapping_add(1);
        }
    }
    Ok([right, map.len(rt)])
}

// Makes the values of some numbers one more.
fn raise_some<R: Wait>(rt: &R, map: &Numbers) -> Result<(), PutError> {
    for some in 0..SOME {
        let number = some.wrapping_mul(APART);
        map.update(rt, number, |old| old.map(|value| value.wrapping_add(1)))?;
    }
    Ok(())
}

/// Makes the values of some numbers one more while a view is kept: how many values are so in the map, and in the view.
pub fn raised<R: Wait>(rt: &R, map: &Numbers) -> Result<[u64; 2], PutError> {
    let view = map.view(rt)?;
    raise_some(rt, map)?;
    let now = map.count(rt, |key, value| *key != *value)?;
    let before = view.count(|key, value| *key != *value);
    Ok([now, before])
}

/// How many pairs a snapshot has, and how many are left there once those with even keys were removed.
pub fn copied<R: Wait>(rt: &R, map: &Numbers) -> Result<[u64; 2], NoMemory> {
    let copy = map.snapshot(rt)?;
    let pairs = copy.len(rt);
    copy.retain(rt, |key, _| *key % 2 == 1)?;
    Ok([pairs, copy.len(rt)])
}

/// How many of some numbers are removed, one by one, and how many pairs are left.
pub fn removed<R: Wait>(rt: &R, map: &Numbers) -> Result<[u64; 2], NoMemory> {
    let mut removed = 0u64;
    for some in 0..SOME {
        if map.remove(rt, &some.wrapping_mul(APART))?.is_some() {
            removed = removed.wrapping_add(1);
        }
    }
    Ok([removed, map.len(rt)])
}
