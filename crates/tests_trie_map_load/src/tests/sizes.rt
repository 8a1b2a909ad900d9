//! Maps of many pairs, and a stripe that is full.
use super::{Map, Seen, assert_is, empty, key, plain, view_of};
use std::alloc::Global;
use std::sync::Wait;
use test_keys::ChosenKey;
use trie_map::{MOST_PAIRS_OF_STRIPE, NoMemory, PutError};

// More pairs than numbers of 16 bits, twice over.
const MANY: u64 = 131_073;

// A key whose word is a number.
fn numbered(number: u64) -> ChosenKey {
    ChosenKey {
        path: number,
        id: 0,
    }
}

// A key whose word has the first digit 0, and a number behind it.
fn in_first_stripe(number: u64) -> ChosenKey {
    numbered(number.wrapping_mul(32))
}

// Puts many keys, and returns how many were there before.
fn put_many<R: Wait>(rt: &R, map: &Map) -> Result<u64, PutError> {
    let mut there = 0u64;
    for number in 0..MANY {
        if map.put(rt, numbered(number), number)?.is_some() {
            there = there.wrapping_add(1);
        }
    }
    Ok(there)
}

// How many of the keys have their number.
fn got<R: Wait>(rt: &R, map: &Map) -> Result<u64, NoMemory> {
    let mut right = 0u64;
    for number in 0..MANY {
        if plain(map.get(rt, &numbered(number))?) == Some(number) {
            right = right.wrapping_add(1);
        }
    }
    Ok(right)
}

// How many pairs the view says that it has, and how many a walk over it meets whose value is their key's number.
fn viewed(view: &Seen) -> (u64, u64) {
    let mut right = 0u64;
    for (key, value) in view.pairs() {
        if key.path == **value {
            right = right.wrapping_add(1);
        }
    }
    (view.len(), right)
}

// Removes the keys, and returns how many had their number.
fn removed<R: Wait>(rt: &R, map: &Map) -> Result<u64, NoMemory> {
    let mut right = 0u64;
    for number in 0..MANY {
        if plain(map.remove(rt, &numbered(number))?) == Some(number) {
            right = right.wrapping_add(1);
        }
    }
    Ok(right)
}

#[test]
fn many_pairs(rt: HostRuntime) {
    let map = empty(&rt);
    assert_is(&rt, put_many(&rt, &map), Ok(0));
    assert_is(&rt, got(&rt, &map), Ok(MANY));
    assert_is(&rt, viewed(&view_of(&rt, &map)), (MANY, MANY));
    assert_is(&rt, map.len(&rt), MANY);
    assert_is(&rt, removed(&rt, &map), Ok(MANY));
    assert_is(&rt, map.is_empty(&rt), true);
}

// Puts as many keys of the first digit 0 as a stripe may have.
fn fill<R: Wait>(rt: &R, map: &Map) -> Result<(), PutError> {
    for number in 0..MOST_PAIRS_OF_STRIPE {
        map.put(rt, in_first_stripe(number), number)?;
    }
    Ok(())
}

// What writes by a closure of a key that is new to the full stripe are answered. Where no value is made there is nothing
// to refuse.
fn made_of_new<R: Wait>(rt: &R, map: &Map) -> [bool; 5] {
    let new = in_first_stripe(MOST_PAIRS_OF_STRIPE);
    [
        map.update(rt, new, |_| Some(1))
            .is_err_and(|e| e == PutError::Full),
        map.update_with(rt, new, |_| (Some(1), 2))
            .is_err_and(|e| e == PutError::Full),
        map.try_update(rt, new, |_| -> Result<Option<u64>, u32> { Ok(Some(1)) })
            .is_err_and(|e| e == PutError::Full),
        map.update(rt, new, |_| None)
            .is_ok_and(|before| before.is_none()),
        map.update_with(rt, new, |_| (None, 2))
            .is_ok_and(|n| n == 2),
    ]
}

// What calls on a key that is new to the full stripe are answered.
fn of_new<R: Wait>(rt: &R, map: &Map) -> [bool; 9] {
    let new = in_first_stripe(MOST_PAIRS_OF_STRIPE);
    [
        map.put(rt, new, 1).is_err_and(|e| e == PutError::Full),
        map.put_if_absent(rt, new, 1)
            .is_err_and(|e| e == PutError::Full),
        map.get_or_else_update(rt, new, || 1)
            .is_err_and(|e| e == PutError::Full),
        map.try_get_or_else_update(rt, new, || -> Result<u64, u32> { Ok(1) })
            .is_err_and(|e| e == PutError::Full),
        map.replace(rt, new, 1).is_ok_and(|found| found.is_none()),
        map.replace_if(rt, new, &1, 2).is_ok_and(|done| !done),
        map.remove(rt, &new).is_ok_and(|found| found.is_none()),
        map.get(rt, &new).is_ok_and(|found| found.is_none()),
        !map.contains_key(rt, &new),
    ]
}

// What calls on a key of the full stripe are answered, whose value is 5.
fn of_old<R: Wait>(rt: &R, map: &Map) -> Result<[u64; 6], PutError> {
    let old = in_first_stripe(5);
    Ok([
        plain(map.get(rt, &old)?).unwrap_or(0),
        plain(map.put(rt, old, 6)?).unwrap_or(0),
        plain(map.put_if_absent(rt, old, 1)?).unwrap_or(0),
        plain(map.replace(rt, old, 7)?).unwrap_or(0),
        u64::from(map.replace_if(rt, old, &7, 8)?),
        *map.get_or_else_update(rt, old, || 1)?,
    ])
}

// What writes by a closure of a key of the full stripe are answered, whose value is 8.
fn made_of_old<R: Wait>(rt: &R, map: &Map) -> Result<[u64; 3], PutError> {
    let old = in_first_stripe(5);
    let tried = map.try_update(rt, old, |_| -> Result<Option<u64>, u32> { Ok(Some(10)) })?;
    Ok([
        tried.map_or(0, |before| plain(before).unwrap_or(0)),
        plain(map.update(rt, old, |_| Some(11))?).unwrap_or(0),
        map.update_with(rt, old, |was| (Some(12), was.map_or(0, |n| *n)))?,
    ])
}

// Puts a key of another stripe, one that is new to the full stripe, and one more, which is not reached.
fn extended<R: Wait>(rt: &R, alloc: Global, map: &Map) -> Result<(), PutError> {
    let mut pairs = Vec::new(alloc);
    pairs.push((key(1, 0), 1))?;
    pairs.push((in_first_stripe(MOST_PAIRS_OF_STRIPE), 2))?;
    pairs.push((key(2, 0), 3))?;
    map.extend(rt, pairs)
}

// Why a list is refused that puts a key of the full stripe, one that is new to it and one of another stripe, and how many
// of them were put and are given back.
fn listed<R: Wait>(
    rt: &R,
    alloc: Global,
    map: &Map,
) -> Result<Option<(PutError, [usize; 2])>, PutError> {
    let mut pairs = Vec::new(alloc);
    pairs.push((in_first_stripe(5), 13))?;
    pairs.push((in_first_stripe(MOST_PAIRS_OF_STRIPE), 2))?;
    pairs.push((key(2, 0), 3))?;
    match map.put_many(rt, pairs) {
        Ok(_) => Ok(None),
        Err(refused) => Ok(Some((refused.error, [refused.put.len(), refused.rest.len()]))),
    }
}

// Removes a key of the full stripe, and puts one that is new to it: what each is answered.
fn made_room<R: Wait>(rt: &R, map: &Map) -> Result<[Option<u64>; 2], PutError> {
    Ok([
        plain(map.remove(rt, &in_first_stripe(9))?),
        plain(map.put(rt, in_first_stripe(MOST_PAIRS_OF_STRIPE), 9)?),
    ])
}

#[test]
fn a_full_stripe(rt: HostRuntime) {
    let map = empty(&rt);
    assert_is(&rt, fill(&rt, &map), Ok(()));
    assert_is(&rt, of_new(&rt, &map), [true; 9]);
    assert_is(&rt, of_old(&rt, &map), Ok([5, 5, 6, 6, 1, 8]));
    assert_is(&rt, made_of_new(&rt, &map), [true; 5]);
    assert_is(&rt, made_of_old(&rt, &map), Ok([8, 10, 11]));
    let extension = extended(&rt, rt.alloc(), &map);
    assert_is(&rt, extension, Err(PutError::Full));
    let list = listed(&rt, rt.alloc(), &map);
    assert_is(&rt, list, Ok(Some((PutError::Full, [1, 2]))));
    assert_is(&rt, map.contains_key(&rt, &key(1, 0)), true);
    assert_is(&rt, map.contains_key(&rt, &key(2, 0)), false);
    assert_is(&rt, made_room(&rt, &map), Ok([Some(9), None]));
    assert_is(&rt, map.len(&rt), MOST_PAIRS_OF_STRIPE + 1);
}
