//! Readers of a map: keys of their base while these are locked, and each kind of write.
use super::{Map, assert_is, empty, key, put};
use std::process::Abort;
use std::sync::{Arc, Wait};
use test_keys::ChosenKey;
use trie_map::{PutError, Reader, TrieMap};

// What one thread reads such a map by.
type OwnReader<'r> = Reader<'r, ChosenKey, u64>;

// After this many misses a reader of a map of fewer than 32 pairs makes its first base.
const MISSES: u32 = 64;

// How many pairs the map has, each in a stripe of its own.
const PAIRS: u32 = 31;

// A map with a key of each digit but the last, which has the digit as its value.
fn filled<R: AllocGlobal + Wait + Abort>(rt: &R) -> Map {
    let map = empty(rt);
    for digit in 0..PAIRS {
        put(rt, &map, key(digit, 0), u64::from(digit));
    }
    map
}

// Reads a key so often that no test puts.
fn miss<R: Wait>(rt: &R, reader: &mut OwnReader<'_>, times: u32) {
    for _ in 0..times {
        reader.get_copied(rt, &key(31, 9));
    }
}

// What the reader finds at a key while its stripe is locked. Where it took the lock, it would wait for itself.
fn read_locked<R: Wait>(rt: &R, map: &Map, reader: &mut OwnReader<'_>, digit: u32) -> Option<u64> {
    map.read(
        rt,
        &key(digit, 0),
        |_| reader.get_copied(rt, &key(digit, 0)),
    )
}

#[test]
fn keys_of_a_base_are_read_while_they_are_locked(rt: HostRuntime) {
    let map = filled(&rt);
    let readers = map.readers();
    let mut reader = readers.reader();
    miss(&rt, &mut reader, MISSES);
    assert_is(&rt, readers.made(), 1);
    assert_is(&rt, read_locked(&rt, &map, &mut reader, 0), Some(0));
    assert_is(&rt, read_locked(&rt, &map, &mut reader, 30), Some(30));
    assert_is(&rt, read_locked(&rt, &map, &mut reader, 31), None);
}

// Calls that write the key 3 of the map, and two under conditions that fail.
#[derive(Clone, Copy, Debug)]
enum Write {
    Put,
    PutShared,
    PutMany,
    Replace,
    ReplaceIf,
    ReplaceAll,
    Update,
    PutIfAbsent,
    Remove,
    RemoveIf,
    RemoveWhere,
    RemoveWhereNot,
    Retain,
    Clear,
    Restore,
}

// Makes the call, and returns whether it was granted.
fn make_write<R: AllocGlobal + Wait>(rt: &R, map: &Map, call: Write) -> bool {
    let third = key(3, 0);
    match call {
        Write::Put => map.put(rt, third, 70).is_ok(),
        Write::PutShared => put_shared(rt, map, 70).is_ok(),
        Write::PutMany => put_list(rt, map, 70).is_ok(),
        Write::Replace => map.replace(rt, third, 70).is_ok(),
        Write::ReplaceIf => map.replace_if(rt, third, &3, 70).is_ok(),
        Write::ReplaceAll => map.replace_all(rt, |_, _| 70).is_ok(),
        Write::Update => map.update(rt, third, |_| Some(70)).is_ok(),
        Write::PutIfAbsent => map.put_if_absent(rt, third, 70).is_ok(),
        _ => remove(rt, map, call),
    }
}

fn put_shared<R: AllocGlobal + Wait>(rt: &R, map: &Map, value: u64) -> Result<(), PutError> {
    map.put_shared(rt, key(3, 0), Arc::new(rt.alloc(), value)?)?;
    Ok(())
}

fn put_list<R: AllocGlobal + Wait>(rt: &R, map: &Map, value: u64) -> Result<(), PutError> {
    let mut pairs = Vec::new(rt.alloc());
    pairs.push((key(3, 0), value))?;
    map.put_many(rt, pairs)?;
    Ok(())
}

fn restore_none<R: AllocGlobal + Wait>(rt: &R, map: &Map) -> Result<(), PutError> {
    let none: Map = TrieMap::new(rt)?;
    map.restore(rt, &none.view(rt)?)?;
    Ok(())
}

fn remove<R: AllocGlobal + Wait>(rt: &R, map: &Map, call: Write) -> bool {
    let third = key(3, 0);
    match call {
        Write::Remove => map.remove(rt, &third).is_ok(),
        Write::RemoveIf => map.remove_if(rt, &third, &3).is_ok(),
        Write::RemoveWhere => map.remove_where(rt, &third, |value| *value == 3).is_ok(),
        Write::RemoveWhereNot => map.remove_where(rt, &third, |value| *value != 3).is_ok(),
        Write::Retain => map.retain(rt, |_, value| *value != 3).is_ok(),
        Write::Restore => restore_none(rt, map).is_ok(),
        _ => map.clear(rt).is_ok(),
    }
}

// Makes the call on a map whose reader has a base, and returns whether it was granted, and what the reader finds then.
fn seen_after<R: AllocGlobal + Wait + Abort>(rt: &R, call: Write) -> (bool, Option<u64>) {
    let map = filled(rt);
    let readers = map.readers();
    let mut reader = readers.reader();
    miss(rt, &mut reader, MISSES);
    let granted = make_write(rt, &map, call);
    (granted, reader.get_copied(rt, &key(3, 0)))
}

#[test]
fn a_reader_with_a_base_sees_each_kind_of_write(rt: HostRuntime) {
    for call in [
        Write::Put,
        Write::PutShared,
        Write::PutMany,
        Write::Replace,
        Write::ReplaceIf,
        Write::ReplaceAll,
        Write::Update,
    ] {
        assert_is(&rt, seen_after(&rt, call), (true, Some(70)));
    }
    for call in [
        Write::Remove,
        Write::RemoveIf,
        Write::RemoveWhere,
        Write::Retain,
        Write::Clear,
        Write::Restore,
    ] {
        assert_is(&rt, seen_after(&rt, call), (true, None));
    }
}

// Makes the call on a map whose reader has a base, once a put beside the key has copied the nodes of its way, and returns
// whether it was granted, and what the reader finds then.
fn seen_once_copied<R: AllocGlobal + Wait + Abort>(rt: &R, call: Write) -> (bool, Option<u64>) {
    let map = empty(rt);
    let beside = key(35, 0);
    put(rt, &map, key(3, 0), 3);
    put(rt, &map, beside, 4);
    let readers = map.readers();
    let mut reader = readers.reader();
    miss(rt, &mut reader, MISSES);
    put(rt, &map, beside, 5);
    assert_is(rt, reader.get_copied(rt, &key(3, 0)), Some(3));
    let granted = make_write(rt, &map, call);
    (granted, reader.get_copied(rt, &key(3, 0)))
}

// Here the values of the key are exchanged: its nodes are not those of the base any more.
#[test]
fn a_reader_sees_a_value_that_is_exchanged(rt: HostRuntime) {
    for call in [
        Write::Put,
        Write::PutShared,
        Write::PutMany,
        Write::Replace,
        Write::ReplaceIf,
        Write::Update,
    ] {
        assert_is(&rt, seen_once_copied(&rt, call), (true, Some(70)));
    }
}

// A call under a condition that fails leaves the key in the base.
#[test]
fn a_call_that_writes_nothing_marks_nothing(rt: HostRuntime) {
    for call in [Write::PutIfAbsent, Write::RemoveWhereNot] {
        let map = filled(&rt);
        let readers = map.readers();
        let mut reader = readers.reader();
        miss(&rt, &mut reader, MISSES);
        assert_is(&rt, make_write(&rt, &map, call), true);
        assert_is(&rt, read_locked(&rt, &map, &mut reader, 3), Some(3));
    }
}
