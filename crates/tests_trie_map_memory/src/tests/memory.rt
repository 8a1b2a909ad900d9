//! Calls with requests for memory refused.
use super::{Map, Seen, assert_is, at, empty, key, plain, put, view_of};
use combiner::Sum;
use std::alloc::{AllocError, Global};
use std::process::Abort;
use std::sync::Wait;
use std::thread::Threads;
use test_keys::{ChosenKey, Shortage, take_all};
use trie_map::{Crew, PutError};

// The sizes of what a put asks for that is one child too many for its branch: an `Arc` of its key or value, and a row of four
// places.
const SMALL: usize = 16;

const LARGE: usize = 136;

// How many blocks of each size a put is given at most.
const MOST_SMALL: usize = 8;

const MOST_LARGE: usize = 4;

// How many sizes of room a call on all stripes is given, and by how many bytes they differ.
const STEPS: u32 = 240;

const STEP: usize = 256;

// Whether each call on a map of two pairs answers as it has to where every request is refused: reads as ever, and the
// others that there is no memory.
fn without_memory<R: Wait>(rt: &R, map: &Map, view: &Seen) -> [bool; 12] {
    [
        map.get(rt, &key(1, 0))
            .is_ok_and(|found| plain(found) == Some(1)),
        map.get_copied(rt, &key(1, 0)) == Some(1),
        map.read(rt, &key(1, 1), |found| found.copied()) == Some(2),
        map.contains_key(rt, &key(1, 1)),
        map.len(rt) == 2,
        map.approx_len(rt) == 2,
        map.put(rt, key(2, 0), 3)
            .is_err_and(|e| e == PutError::NoMemory),
        map.clear(rt).is_err(),
        map.view(rt).is_err(),
        map.snapshot(rt).is_err(),
        map.restore(rt, view)
            .is_err_and(|e| e == PutError::NoMemory),
        map.replace_all(rt, |_, value| *value).is_err(),
    ]
}

#[test]
fn reads_make_no_request_and_writes_are_refused(rt: HostRuntime) {
    let map = empty(&rt);
    put(&rt, &map, key(1, 0), 1);
    put(&rt, &map, key(1, 1), 2);
    let view = view_of(&rt, &map);
    let taken = take_all(rt.alloc()).expect(&rt, "no list");
    let answers = without_memory(&rt, &map, &view);
    drop(taken);
    assert_is(&rt, answers, [true; 12]);
    assert_is(&rt, map.len(&rt), 2);
}

// `count` blocks of a size. Each that is dropped once all memory is taken is room for one request.
fn blocks(alloc: Global, count: usize, size: usize) -> Result<Vec<Vec<u8>>, AllocError> {
    let mut blocks = Vec::with_capacity(alloc, count)?;
    for _ in 0..count {
        blocks.push(Vec::with_capacity(alloc, size)?)?;
    }
    Ok(blocks)
}

// What a put of a third key returns where there is room for `small` small requests and `large` large ones alone.
fn put_in_room<R: Wait + Abort>(
    rt: &R,
    alloc: Global,
    map: &Map,
    small: usize,
    large: usize,
) -> Result<Option<u64>, PutError> {
    let smalls = blocks(alloc, small, SMALL).expect(rt, "no blocks");
    let larges = blocks(alloc, large, LARGE).expect(rt, "no blocks");
    let taken = take_all(alloc).expect(rt, "no list");
    drop(smalls);
    drop(larges);
    let answer = map.put(rt, key(65, 0), 2);
    drop(taken);
    Ok(plain(answer?))
}

// What a put of a third key returns where there is room for `small` small requests and `large` large ones alone, and
// the values of the first and the third key then. The three stand side by side, below the first digit that they share.
fn put_beside<R: AllocGlobal + Wait + Abort>(
    rt: &R,
    small: usize,
    large: usize,
) -> (Result<Option<u64>, PutError>, [Option<u64>; 2]) {
    let map = empty(rt);
    put(rt, &map, key(1, 0), 1);
    put(rt, &map, key(33, 0), 0);
    let answer = put_in_room(rt, rt.alloc(), &map, small, large);
    (answer, [at(rt, &map, key(1, 0)), at(rt, &map, key(65, 0))])
}

// A put is given any number of blocks of each size, so each of its requests is the first that is refused once.
#[test]
fn puts_are_refused_at_each_request(rt: HostRuntime) {
    let mut refused = 0u32;
    let mut granted = 0u32;
    for small in 0..MOST_SMALL {
        for large in 0..MOST_LARGE {
            let (answer, values) = put_beside(&rt, small, large);
            match answer {
                Ok(None) if values == [Some(1), Some(2)] => granted = granted.wrapping_add(1),
                Err(PutError::NoMemory) if values == [Some(1), None] => {
                    refused = refused.wrapping_add(1);
                }
                _ => assert!(rt; false, "{small} small, {large} large"),
            }
        }
    }
    assert!(rt;
        4 <= refused && 1 <= granted,
        "{refused} refused, {granted} granted"
    );
}

// Calls that write the value 2 at a key, which has 1 if it is there.
#[derive(Clone, Copy, Debug)]
enum Write {
    Put,
    Replace,
    ReplaceIf,
    Update,
}

// Makes the call, and returns the value before.
fn make_write<R: Wait>(
    rt: &R,
    map: &Map,
    key: ChosenKey,
    call: Write,
) -> Result<Option<u64>, PutError> {
    Ok(match call {
        Write::Put => plain(map.put(rt, key, 2)?),
        Write::Replace => plain(map.replace(rt, key, 2)?),
        Write::ReplaceIf => map.replace_if(rt, key, &1, 2)?.then_some(1),
        Write::Update => plain(map.update(rt, key, |_| Some(2))?),
    })
}

// What the call returns of a map of two keys where there is room for `small` small requests alone, and the value that
// the key has then.
fn write_in_room<R: AllocGlobal + Wait + Abort>(
    rt: &R,
    written: ChosenKey,
    call: Write,
    small: usize,
) -> (Result<Option<u64>, PutError>, Option<u64>) {
    let map = empty(rt);
    put(rt, &map, key(1, 0), 1);
    put(rt, &map, key(33, 0), 0);
    let smalls = blocks(rt.alloc(), small, SMALL).expect(rt, "no blocks");
    let taken = take_all(rt.alloc()).expect(rt, "no list");
    drop(smalls);
    let answer = make_write(rt, &map, written, call);
    drop(taken);
    (answer, at(rt, &map, written))
}

// Memory is requested for the value, and not for the key, nor for a node.
#[test]
fn a_write_of_a_key_that_is_there_makes_one_request(rt: HostRuntime) {
    for call in [Write::Put, Write::Replace, Write::ReplaceIf, Write::Update] {
        assert_is(
            &rt,
            write_in_room(&rt, key(1, 0), call, 0),
            (Err(PutError::NoMemory), Some(1)),
        );
        assert_is(
            &rt,
            write_in_room(&rt, key(1, 0), call, 1),
            (Ok(Some(1)), Some(2)),
        );
    }
}

// The calls that take all stripes. The last five ask a view of the map then, by one worker.
#[derive(Clone, Copy, Debug)]
enum Call {
    View,
    Snapshot,
    SnapshotAndClear,
    CountGroups,
    FoldGroups,
    Filter,
    MapValues,
    FindTop,
}

// Whether the call is granted what it asks for. Of 32 keys, each has a group of its own and is listed.
fn is_granted<R: Threads + Wait + Sync>(rt: &R, map: &Map, call: Call) -> bool {
    match call {
        Call::View => map.view(rt).is_ok(),
        Call::Snapshot => map.snapshot(rt).is_ok(),
        Call::SnapshotAndClear => map.snapshot(rt).is_ok_and(|other| other.clear(rt).is_ok()),
        Call::CountGroups => {
            let groups = map.par_group_count(rt, |key, _| key.path, Crew::of(1));
            groups.is_ok_and(|groups| groups.len() == 32)
        }
        Call::FoldGroups => {
            let sums = map.par_group_fold(rt, |key, _| Ok(key.path), &Sum, |_, _| 1, Crew::of(1));
            sums.is_ok_and(|sums| sums.len() == 32)
        }
        Call::Filter => {
            let made = map.par_filter(rt, |_, _| true, Crew::of(1));
            made.is_ok_and(|made| made.len() == 32)
        }
        Call::MapValues => {
            let made = map.par_map_values(rt, |_, value| *value, Crew::of(1));
            made.is_ok_and(|made| made.len() == 32)
        }
        Call::FindTop => {
            let top = map.par_top(rt, 40, |_, value| *value, Crew::of(1));
            top.is_ok_and(|top| top.len() == 32)
        }
    }
}

// At how many of the sizes, each larger than the one before, there is room for the call. The map stays as it is.
fn count_granted<R: AllocGlobal + Threads + Wait + Abort + Sync>(
    rt: &R,
    map: &Map,
    call: Call,
) -> u32 {
    let mut granted = 0u32;
    let mut shortage = Shortage::new(rt.alloc()).expect(rt, "no list");
    for _ in 0..STEPS {
        if is_granted(rt, map, call) {
            granted = granted.wrapping_add(1);
        }
        shortage.give(rt.alloc(), STEP).expect(rt, "no room");
    }
    granted
}

// A call is given some room, from which its requests are cut one after another until it is used up. The room grows, so
// that each request is the first that is refused.
#[test]
fn calls_on_all_stripes_are_refused_at_each_request(rt: HostRuntime) {
    let map = empty(&rt);
    for digit in 0..32 {
        put(&rt, &map, key(digit, 0), u64::from(digit));
    }
    for call in [
        Call::View,
        Call::Snapshot,
        Call::SnapshotAndClear,
        Call::CountGroups,
        Call::FoldGroups,
        Call::Filter,
        Call::MapValues,
        Call::FindTop,
    ] {
        let granted = count_granted(&rt, &map, call);
        assert_is(&rt, map.len(&rt), 32);
        assert!(rt;
            1 <= granted && granted < STEPS,
            "{call:?}: {granted} granted"
        );
    }
}

// A map of six keys in three stripes.
fn six<R: AllocGlobal + Wait + Abort>(rt: &R) -> Map {
    let map = empty(rt);
    for id in 0..6 {
        put(rt, &map, key(id % 3, id), u64::from(id));
    }
    map
}

#[test]
fn no_map_is_made_without_memory(rt: HostRuntime) {
    let view = view_of(&rt, &six(&rt));
    let taken = take_all(rt.alloc()).expect(&rt, "no list");
    let answers = [
        view.filter(|_, _| true).is_err(),
        view.map_values(|_, value| *value).is_err(),
    ];
    drop(taken);
    assert_is(&rt, answers, [true; 2]);
}

#[test]
fn a_list_is_refused_with_no_memory(rt: HostRuntime) {
    let map = empty(&rt);
    put(&rt, &map, key(1, 0), 1);
    let view = view_of(&rt, &map);
    let taken = take_all(rt.alloc()).expect(&rt, "no list");
    let keys = [&key(1, 0)];
    let refused = [
        map.get_many(&rt, &keys).is_err(),
        view.get_many(&keys).is_err(),
    ];
    drop(taken);
    assert_is(&rt, refused, [true; 2]);
    assert_is(&rt, map.get_copied(&rt, &key(1, 0)), Some(1));
}
