//! Lists that are written with requests for memory refused.
use super::{Map, assert_is, at, empty, put, view_of};
use std::process::Abort;
use std::sync::Wait;
use test_keys::{ChosenKey, Shortage};
use trie_map::{PutsRefused, RemovalsRefused};

// How many sizes of room a list is given, and by how many bytes they differ.
const STEPS: usize = 64;

const STEP: usize = 64;

// How many pairs a list has.
const PAIRS: u32 = 12;

// What became of a list: all, some or none of it was written.
#[derive(Clone, Copy)]
enum Written {
    All,
    Some,
    None,
}

// What became of a list of which so many were written, before it was refused.
fn partly(written: usize) -> Written {
    if written == 0 {
        Written::None
    } else {
        Written::Some
    }
}

// A key of one of three stripes, each with a digit of its own behind its first.
fn spread(id: u32) -> ChosenKey {
    let second = u64::from(id).wrapping_mul(32);
    ChosenKey {
        path: u64::from(id % 3).wrapping_add(second),
        id,
    }
}

// The pairs of a list. Each value is its key's number and `more`.
fn pairs_of<R: AllocGlobal + Abort>(rt: &R, more: u64) -> Vec<(ChosenKey, u64)> {
    let mut pairs = Vec::new(rt.alloc());
    for id in 0..PAIRS {
        pairs
            .push((spread(id), u64::from(id).wrapping_add(more)))
            .expect(rt, "no list");
    }
    pairs
}

// Nothing but so many bytes is left.
fn room<R: AllocGlobal + Abort>(rt: &R, bytes: usize) -> Shortage {
    Shortage::with_bytes(rt.alloc(), bytes).expect(rt, "no room")
}

// What becomes of such pairs in such room. What was not put is given back, and is put once there is room.
fn put_in_room<R: AllocGlobal + Wait + Abort>(rt: &R, bytes: usize) -> Written {
    let map = empty(rt);
    let pairs = pairs_of(rt, 0);
    let shortage = room(rt, bytes);
    let answer = map.put_many(rt, pairs);
    drop(shortage);
    let Err(refused) = answer else {
        assert_is(rt, map.len(rt), u64::from(PAIRS));
        return Written::All;
    };
    let PutsRefused { put, rest, .. } = refused;
    assert_is(
        rt,
        (map.len(rt), rest.len()),
        (put.len() as u64, (PAIRS as usize).wrapping_sub(put.len())),
    );
    assert_is(rt, map.put_many(rt, rest).is_ok(), true);
    assert_is(rt, map.len(rt), u64::from(PAIRS));
    partly(put.len())
}

// A map of these pairs, of which a view is kept: the first removal of a stripe copies a row.
fn filled<R: AllocGlobal + Wait + Abort>(rt: &R) -> Map {
    let map = empty(rt);
    for id in 0..PAIRS {
        put(rt, &map, spread(id), u64::from(id));
    }
    map
}

// What becomes of such pairs in such room where all keys are there. What was not put is given back: its keys have the
// values before.
fn put_again_in_room<R: AllocGlobal + Wait + Abort>(rt: &R, bytes: usize) -> Written {
    let map = filled(rt);
    let pairs = pairs_of(rt, 100);
    let shortage = room(rt, bytes);
    let answer = map.put_many(rt, pairs);
    drop(shortage);
    let Err(refused) = answer else {
        return Written::All;
    };
    let PutsRefused { put, rest, .. } = refused;
    let written = put.len();
    assert_is(rt, written.wrapping_add(rest.len()), PAIRS as usize);
    for (key, value) in rest {
        assert_is(rt, at(rt, &map, key), value.checked_sub(100));
    }
    partly(written)
}

// What becomes of the removal of their keys in such room.
fn remove_in_room<R: AllocGlobal + Wait + Abort>(rt: &R, bytes: usize) -> Written {
    let map = filled(rt);
    let view = view_of(rt, &map);
    let keys = [0u32, 1, 2, 3, 4, 5, 6, 7, 8, 9, 10, 11].map(spread);
    let [a, b, c, d, e, f, g, h, i, j, k, l] = &keys;
    let sought = [a, b, c, d, e, f, g, h, i, j, k, l];
    let shortage = room(rt, bytes);
    let answer = map.remove_many(rt, &sought);
    drop(shortage);
    drop(view);
    let Err(refused) = answer else {
        assert_is(rt, map.len(rt), 0);
        return Written::All;
    };
    let RemovalsRefused { removed } = refused;
    assert_is(
        rt,
        map.len(rt),
        u64::from(PAIRS).wrapping_sub(removed.len() as u64),
    );
    partly(removed.len())
}

// What is done with a list.
#[derive(Clone, Copy)]
enum List {
    Puts,
    PutsAgain,
    Removals,
}

// How often a list was written whole, in part and not at all.
fn tallied<R: AllocGlobal + Wait + Abort>(rt: &R, list: List) -> [u32; 3] {
    let mut tally = [0u32; 3];
    for step in 0..STEPS {
        let bytes = step.wrapping_mul(STEP);
        let written = match list {
            List::Puts => put_in_room(rt, bytes),
            List::PutsAgain => put_again_in_room(rt, bytes),
            List::Removals => remove_in_room(rt, bytes),
        };
        let place = match written {
            Written::All => 0usize,
            Written::Some => 1,
            Written::None => 2,
        };
        tally[place] = tally[place].wrapping_add(1);
    }
    tally
}

// The room grows, so that a list is refused before its first write, after some, and not at all.
#[test]
fn puts_are_parted_where_one_is_refused(rt: HostRuntime) {
    let tally = tallied(&rt, List::Puts);
    assert_is(&rt, tally.map(|times| times > 0), [true; 3]);
}

#[test]
fn puts_of_keys_that_are_there_are_parted_where_one_is_refused(rt: HostRuntime) {
    let tally = tallied(&rt, List::PutsAgain);
    assert_is(&rt, tally.map(|times| times > 0), [true; 3]);
}

#[test]
fn removals_are_parted_where_one_is_refused(rt: HostRuntime) {
    let tally = tallied(&rt, List::Removals);
    assert_is(&rt, tally.map(|times| times > 0), [true; 3]);
}
