//! Walks over maps of a few chosen path words.

use super::Walk;
use crate::maps::{map_of, put, view_of};
use iter::{pairs, pairs_of};
use std::alloc::Global;
use std::panic::Expect;
use std::process::Abort;
use test_keys::ChosenKey;

// The path words of the keys a, b and c, whose positions rise from b over a to c.
pub(super) const WORDS: [u64; 3] = [
    0xaf63_dc4c_8601_ec8c,
    0xaf63_df4c_8601_f1a5,
    0xaf63_de4c_8601_eff2,
];

// The path word and the number of the walk's next pair.
fn next_of(walk: &mut Walk<'_>) -> Option<(u64, i64)> {
    let (key, value) = walk.next()?;
    Some((key.path, **value))
}

#[test]
fn walks_rise_by_position_and_show_no_later_put(rt: HostRuntime) {
    let alloc = rt.alloc();
    let (mut map, _) = map_of(&rt, alloc, &WORDS);
    let view = view_of(&rt, &map);
    let mut walk = pairs(alloc, &view).expect(&rt, "no walk");
    put(&rt, alloc, &mut map, ChosenKey { path: 0, id: 0 }, 9);
    assert_eq!(rt; walk.left(), 3);
    for pair in [(WORDS[1], 1), (WORDS[0], 0), (WORDS[2], 2)] {
        assert_eq!(rt; next_of(&mut walk), Some(pair));
    }
    assert_eq!(rt; (walk.left(), walk.len()), (0, 0));
    assert!(rt; walk.next().is_none());
}

#[test]
fn a_walk_of_a_version_meets_each_word(rt: HostRuntime) {
    let alloc = rt.alloc();
    let (map, _) = map_of(&rt, alloc, &WORDS);
    let mut all = 0;
    for (key, _) in pairs_of(alloc, &map).expect(&rt, "no walk") {
        all ^= key.path;
    }
    assert_eq!(rt; all, WORDS[0] ^ WORDS[1] ^ WORDS[2]);
}

#[test]
fn the_empty_map_has_an_empty_walk(rt: HostRuntime) {
    let alloc = rt.alloc();
    let (map, _) = map_of(&rt, alloc, &[]);
    let view = view_of(&rt, &map);
    let mut walk = pairs(alloc, &view).expect(&rt, "no walk");
    assert_eq!(rt; walk.left(), 0);
    assert!(rt; walk.next().is_none());
}

// How many nodes a walk over a map with these path words has entered at its end.
fn entered_of(rt: &impl Abort, alloc: Global, words: &[u64]) -> u64 {
    let (map, _) = map_of(rt, alloc, words);
    let view = view_of(rt, &map);
    let mut walk = pairs(alloc, &view).expect(rt, "no walk");
    for _ in 0..3u32 {
        let _pair = walk.step();
    }
    walk.entered()
}

#[test]
fn a_walk_enters_each_node_once(rt: HostRuntime) {
    let alloc = rt.alloc();
    let two = [0, 0xc000_0000_0000_0000];
    assert_eq!(rt; entered_of(&rt, alloc, &two), 15);
    assert_eq!(rt; entered_of(&rt, alloc, &WORDS), 4);
    assert_eq!(rt; entered_of(&rt, alloc, &[0, 0, 0]), 2);
    assert_eq!(rt; entered_of(&rt, alloc, &[]), 1);
}
