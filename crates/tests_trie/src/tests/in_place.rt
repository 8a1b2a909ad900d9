//! Writes where a root stands, over nodes that others hold.

use super::random::{any_key, assert_holds, assert_is_map, insert};
use super::{Trie, assert_is, assert_value, copy, key, new, put_in, remove_in, seen};
use std::alloc::Global;
use std::collections::BTreeMap;
use std::panic::Expect;
use std::process::Abort;
use test_keys::{ChosenKey, Random};
use test_roots::Line;
use trie_node::Stamp;

// A trie, and the map that it should be.
#[derive(Drop)]
struct Beside {
    trie: Trie,
    map: BTreeMap<ChosenKey, u32>,
}

impl Beside {
    fn new(rt: &impl Abort, alloc: Global) -> Beside {
        Beside {
            trie: new(rt, alloc, Stamp::LOOSE.0),
            map: BTreeMap::new(alloc),
        }
    }

    // The trie of the copy shares its root.
    fn copy(&self, rt: &impl Abort) -> Beside {
        Beside {
            trie: copy(rt, &self.trie),
            map: self.map.clone().expect(rt, "no map"),
        }
    }

    // Puts or removes the key.
    fn write(&mut self, rt: &impl Abort, alloc: Global, at: ChosenKey, put: bool, step: u32) {
        if put {
            put_in(rt, alloc, &mut self.trie, (at, step), u64::from(step));
            insert(rt, &mut self.map, at, step);
        } else {
            remove_in(rt, alloc, &mut self.trie, at, u64::from(step));
            self.map.remove(&at);
        }
    }

    // The trie has the pairs of the map, and the shape that they have.
    fn assert_alike(&self, rt: &impl Abort, alloc: Global) {
        assert_is_map(rt, alloc, &self.trie, &self.map);
    }
}

#[test]
fn roots_that_share_nodes_are_written_apart(rt: HostRuntime) {
    let alloc = rt.alloc();
    let mut random = Random(10);
    let mut first = Beside::new(&rt, alloc);
    let mut second = first.copy(&rt);
    for step in 0..4_000 {
        let at = any_key(&mut random);
        let put = random.next(2) == 0;
        match random.next(16) {
            0 => second = first.copy(&rt),
            1 => first = second.copy(&rt),
            2..=8 => first.write(&rt, alloc, at, put, step),
            _ => second.write(&rt, alloc, at, put, step),
        }
        first.assert_alike(&rt, alloc);
        second.assert_alike(&rt, alloc);
    }
}

#[test]
fn a_hundred_keys_of_one_word_share_a_bucket(rt: HostRuntime) {
    let alloc = rt.alloc();
    let mut trie = new(&rt, alloc, 1);
    for id in 0..100 {
        put_in(&rt, alloc, &mut trie, (key(7, id * 37 % 101), id), 1);
    }
    let lines = [Line::branch(0, 1 << 7, 100), Line::pairs(1, 100)];
    super::assert_lines(&rt, &seen(&rt, alloc, &trie).lines, &lines);
    for id in 0..100 {
        assert_value(&rt, &trie, key(7, id * 37 % 101), Some(id));
    }
    for id in 0..99 {
        remove_in(&rt, alloc, &mut trie, key(7, id * 37 % 101), 2);
    }
    assert_holds(&rt, alloc, &trie, &[(key(7, 99 * 37 % 101), 99)]);
}

// The key of a child of the root, by a number: each once, in no rising order.
fn child_key(number: u32) -> ChosenKey {
    key(u64::from(number.wrapping_mul(5) % 32), 0)
}

#[test]
fn a_branch_has_thirty_two_children(rt: HostRuntime) {
    let alloc = rt.alloc();
    let mut trie = new(&rt, alloc, 1);
    for digit in 0..32 {
        put_in(&rt, alloc, &mut trie, (child_key(digit), digit), 1);
    }
    let seen = seen(&rt, alloc, &trie);
    assert_is(&rt, seen.lines.len(), 33);
    assert_is(
        &rt,
        seen.lines.first().copied(),
        Some(Line::branch(0, u32::MAX, 32)),
    );
    for digit in 0..32 {
        assert_value(&rt, &trie, child_key(digit), Some(digit));
    }
    for digit in 0..32 {
        remove_in(&rt, alloc, &mut trie, key(digit, 0), 2);
    }
    assert_holds(&rt, alloc, &trie, &[]);
}
