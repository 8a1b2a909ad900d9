//! The maps of two tries as one, with requests for memory refused.
ghost use Rattle.std.specs.Prelude.{◌<◌};

use super::memory::{TWO, assert_same, block, take_all_but};
use super::{Trie, assert_is, key, seen, trie_of};
use std::alloc::Global;
use std::panic::Expect;
use std::process::Abort;
use test_keys::ChosenKey;
use trie_node::{Node, Stamp, union_of_maps, unions_of_maps};

// The bytes of `children` children.
fn bytes_of(children: usize) -> usize
    requires { children < 64 }
{
    children * size_of::<Node<ChosenKey, u32>>()
}

// The bytes of a row of four places.
const FOUR: usize = 136;

// What a merge of two branches and of two below them requests: room for the children of each, from
// the root down, and each branch's row, from below.
fn requested(rt: &impl Abort, alloc: Global) -> Vec<Vec<u8>> {
    let mut blocks = Vec::new(alloc);
    for size in [TWO, FOUR, bytes_of(4), bytes_of(1)] {
        blocks.push(block(rt, alloc, size)).expect(rt, "no room");
    }
    blocks
}

// Whether the roots are merged with `given` requests granted.
fn is_merged_with(
    rt: &impl Abort,
    alloc: Global,
    (left, right): (&Trie, &Trie),
    given: usize,
) -> bool {
    let mut spare = requested(rt, alloc);
    let _taken = take_all_but(rt, alloc, &mut spare, given);
    left.merged(alloc, right, Stamp(2)).is_ok()
}

#[test]
fn refused_merges_leave_the_roots(rt: HostRuntime) {
    let alloc = rt.alloc();
    let left = trie_of(&rt, alloc, &[(key(32, 0), 1), (key(64, 0), 2)]);
    let right = trie_of(&rt, alloc, &[(key(96, 0), 3), (key(128, 0), 4)]);
    let left_before = seen(&rt, alloc, &left);
    let right_before = seen(&rt, alloc, &right);
    for given in 0..5 {
        let is_merged = is_merged_with(&rt, alloc, (&left, &right), given);
        assert_same(&rt, alloc, &left, &left_before);
        assert_same(&rt, alloc, &right, &right_before);
        assert_is(&rt, is_merged, given == 4);
    }
}

#[test]
fn laws_of_unions_are_called_at_no_condition() {
    union_of_maps::<ChosenKey, u32>();
    unions_of_maps::<ChosenKey, u32>();
}
