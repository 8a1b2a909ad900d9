//! What the root of several maps is, of one first digit each.

use super::key;
use hash_path::FAN_OUT;
use std::alloc::Global;
use std::panic::Expect;
use std::process::Abort;
use test_keys::ChosenKey;
use test_roots::{Gathered, Part, Whole};
use trie_node::{Look, NoMemory, Stamp, look, size, stamp};

/// A root of the tests.
type Root = Whole<ChosenKey, u32>;

/// The parts of the keys, each of the digit and with the stamp beside it, as one root. A key's number is its value.
fn root_of(alloc: Global, parts: &[(u32, u64, &[ChosenKey])]) -> Result<Root, NoMemory> {
    let mut all = Gathered::new(alloc)?;
    for (digit, stamp, keys) in parts {
        let mut part = Part::new(alloc, *digit, Stamp(*stamp))?;
        for key in *keys {
            part.put(alloc, *key, key.id)?;
        }
        all.add(&part)?;
    }
    all.into_root(alloc)
}

/// The bitmap of a branch.
fn bitmap_of(root: &Root) -> Option<u32> {
    match look(root.root()) {
        Look::Branch(bitmap) => Some(bitmap),
        Look::Pairs(_) => None,
    }
}

/// The root has children of these digits, this number of pairs and this stamp.
fn assert_root(rt: &impl Abort, root: &Root, bitmap: u32, pairs: u64, newest: u64) {
    assert_eq!(rt; bitmap_of(root), Some(bitmap));
    assert_eq!(rt; size(root.root()), pairs);
    assert_eq!(rt; stamp(root.root()), Stamp(newest));
}

/// The key has this value.
fn assert_value(rt: &impl Abort, root: &Root, key: ChosenKey, want: Option<u32>) {
    assert_eq!(rt; root.find(&key).map(|value| **value), want, "at {key:?}");
}

#[test]
fn maps_with_no_pairs_give_no_children(rt: HostRuntime) {
    let none = root_of(rt.alloc(), &[]).expect(&rt, "no root");
    assert_root(&rt, &none, 0, 0, 0);
    let empty = root_of(rt.alloc(), &[(0, 3, &[]), (31, 2, &[])]).expect(&rt, "no root");
    assert_root(&rt, &empty, 0, 0, 3);
}

/// A leaf, a bucket of two keys of one word, and a branch whose words part at their second digit.
#[test]
fn children_are_taken_as_they_are(rt: HostRuntime) {
    let leaf = [key(3, 1)];
    let bucket = [key(7, 2), key(7, 3)];
    let branch = [key(31, 4), key(63, 5)];
    let parts: [(u32, u64, &[ChosenKey]); 3] = [(3, 1, &leaf), (7, 5, &bucket), (31, 2, &branch)];
    let root = root_of(rt.alloc(), &parts).expect(&rt, "no root");
    assert_root(&rt, &root, 1 << 3 | 1 << 7 | 1 << 31, 5, 5);
    for (at, want) in [
        (key(3, 1), Some(1)),
        (key(7, 2), Some(2)),
        (key(7, 3), Some(3)),
        (key(31, 4), Some(4)),
        (key(63, 5), Some(5)),
        (key(35, 1), None),
        (key(4, 1), None),
    ] {
        assert_value(&rt, &root, at, want);
    }
}

#[test]
fn a_root_has_all_digits(rt: HostRuntime) {
    let alloc = rt.alloc();
    let mut all = Gathered::new(alloc).expect(&rt, "no row");
    for digit in 0..FAN_OUT {
        let mut part = Part::new(alloc, digit, Stamp(1)).expect(&rt, "no part");
        part.put(alloc, key(digit as u64, digit), digit)
            .expect(&rt, "no pair");
        all.add(&part).expect(&rt, "not taken");
    }
    let root = all.into_root(alloc).expect(&rt, "no root");
    assert_root(&rt, &root, u32::MAX, 32, 1);
    for digit in 0..FAN_OUT {
        assert_value(&rt, &root, key(digit as u64, digit), Some(digit));
    }
}
