use super::{
    Trie, assert_is, assert_lines, assert_pairs, assert_value, copy, key, new, put, removed, seen,
};
use hash_path::PathKey;
use std::alloc::{AllocError, Global};
use std::collections::BTreeMap;
use std::panic::Expect;
use std::process::Abort;
use test_keys::{ChosenKey, Random};
use test_roots::lines_of;
use trie_node::{Stamp, size};

// Few words, so that buckets and branches that are drawn up are frequent.
pub(super) const WORDS: [u64; 8] = [
    0,
    0xc000_0000_0000_0000,
    0x4000_0000_0000_0000,
    0xffff_ffff_ffff_ffff,
    0x3fff_ffff_ffff_ffff,
    1,
    33,
    0x0010_0000_0000_0001,
];

// How many keys have one word.
pub(super) const KEYS: u32 = 3;

// The pairs of a map in the order of their positions.
fn in_walk_order(
    alloc: Global,
    map: &BTreeMap<ChosenKey, u32>,
) -> Result<Vec<(ChosenKey, u32)>, AllocError> {
    let mut pairs = Vec::new(alloc);
    for (at, value) in map.iter() {
        pairs.push((*at, *value))?;
    }
    pairs.sort_by_key(|pair| (pair.0.path().position(), pair.0.id))?;
    Ok(pairs)
}

// The same, where there is memory.
fn listed(rt: &impl Abort, alloc: Global, map: &BTreeMap<ChosenKey, u32>) -> Vec<(ChosenKey, u32)> {
    in_walk_order(alloc, map).expect(rt, "no list")
}

// The trie has these pairs and the shape that they have.
pub(super) fn assert_holds(
    rt: &impl Abort,
    alloc: Global,
    trie: &Trie,
    pairs: &[(ChosenKey, u32)],
) {
    let seen = seen(rt, alloc, trie);
    let lines = lines_of(alloc, pairs).expect(rt, "no outline");
    assert_is(rt, size(trie.root()), pairs.len() as u64);
    assert_pairs(rt, &seen.pairs, pairs);
    assert_lines(rt, &seen.lines, &lines);
}

// The trie has the pairs of the map, and the shape that they have.
pub(super) fn assert_is_map(
    rt: &impl Abort,
    alloc: Global,
    trie: &Trie,
    map: &BTreeMap<ChosenKey, u32>,
) {
    assert_holds(rt, alloc, trie, &listed(rt, alloc, map));
}

// A key that the numbers pick.
pub(super) fn any_key(random: &mut Random) -> ChosenKey {
    key(WORDS[random.next(8) as usize % 8], random.next(KEYS))
}

// Maps the key to the value.
pub(super) fn insert(
    rt: &impl Abort,
    map: &mut BTreeMap<ChosenKey, u32>,
    at: ChosenKey,
    value: u32,
) {
    let put: Result<_, _> = map.insert(at, value);
    put.expect(rt, "no room");
}

// Each key has the value that it has in the map.
fn assert_finds(rt: &impl Abort, trie: &Trie, map: &BTreeMap<ChosenKey, u32>) {
    for word in WORDS {
        for id in 0..KEYS {
            let at = key(word, id);
            assert_value(rt, trie, at, map.get(&at).copied());
        }
    }
}

// Puts or removes a random key.
fn write(
    rt: &impl Abort,
    alloc: Global,
    trie: &mut Trie,
    map: &mut BTreeMap<ChosenKey, u32>,
    random: &mut Random,
    step: u32,
) {
    let at = any_key(random);
    if random.next(2) == 0 {
        *trie = put(rt, alloc, trie, (at, step), u64::from(step));
        insert(rt, map, at, step);
    } else {
        *trie = removed(rt, alloc, trie, at, u64::from(step));
        map.remove(&at);
    }
}

// An old root and its pairs.
type Old = (Trie, Vec<(ChosenKey, u32)>);

// Keeps the root and its pairs.
fn keep(
    rt: &impl Abort,
    alloc: Global,
    old: &mut Vec<Old>,
    trie: &Trie,
    map: &BTreeMap<ChosenKey, u32>,
) {
    let kept = old.push((copy(rt, trie), listed(rt, alloc, map)));
    kept.expect(rt, "no room");
}

// Each old root has the pairs that it had.
fn assert_kept(rt: &impl Abort, alloc: Global, old: &[Old]) {
    for (trie, pairs) in old {
        assert_holds(rt, alloc, trie, pairs);
    }
}

#[test]
fn random_writes_agree_with_an_ordered_map(rt: HostRuntime) {
    let alloc = rt.alloc();
    let mut random = Random(2026);
    let mut trie = new(&rt, alloc, Stamp::LOOSE.0);
    let mut map = BTreeMap::new(alloc);
    let mut old = Vec::new(alloc);
    for step in 0..10_000 {
        if step % 500 == 0 {
            keep(&rt, alloc, &mut old, &trie, &map);
        }
        write(&rt, alloc, &mut trie, &mut map, &mut random, step);
        assert_finds(&rt, &trie, &map);
        assert_is_map(&rt, alloc, &trie, &map);
    }
    assert_kept(&rt, alloc, &old);
}
