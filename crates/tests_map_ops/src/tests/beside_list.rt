//! Many calls on versions that fork from one another, and on a plain sorted list beside each, which answer alike.
use super::{Chosen, assert_is, chosen, empty_at, fork, plainly, remove, shared, value_of};
use generation::Source;
use std::alloc::Global;
use std::panic::Expect;
use std::process::Abort;
use std::sync::Arc;
use test_keys::ChosenKey;
use test_maps::{Pair, find_pair, outline_of_map, put_pair, shared_pair, without_pair};
use test_roots::Outline;
use trie_node::Stamp;

// Few words, which part at different levels.
const WORDS: [u64; 8] = [
    0,
    0xc000_0000_0000_0000,
    0x4000_0000_0000_0000,
    1,
    33,
    0x0010_0000_0000_0000,
    0x0010_0000_0000_0001,
    0xffff_ffff_ffff_ffff,
];

// Keys of each word.
const KEYS: u32 = 5;

// How many versions there are, and how many calls are made on all of them.
const VERSIONS: usize = 8;

const CALLS: u32 = 100_000;

// A number after another, in no order that a reader sees: Marsaglia's shifts of 32 bits.
fn shuffled(number: u32) -> u32 {
    let first = number ^ (number & 0x7ffff) << 13;
    let second = first ^ (first >> 17);
    second ^ (second & 0x7ff_ffff) << 5
}

// The key that a number picks.
fn key_of(number: u32) -> ChosenKey {
    chosen(WORDS[(number % 8) as usize], number / 8 % KEYS)
}

// What a list and a version answer.
type Answers = (Option<i64>, Option<i64>);

// A list and the version that is to be like it.
#[derive(Drop)]
struct Both {
    list: Vec<Pair<ChosenKey, i64>>,
    version: Chosen,
}

// The value of the key in the list.
fn listed(list: &[Pair<ChosenKey, i64>], key: &ChosenKey) -> Option<i64> {
    match find_pair(list, key) {
        Some(value) => Some(**value),
        None => None,
    }
}

// Another handle on each pair.
fn copied(
    rt: &impl Abort,
    alloc: Global,
    list: &[Pair<ChosenKey, i64>],
) -> Vec<Pair<ChosenKey, i64>> {
    let mut all = Vec::new(alloc);
    for (key, value) in list {
        let pair = shared_pair(key, value).expect(rt, "no handles");
        all.push(pair).expect(rt, "no room");
    }
    all
}

impl Both {
    // An empty list and an empty version.
    fn new(rt: &impl Abort, alloc: Global) -> Both {
        Both {
            list: Vec::new(alloc),
            version: empty(rt, alloc),
        }
    }

    // Puts the value at the key in both, and returns what each returns.
    fn put(&mut self, rt: &impl Abort, alloc: Global, key: ChosenKey, value: i64) -> Answers {
        let before = listed(&self.list, &key);
        let key = Arc::new(alloc, key).expect(rt, "no key");
        let value = shared(rt, alloc, value);
        self.list = put_pair(alloc, &self.list, &key, &value).expect(rt, "no list");
        let put = self.version.put(alloc, key, value);
        (before, plainly(put.expect(rt, "not put")))
    }

    // Removes the key from both, and returns what each returns.
    fn remove(&mut self, rt: &impl Abort, alloc: Global, key: &ChosenKey) -> Answers {
        let before = listed(&self.list, key);
        self.list = without_pair(alloc, &self.list, key).expect(rt, "no list");
        (before, remove(rt, alloc, &mut self.version, key))
    }

    // A copy of the list and a fork of the version.
    fn fork(&mut self, rt: &impl Abort, alloc: Global, source: &mut Source) -> Both {
        Both {
            list: copied(rt, alloc, &self.list),
            version: fork(rt, &mut self.version, source),
        }
    }

    // A put, or else a removal, which a number picks. It returns what each returns.
    fn write(&mut self, rt: &impl Abort, alloc: Global, number: u32) -> Answers {
        let key = key_of(number / 2);
        if number % 2 == 0 {
            self.put(rt, alloc, key, i64::from(number))
        } else {
            self.remove(rt, alloc, &key)
        }
    }

    // Whether both have the same value at each key, and the same length.
    fn is_alike(&self) -> bool {
        for number in 0..8 * KEYS {
            let key = key_of(number);
            if listed(&self.list, &key) != value_of(&self.version, &key) {
                return false;
            }
        }
        self.list.len() as u64 == self.version.len()
    }

    // Whether the version has the nodes of a version into which the pairs of the list were put.
    fn has_shape(&self, rt: &impl Abort, alloc: Global) -> bool {
        let made = of_pairs(rt, alloc, &self.list);
        nodes_of(rt, alloc, &self.version).lines.as_slice()
            == nodes_of(rt, alloc, &made).lines.as_slice()
    }
}

// An empty version.
fn empty(rt: &impl Abort, alloc: Global) -> Chosen {
    empty_at(rt, alloc, 100, Stamp::LOOSE)
}

// The nodes of the version's trie, as a walk meets them.
fn nodes_of(rt: &impl Abort, alloc: Global, version: &Chosen) -> Outline<i64> {
    outline_of_map(alloc, version).expect(rt, "no list")
}

// A version into which the pairs are put.
fn of_pairs(rt: &impl Abort, alloc: Global, list: &[Pair<ChosenKey, i64>]) -> Chosen {
    let mut made = empty(rt, alloc);
    for (key, value) in list {
        let (key, value) = shared_pair(key, value).expect(rt, "no handles");
        made.put(alloc, key, value).expect(rt, "not put");
    }
    made
}

// Empty lists with their versions.
fn all_empty(rt: &impl Abort, alloc: Global) -> Vec<Both> {
    let mut all = Vec::new(alloc);
    for _ in 0..VERSIONS {
        all.push(Both::new(rt, alloc)).expect(rt, "no room");
    }
    all
}

// Makes the call that the number picks: one in 16 forks a version in place of another, the others write. It returns
// what the list and the version answer.
fn call(
    rt: &impl Abort,
    alloc: Global,
    all: &mut Vec<Both>,
    source: &mut Source,
    number: u32,
) -> Answers {
    let both = all.get_mut(number as usize % VERSIONS);
    let both = both.expect(rt, "there are eight versions");
    if number / 8 % 16 != 0 {
        return both.write(rt, alloc, number / 128);
    }
    let copy = both.fork(rt, alloc, source);
    if let Some(place) = all.get_mut(number as usize / 128 % VERSIONS) {
        *place = copy;
    }
    (None, None)
}

#[test]
fn many_calls_are_answered_as_by_sorted_lists(rt: HostRuntime) {
    let alloc = rt.alloc();
    let mut source = Source::new();
    let mut all = all_empty(&rt, alloc);
    let mut number = 2463534242;
    for round in 0..CALLS {
        number = shuffled(number);
        let (listed, found) = call(&rt, alloc, &mut all, &mut source, number);
        assert_is(&rt, (round, listed), (round, found));
    }
    for both in &all {
        let alike = (both.is_alike(), both.has_shape(&rt, alloc));
        assert_is(&rt, alike, (true, true));
    }
}
