//! How often a look-up compares keys of one path word.
use super::{Map, assert_is, empty, key};
use hash_path::{Path, PathKey, Sought};
use std::cmp::Ordering as Order;
use std::process::Abort;
use std::sync::Wait;
use std::sync::atomic::{AtomicU32, Ordering};
use test_keys::ChosenKey;

// How many keys have one path word, and how often a search by halves compares at most among so many.
const ALIKE: u32 = 1_000;

const MOST: u32 = 10;

// A key that is looked up, and how often it was compared.
#[derive(Clone, Copy)]
struct Counted<'a> {
    key: &'a ChosenKey,
    compared: &'a AtomicU32,
}

impl<'a> Sought<ChosenKey> for Counted<'a> {
    ghost key_of = { λ counted. counted.key.now };

    fn path_sought(self) -> Path {
        self.key.path()
    }

    fn compare_with(self, key: &ChosenKey) -> Order {
        self.compared.fetch_add(1, Ordering::SeqCst);
        self.key.cmp(key)
    }
}

// Whether the id is found among the keys of one word, and whether so few were compared for that.
fn found<R: Wait>(rt: &R, map: &Map, id: u32) -> (bool, bool) {
    let compared = AtomicU32::new(0);
    let counted = Counted {
        key: &key(7, id),
        compared: &compared,
    };
    let found = map.contains_key(rt, counted);
    (found, compared.load(Ordering::SeqCst) <= MOST)
}

#[test]
fn keys_of_one_word_are_searched_by_halves(rt: HostRuntime) {
    let map = empty(&rt);
    for id in 0..ALIKE {
        map.put(&rt, key(7, 2 * id), 1).expect(&rt, "not put");
    }
    let mut right = true;
    for id in 0..2 * ALIKE {
        right &= found(&rt, &map, id) == (id % 2 == 0, true);
    }
    assert_is(&rt, right, true);
}
