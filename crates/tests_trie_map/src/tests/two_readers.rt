//! Two readers of a map, of which one has still the base before the other's.
use super::{assert_is, empty, key, put};
use std::sync::Wait;
use test_keys::ChosenKey;
use trie_map::{Reader, Readers};

// How often a key is read at most until a base is made.
const READS: u32 = 1_000;

// Reads the key, which the reader's base has not as it is, until as many bases are made.
fn read_until<R: Wait>(
    rt: &R,
    readers: &Readers<'_, ChosenKey, u64>,
    reader: &mut Reader<'_, ChosenKey, u64>,
    at: ChosenKey,
    made: u64,
) {
    for _ in 0..READS {
        if readers.made() == made {
            return;
        }
        reader.get_copied(rt, &at);
    }
}

// The base before has ended once the next one is made: the writes since then are marked at the next one alone.
#[test]
fn a_reader_of_the_base_before_sees_each_write(rt: HostRuntime) {
    let map = empty(&rt);
    let (third, fourth) = (key(3, 0), key(4, 0));
    put(&rt, &map, third, 3);
    let readers = map.readers();
    let (mut first, mut second) = (readers.reader(), readers.reader());
    read_until(&rt, &readers, &mut first, third, 1);
    assert_is(&rt, first.get_copied(&rt, &third), Some(3));
    put(&rt, &map, fourth, 4);
    read_until(&rt, &readers, &mut second, fourth, 2);
    put(&rt, &map, third, 30);
    assert_is(&rt, first.get_copied(&rt, &third), Some(30));
    assert_is(&rt, readers.made(), 2);
}
