//! How often a base is made, and who has it.
use super::{TestStripes, assert_is, both, clear, filled, locked, miss, put, with_base};
use hash_path::PathKey;
use map_reader::Readers;
use std::process::Abort;
use std::sync::{Arc, Wait};

#[test]
fn the_first_base_is_made_at_the_64th_miss(rt: HostRuntime) {
    let row = filled(&rt, 8);
    let readers = Readers::new(rt.alloc(), &row);
    let mut reader = readers.reader();
    miss(&rt, &mut reader, 63);
    assert_is(&rt, readers.made(), 0);
    miss(&rt, &mut reader, 1);
    assert_is(&rt, readers.made(), 1);
}

// 64 misses, and one for each 32 pairs.
#[test]
fn a_larger_map_waits_for_more_misses(rt: HostRuntime) {
    let row = filled(&rt, 3_200);
    let readers = Readers::new(rt.alloc(), &row);
    let mut reader = readers.reader();
    miss(&rt, &mut reader, 163);
    assert_is(&rt, readers.made(), 0);
    miss(&rt, &mut reader, 1);
    assert_is(&rt, readers.made(), 1);
}

// With a base of 1,023 hits the next is made after 128 misses, and with one of 1,024 after 64.
#[test]
fn a_base_with_sixteen_hits_a_miss_is_renewed_at_once(rt: HostRuntime) {
    for (hits, misses) in [(1_023, 128), (1_024, 64)] {
        let row = filled(&rt, 8);
        let readers = Readers::new(rt.alloc(), &row);
        let mut reader = with_base(&rt, &readers);
        put(&rt, &row, 3, 30);
        for _ in 0..hits {
            reader.get_copied(&rt, &4);
        }
        for _ in 1..misses {
            reader.get_copied(&rt, &3);
        }
        assert_is(&rt, readers.made(), 1);
        reader.get_copied(&rt, &3);
        assert_is(&rt, readers.made(), 2);
    }
}

// Each read is of a key that was written since. The n-th base is made after 64 (2^n - 1) of them, so 100,000 make ten.
#[test]
fn many_writes_have_few_bases_made(rt: HostRuntime) {
    let row = filled(&rt, 8);
    let readers = Readers::new(rt.alloc(), &row);
    let mut reader = readers.reader();
    for number in 0..100_000 {
        let key = number % 8;
        put(&rt, &row, key, number);
        assert_is(&rt, reader.get_copied(&rt, &key), Some(number));
    }
    assert_is(&rt, readers.made(), 10);
}

// The other reader has the base at its second read, which takes no lock.
#[test]
fn readers_share_a_base(rt: HostRuntime) {
    let row = filled(&rt, 8);
    let readers = Readers::new(rt.alloc(), &row);
    let first = with_base(&rt, &readers);
    let mut second = readers.reader();
    miss(&rt, &mut second, 1);
    let stripe = locked(&rt, &row, 3);
    assert_is(&rt, both(&rt, &mut second, 3), (Some(3), Some(3)));
    drop(stripe);
    assert_is(&rt, readers.made(), 1);
    drop(first);
}

// Where one reader makes the next base, the other has it too.
#[test]
fn readers_share_the_next_base(rt: HostRuntime) {
    let row = filled(&rt, 8);
    let readers = Readers::new(rt.alloc(), &row);
    let mut first = with_base(&rt, &readers);
    let mut second = readers.reader();
    miss(&rt, &mut second, 1);
    put(&rt, &row, 3, 30);
    for _ in 0..128 {
        first.get_copied(&rt, &3);
    }
    assert_is(&rt, readers.made(), 2);
    assert_is(&rt, both(&rt, &mut second, 3), (Some(30), Some(30)));
    let stripe = locked(&rt, &row, 3);
    assert_is(&rt, both(&rt, &mut second, 3), (Some(30), Some(30)));
    drop(stripe);
}

// A base that has ended is renewed by the same rule, whoever reads.
#[test]
fn a_cleared_map_has_a_new_base(rt: HostRuntime) {
    let row = filled(&rt, 8);
    let readers = Readers::new(rt.alloc(), &row);
    let mut reader = with_base(&rt, &readers);
    clear(&rt, &row);
    miss(&rt, &mut reader, 127);
    assert_is(&rt, readers.made(), 1);
    miss(&rt, &mut reader, 1);
    assert_is(&rt, readers.made(), 2);
    let stripe = locked(&rt, &row, 3);
    assert_is(&rt, both(&rt, &mut reader, 3), (None, None));
    drop(stripe);
}

// A handle on the value of the key.
fn handle<R: Wait + Abort>(rt: &R, row: &TestStripes, key: u64) -> Arc<u64> {
    let path = key.path();
    let stripe = row.stripe_at(rt, path);
    let value = stripe.get(&key, path).expect(rt, "no value");
    Arc::try_clone(value).expect(rt, "no handle")
}

// The base of a map that is cleared keeps its pairs until a reader reads.
#[test]
fn a_base_that_has_ended_is_let_go(rt: HostRuntime) {
    let row = filled(&rt, 8);
    let readers = Readers::new(rt.alloc(), &row);
    let mut reader = with_base(&rt, &readers);
    let value = handle(&rt, &row, 3);
    clear(&rt, &row);
    assert_is(&rt, Arc::strong_count(&value), 2);
    assert_is(&rt, reader.get_copied(&rt, &4), None);
    assert_is(&rt, Arc::strong_count(&value), 1);
}
