//! What readers return beside writers, and how often they have a new base.
mod answers;
mod bases;
mod marks;
mod threads;

use hash_path::PathKey;
use map_reader::{Reader, Readers};
use std::fmt::Debug;
use std::process::Abort;
use std::sync::{Arc, MutexGuard, Wait};
use stripes::{Anything, Stripe, Stripes, clear_all, empties, empty_maps};
use write_history::Author;

// The stripes of a map of the tests.
type TestStripes = Stripes<u64, u64, Anything>;

// A key that no test writes.
const ABSENT: u64 = u64::MAX;

// What is seen is what is wanted.
fn assert_is<T: PartialEq + Debug + Drop>(rt: &impl Abort, seen: T, want: T) {
    assert_eq!(rt; seen, want);
}

// The stripes of a map with no pairs. A step that fails ends its test.
fn empty<R: AllocGlobal + Abort>(rt: &R) -> TestStripes {
    let stripes = empties(rt.alloc()).expect(rt, "no stripes");
    Stripes::new(rt.alloc(), stripes).expect(rt, "no locks")
}

// The stripes of a map in which each key below `pairs` has itself as its value.
fn filled<R: AllocGlobal + Wait + Abort>(rt: &R, pairs: u64) -> TestStripes {
    let row = empty(rt);
    for key in 0..pairs {
        put(rt, &row, key, key);
    }
    row
}

fn locked<'m, R: Wait>(
    rt: &R,
    row: &'m TestStripes,
    key: u64,
) -> MutexGuard<'m, Stripe<u64, u64, Anything>> {
    row.stripe_at(rt, key.path())
}

fn put<R: AllocGlobal + Wait + Abort>(rt: &R, row: &TestStripes, key: u64, value: u64) {
    let path = key.path();
    let value = Arc::new(rt.alloc(), value).expect(rt, "no value");
    let mut stripe = row.stripe_at(rt, path);
    let done = stripe.put(rt.alloc(), key, path, value, &mut Author::nobody());
    assert!(rt; done.is_ok(), "not put");
}

fn remove<R: AllocGlobal + Wait + Abort>(rt: &R, row: &TestStripes, key: u64) {
    let path = key.path();
    let mut stripe = row.stripe_at(rt, path);
    let done = stripe.remove(rt.alloc(), &key, path, &mut Author::nobody());
    assert!(rt; done.is_ok(), "not removed");
}

// Adds 100 to the value of the key.
fn update<R: AllocGlobal + Wait + Abort>(rt: &R, row: &TestStripes, key: u64) {
    let path = key.path();
    let mut stripe = row.stripe_at(rt, path);
    let done = stripe.update(
        rt.alloc(),
        key,
        path,
        |old: Option<&u64>| old.map(|value| value.wrapping_add(100)),
        &mut Author::nobody(),
    );
    assert!(rt; done.is_ok(), "not updated");
}

fn clear<R: AllocGlobal + Wait + Abort>(rt: &R, row: &TestStripes) {
    let empty_maps = empty_maps(rt.alloc()).expect(rt, "no empty_maps");
    let held = row.all(rt, rt.alloc()).expect(rt, "not held");
    let all = held.first().expect(rt, "none held").gathered();
    clear_all(held, empty_maps, all, &mut Author::nobody());
}

// Reads the absent key `times` times.
fn miss<R: Wait>(rt: &R, reader: &mut Reader<'_, u64, u64>, times: u32) {
    for _ in 0..times {
        reader.get_copied(rt, &ABSENT);
    }
}

// A reader of a map of fewer than 32 pairs that has just made a base.
fn with_base<'r, R: Wait>(rt: &R, readers: &'r Readers<'_, u64, u64>) -> Reader<'r, u64, u64> {
    let mut reader = readers.reader();
    miss(rt, &mut reader, 64);
    reader
}

// What the reader answers for the key by both of its calls.
fn both<R: Wait>(
    rt: &R,
    reader: &mut Reader<'_, u64, u64>,
    key: u64,
) -> (Option<u64>, Option<u64>) {
    let copied = reader.get_copied(rt, &key);
    (
        copied,
        reader.read(rt, &key, |found: Option<&u64>| found.copied()),
    )
}
