//! What a reader answers before and after writes by others.
use super::{
    TestStripes, assert_is, both, clear, empty, filled, locked, miss, put, remove, update,
    with_base,
};
use map_reader::Readers;
use std::process::Abort;
use std::sync::Wait;
use stripes::{Stripes, forks, joined};
use united_roots::RootRow;

// A write of the key 3 of a map in which each key has itself as its value.
#[derive(Clone, Copy, Debug)]
enum Kind {
    Put,
    Removal,
    Update,
    Clearing,
}

fn write<R: AllocGlobal + Wait + Abort>(rt: &R, row: &TestStripes, kind: Kind) {
    match kind {
        Kind::Put => put(rt, row, 3, 70),
        Kind::Removal => remove(rt, row, 3),
        Kind::Update => update(rt, row, 3),
        Kind::Clearing => clear(rt, row),
    }
}

// What the keys 3 and 4 have then.
fn after(kind: Kind) -> (Option<u64>, Option<u64>) {
    match kind {
        Kind::Put => (Some(70), Some(4)),
        Kind::Removal => (None, Some(4)),
        Kind::Update => (Some(103), Some(4)),
        Kind::Clearing => (None, None),
    }
}

// A reader that has a base sees a write, by the lock and by its next base.
fn sees<R: AllocGlobal + Wait + Abort>(rt: &R, kind: Kind) {
    let row = filled(rt, 8);
    let readers = Readers::new(rt.alloc(), &row);
    let mut reader = with_base(rt, &readers);
    assert_is(rt, both(rt, &mut reader, 3), (Some(3), Some(3)));
    assert_is(rt, both(rt, &mut reader, 4), (Some(4), Some(4)));
    write(rt, &row, kind);
    let (third, fourth) = after(kind);
    for misses in [0, 1_000] {
        for _ in 0..misses {
            reader.get_copied(rt, &3);
        }
        assert_is(rt, both(rt, &mut reader, 3), (third, third));
        assert_is(rt, both(rt, &mut reader, 4), (fourth, fourth));
    }
}

#[test]
fn a_put_is_seen(rt: HostRuntime) {
    sees(&rt, Kind::Put);
}

#[test]
fn a_removal_is_seen(rt: HostRuntime) {
    sees(&rt, Kind::Removal);
}

#[test]
fn an_update_is_seen(rt: HostRuntime) {
    sees(&rt, Kind::Update);
}

#[test]
fn a_clearing_is_seen(rt: HostRuntime) {
    sees(&rt, Kind::Clearing);
}

#[test]
fn a_new_key_is_seen(rt: HostRuntime) {
    let row = empty(&rt);
    let readers = Readers::new(rt.alloc(), &row);
    let mut reader = with_base(&rt, &readers);
    assert_is(&rt, both(&rt, &mut reader, 5), (None, None));
    put(&rt, &row, 5, 50);
    assert_is(&rt, both(&rt, &mut reader, 5), (Some(50), Some(50)));
}

#[test]
fn a_write_after_a_clearing_is_seen(rt: HostRuntime) {
    let row = filled(&rt, 8);
    let readers = Readers::new(rt.alloc(), &row);
    let mut reader = with_base(&rt, &readers);
    clear(&rt, &row);
    put(&rt, &row, 6, 60);
    assert_is(&rt, both(&rt, &mut reader, 6), (Some(60), Some(60)));
    assert_is(&rt, both(&rt, &mut reader, 7), (None, None));
}

// A key of the base is read while this thread has the lock of its stripe, and another key of the stripe is not written.
#[test]
fn a_key_of_the_base_is_read_without_its_lock(rt: HostRuntime) {
    let row = filled(&rt, 8);
    let readers = Readers::new(rt.alloc(), &row);
    let mut reader = with_base(&rt, &readers);
    let stripe = locked(&rt, &row, 3);
    assert_is(&rt, both(&rt, &mut reader, 3), (Some(3), Some(3)));
    drop(stripe);
}

// A key that was written is found without its lock again once its reader has a new base.
#[test]
fn a_key_of_the_next_base_is_read_without_its_lock(rt: HostRuntime) {
    let row = filled(&rt, 8);
    let readers = Readers::new(rt.alloc(), &row);
    let mut reader = with_base(&rt, &readers);
    put(&rt, &row, 3, 30);
    for _ in 0..128 {
        reader.get_copied(&rt, &3);
    }
    let stripe = locked(&rt, &row, 3);
    assert_is(&rt, both(&rt, &mut reader, 3), (Some(30), Some(30)));
    drop(stripe);
}

// Another map with the same pairs, as a snapshot has it.
fn snapshot<R: AllocGlobal + Wait + Abort>(rt: &R, row: &TestStripes) -> TestStripes {
    let room = Vec::with_capacity(rt.alloc(), 32).expect(rt, "no room");
    let held = row.all(rt, rt.alloc()).expect(rt, "not held");
    let stripes = forks(room, &held).expect(rt, "no forks");
    drop(held);
    assert!(rt; stripes.len() == 32, "not all stripes");
    Stripes::new(rt.alloc(), stripes).expect(rt, "no locks")
}

#[test]
fn a_snapshot_goes_its_own_way(rt: HostRuntime) {
    let row = filled(&rt, 8);
    let readers = Readers::new(rt.alloc(), &row);
    let mut reader = with_base(&rt, &readers);
    let other = snapshot(&rt, &row);
    put(&rt, &other, 3, 30);
    put(&rt, &row, 4, 40);
    assert_is(&rt, both(&rt, &mut reader, 3), (Some(3), Some(3)));
    assert_is(&rt, both(&rt, &mut reader, 4), (Some(40), Some(40)));
    let others = Readers::new(rt.alloc(), &other);
    let mut reader = with_base(&rt, &others);
    assert_is(&rt, both(&rt, &mut reader, 3), (Some(30), Some(30)));
    assert_is(&rt, both(&rt, &mut reader, 4), (Some(4), Some(4)));
}

#[test]
fn a_view_by_another_changes_nothing(rt: HostRuntime) {
    let row = filled(&rt, 8);
    let readers = Readers::new(rt.alloc(), &row);
    let mut reader = with_base(&rt, &readers);
    let room = RootRow::new(rt.alloc()).expect(&rt, "no room");
    let held = row.all(&rt, rt.alloc()).expect(&rt, "not held");
    let map = joined(rt.alloc(), room, held).expect(&rt, "no map");
    put(&rt, &row, 3, 30);
    assert_is(&rt, both(&rt, &mut reader, 3), (Some(30), Some(30)));
    assert_is(&rt, both(&rt, &mut reader, 4), (Some(4), Some(4)));
    assert_is(&rt, map.len(), 8);
    miss(&rt, &mut reader, 1);
}
