//! Rows of each size that lose a child with every request for memory refused.
use super::{assert_is, empty, key, plain, put};
use std::process::Abort;
use std::sync::Wait;
use test_keys::{ChosenKey, take_all};

// A key of one stripe, by the second digit of its word.
fn child(digit: u32) -> ChosenKey {
    key((digit << 5) | 1, 0)
}

// Whether the child in the middle of a full row of this many is removed. A body that copied the row would ask for memory.
fn is_removed<R: AllocGlobal + Wait + Abort>(rt: &R, count: u32) -> bool {
    let map = empty(rt);
    for digit in 0..count {
        put(rt, &map, child(digit), 1);
    }
    let taken = take_all(rt.alloc()).expect(rt, "no list");
    let removed = map.remove(rt, &child(count / 2));
    drop(taken);
    removed.is_ok_and(|found| plain(found) == Some(1))
        && map.len(rt) == u64::from(count.wrapping_sub(1))
}

#[test]
fn a_sole_holder_removes_from_each_row_without_memory(rt: HostRuntime) {
    for count in [2, 4, 8, 16, 32] {
        assert_is(&rt, is_removed(&rt, count), true);
    }
}
