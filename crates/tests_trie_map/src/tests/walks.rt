//! Walks over a view by a `for`.
use super::{Seen, assert_is, empty, key, put, view_of};
use std::process::Abort;
use std::sync::Wait;

// A view of six keys in three stripes; the value of each is its number.
fn six<R: AllocGlobal + Wait + Abort>(rt: &R) -> Seen {
    let map = empty(rt);
    for id in 0..6 {
        put(rt, &map, key(id % 3, id), u64::from(id));
    }
    view_of(rt, &map)
}

// The numbers of the keys, as the digits of one number, and the sum of the values, by a `for` over the view.
fn digits_and_sum(view: &Seen) -> (u32, u64) {
    let mut digits = 0u32;
    let mut sum = 0u64;
    for (key, value) in view {
        digits = digits.wrapping_mul(10).wrapping_add(key.id);
        sum = sum.wrapping_add(**value);
    }
    (digits, sum)
}

// The numbers of the keys of the pairs whose values are odd, as the digits of one number.
fn odd(view: &Seen) -> u32 {
    let mut digits = 0u32;
    for (key, value) in view.iter() {
        if **value % 2 == 1 {
            digits = digits.wrapping_mul(10).wrapping_add(key.id);
        }
    }
    digits
}

#[test]
fn a_view_is_walked_as_it_is(rt: HostRuntime) {
    let view = six(&rt);
    assert_is(&rt, digits_and_sum(&view), (31_425, 15));
    assert_is(&rt, odd(&view), 315);
    assert_is(&rt, view.iter().len(), 6);
}

#[test]
fn a_view_of_no_pairs_is_walked(rt: HostRuntime) {
    let view = view_of(&rt, &empty(&rt));
    assert_is(&rt, digits_and_sum(&view), (0, 0));
    assert_is(&rt, view.iter().len(), 0);
}
