//! The root of several maps, with every request for memory refused.

use std::panic::Expect;
use test_keys::{ChosenKey, take_all};
use test_roots::Gathered;

/// The row asks for memory once, and the root once.
#[test]
fn out_of_memory_is_an_error(rt: HostRuntime) {
    let alloc = rt.alloc();
    let all = Gathered::<ChosenKey, u32>::new(alloc).expect(&rt, "no row");
    let taken = take_all(alloc).expect(&rt, "no list");
    let row = Gathered::<ChosenKey, u32>::new(alloc).is_err();
    let root = all.into_root(alloc).is_err();
    drop(taken);
    assert!(rt; row);
    assert!(rt; root);
}
