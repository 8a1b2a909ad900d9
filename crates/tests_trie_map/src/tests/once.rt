//! How often closures are called.
use super::crews::{four, in_thirds};
use super::{Map, Seen, assert_is, view_of};
use std::process::Abort;
use std::sync::Wait;
use std::sync::atomic::{AtomicU32, Ordering};
use std::thread::Threads;
use trie_map::Sum;

// How many pairs there are.
const ALL: u32 = 300;

// A closure's answer, which is counted.
fn counted<T>(count: &AtomicU32, answer: T) -> T {
    count.fetch_add(1, Ordering::SeqCst);
    answer
}

// How often the closure of a view's calls is called, by one thread: of a count, a fold, a filter and a map of values.
fn called_by_one<R: Abort>(rt: &R, view: &Seen) -> [u32; 4] {
    let count = AtomicU32::new(0);
    view.count(|_, value| counted(&count, *value == 1));
    let first = count.swap(0, Ordering::SeqCst);
    view.fold(&Sum, |_, value| counted(&count, i128::from(*value)));
    let second = count.swap(0, Ordering::SeqCst);
    let filtered = view.filter(|_, value| counted(&count, *value == 1));
    drop(filtered.expect(rt, "no map"));
    let third = count.swap(0, Ordering::SeqCst);
    let made = view.map_values(|_, value| counted(&count, *value == 1));
    drop(made.expect(rt, "no map"));
    [first, second, third, count.swap(0, Ordering::SeqCst)]
}

// The same by a crew: of a count, a fold, groups, the highest scores, and a call at each pair.
fn called_by_crew<R: Threads + Wait + Abort + Sync>(rt: &R, view: &Seen) -> [u32; 5] {
    let count = AtomicU32::new(0);
    view.par_count(rt, |_, value| counted(&count, *value == 1), four())
        .expect(rt, "no count");
    let first = count.swap(0, Ordering::SeqCst);
    view.par_fold(
        rt,
        &Sum,
        |_, value| counted(&count, i128::from(*value)),
        four(),
    )
    .expect(rt, "no sum");
    let second = count.swap(0, Ordering::SeqCst);
    let groups = view.par_group_count(rt, |_, value| counted(&count, *value), four());
    drop(groups.expect(rt, "no groups"));
    let third = count.swap(0, Ordering::SeqCst);
    let top = view.par_top(rt, 3, |_, value| counted(&count, *value), four());
    drop(top.expect(rt, "no pairs"));
    let fourth = count.swap(0, Ordering::SeqCst);
    view.par_for_each(rt, |_, _| counted(&count, ()), four())
        .expect(rt, "no calls");
    [
        first,
        second,
        third,
        fourth,
        count.swap(0, Ordering::SeqCst),
    ]
}

// The same of a map whose values are all given anew.
fn called_for_new_values<R: Wait + Abort>(rt: &R, map: &Map) -> u32 {
    let count = AtomicU32::new(0);
    map.replace_all(rt, |_, value| counted(&count, *value))
        .expect(rt, "not replaced");
    count.swap(0, Ordering::SeqCst)
}

#[test]
fn a_closure_is_called_once_at_each_pair(rt: HostRuntime) {
    let map = in_thirds(&rt);
    let view = view_of(&rt, &map);
    assert_is(&rt, called_by_one(&rt, &view), [ALL; 4]);
    assert_is(&rt, called_by_crew(&rt, &view), [ALL; 5]);
    assert_is(&rt, called_for_new_values(&rt, &map), ALL);
}
