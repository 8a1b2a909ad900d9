//! Marks: none that is set is lost, though 64 groups share a word.
use super::{assert_is, both, filled, put, with_base};
use hash_path::PathKey;
use map_reader::Readers;
use std::process::Abort;
use std::sync::Wait;
use std::thread;
use std::thread::Threads;
use stripes::Marks;

// How many path words are marked: some 15 in each of 128 words of bits.
const PATHS: u64 = 2_000;

// How often all of them are marked, by new marks each time.
const TIMES: usize = 300;

// Marks every path word whose number is `first` and `step` more, and so on.
fn mark(marks: &Marks, first: u64, step: u64) {
    for number in 0..PATHS {
        if number % step.max(1) == first {
            marks.mark(number.path());
        }
    }
}

// How many of the path words are clear.
fn clear_ones(marks: &Marks) -> u64 {
    let mut clear = 0u64;
    for number in 0..PATHS {
        clear = clear.wrapping_add(u64::from(marks.is_clear(number.path())));
    }
    clear
}

// New marks, a set for each time.
fn all_marks<R: AllocGlobal + Abort>(rt: &R) -> Vec<Marks> {
    let mut all = Vec::with_capacity(rt.alloc(), TIMES).expect(rt, "no room");
    for _ in 0..TIMES {
        let marks = Marks::new(rt.alloc(), PATHS).expect(rt, "no marks");
        all.push(marks).expect(rt, "no room");
    }
    all
}

// Each of the threads marks its part of the path words, in each of the sets.
fn mark_by_threads<R: AllocGlobal + Threads + Wait + Abort + Sync>(
    rt: &R,
    all: &[Marks],
    threads: usize,
) {
    let ended = thread::map_indices(
        rt,
        rt.alloc(),
        threads,
        &|thread: usize| {
            for marks in all {
                mark(marks, thread as u64, threads as u64);
            }
        },
    );
    assert!(rt; ended.is_ok(), "no threads");
}

#[test]
fn no_mark_is_lost(rt: HostRuntime) {
    for threads in [1, 4] {
        let all = all_marks(&rt);
        for marks in &all {
            assert_is(&rt, clear_ones(marks), PATHS);
        }
        mark_by_threads(&rt, &all, threads);
        for marks in &all {
            assert_is(&rt, clear_ones(marks), 0);
        }
    }
}

// Their marks share words, and each is written while some of the others are marked.
#[test]
fn each_of_many_writes_is_seen(rt: HostRuntime) {
    let row = filled(&rt, PATHS);
    let readers = Readers::new(rt.alloc(), &row);
    let mut reader = with_base(&rt, &readers);
    super::miss(&rt, &mut reader, 62);
    assert_is(&rt, readers.made(), 1);
    for key in 0..PATHS {
        put(&rt, &row, key, key + 1);
    }
    for key in 0..PATHS {
        assert_is(
            &rt,
            both(&rt, &mut reader, key),
            (Some(key + 1), Some(key + 1)),
        );
    }
}
