//! Readers beside threads that write.
use super::{TestStripes, assert_is, filled, put};
use map_reader::Readers;
use std::process::Abort;
use std::sync::Wait;
use std::sync::atomic::{AtomicU64, Ordering};
use std::thread;
use std::thread::Threads;

// The readers of a map of the tests.
type Shared<'m> = Readers<'m, u64, u64>;

// Two keys, which are written in this order.
const FIRST: u64 = 0;

const SECOND: u64 = 1;

// How often both are written.
const ROUNDS: u64 = 1_000;

// What the writer adds to the number of reads when it is done.
const DONE: u64 = 1 << 62;

// Waits until the reader has read `reads` times.
fn wait_for<R: Wait>(rt: &R, signals: &AtomicU64, reads: u64) {
    for _ in rt.forever() {
        if signals.load(Ordering::SeqCst) >= reads {
            return;
        }
    }
}

// Writes rising numbers to the first key and then to the second. Between two rounds are up to 2,000 reads, so that the
// reader takes a new base now before a write, now after it, and now between the two.
fn write<R: AllocGlobal + Wait + Abort>(rt: &R, row: &TestStripes, signals: &AtomicU64) {
    let mut reads = 0u64;
    for round in 1..ROUNDS {
        put(rt, row, FIRST, round);
        reads = reads.wrapping_add(round * 7 % 70);
        wait_for(rt, signals, reads);
        put(rt, row, SECOND, round);
        reads = reads.wrapping_add(round * 37 % 2_000);
        wait_for(rt, signals, reads);
    }
    signals.fetch_add(DONE, Ordering::SeqCst);
}

// Reads the second key and then the first until the writer is done, and answers how often the second was ahead of the
// first, or one of them behind what it was before.
fn read<R: Wait>(rt: &R, readers: &Shared<'_>, signals: &AtomicU64) -> u64 {
    let mut reader = readers.reader();
    let mut wrong = 0u64;
    let mut last = 0u64;
    for _ in rt.forever() {
        let second = reader.get_copied(rt, &SECOND).unwrap_or(0);
        let first = reader.get_copied(rt, &FIRST).unwrap_or(0);
        if second > first || first < last {
            wrong = wrong.wrapping_add(1);
        }
        last = first;
        if signals.fetch_add(2, Ordering::SeqCst) >= DONE {
            break;
        }
    }
    wrong
}

// How often all threads read what was wrong, by how often each did.
fn in_all(counts: Vec<u64>) -> u64 {
    let mut wrong = 0u64;
    for reads in counts {
        wrong = wrong.wrapping_add(reads);
    }
    wrong
}

// How often what was read beside the writer was wrong.
fn wrong_reads<R: AllocGlobal + Threads + Wait + Abort + Sync>(
    rt: &R,
    row: &TestStripes,
    readers: &Shared<'_>,
) -> u64 {
    let signals = AtomicU64::new(0);
    let told = &signals;
    let all = thread::map_indices(
        rt,
        rt.alloc(),
        2,
        &|number: usize| {
            if number == 0 {
                write(rt, row, told);
                0
            } else {
                read(rt, readers, told)
            }
        },
    );
    in_all(all.expect(rt, "no threads"))
}

#[test]
fn the_second_key_is_never_ahead_of_the_first(rt: HostRuntime) {
    let row = filled(&rt, 2);
    put(&rt, &row, FIRST, 0);
    put(&rt, &row, SECOND, 0);
    let readers = Readers::new(rt.alloc(), &row);
    assert_is(&rt, wrong_reads(&rt, &row, &readers), 0);
    assert!(&rt; readers.made() > 1, "no base was renewed");
}

// How many threads write and read at a time, and how often.
const THREADS: usize = 4;

const CALLS: u64 = 20_000;

// Writes the thread's own key and reads it, and reads the keys of the others. Answers how often the own key had not the
// value that this thread had put.
fn own<R: AllocGlobal + Wait + Abort>(
    rt: &R,
    row: &TestStripes,
    readers: &Shared<'_>,
    key: u64,
) -> u64 {
    let mut reader = readers.reader();
    let mut wrong = 0u64;
    let mut left = key;
    for call in 0..CALLS {
        if call % 1_500 < 20 {
            left = call;
            put(rt, row, key, left);
        }
        if reader.get_copied(rt, &key) != Some(left) {
            wrong = wrong.wrapping_add(1);
        }
        reader.get_copied(rt, &(call % 8));
    }
    wrong
}

// How often a thread did not read what it had put.
fn lost<R: AllocGlobal + Threads + Wait + Abort + Sync>(
    rt: &R,
    row: &TestStripes,
    readers: &Shared<'_>,
) -> u64 {
    let all = thread::map_indices(
        rt,
        rt.alloc(),
        THREADS,
        &|number: usize| { own(rt, row, readers, number as u64) },
    );
    in_all(all.expect(rt, "no threads"))
}

#[test]
fn a_thread_reads_what_it_has_put(rt: HostRuntime) {
    let row = filled(&rt, 8);
    let readers = Readers::new(rt.alloc(), &row);
    assert_is(&rt, lost(&rt, &row, &readers), 0);
    assert!(&rt; readers.made() > 1, "no base was renewed");
}
