//! Eight threads on one map.
use super::{Map, Seen, assert_is, empty, key, plain};
use std::process::Abort;
use std::sync::Wait;
use std::thread;
use std::thread::Threads;
use test_keys::ChosenKey;
use trie_map::PutError;

// How many threads there are, how many calls each makes, and how often all of it is done.
const THREADS: u32 = 8;

const CALLS: u32 = 20_000;

const TIMES: u32 = 50;

// How many keys the threads share, and how many each has for itself.
const SHARED: u32 = 64;

const OWN: usize = 16;

// The ids of keys of which each has one writer: its own keys, and the two of its pair.
const FIRST_OWN: u32 = 1_000;

const FIRST_OF_PAIR: u32 = 1_000_000;

const SECOND_OF_PAIR: u32 = 2_000_000;

// What a thread counted.
#[derive(Clone, Copy)]
struct Counts {
    added: u64,
    removed: u64,
    // What was not as this thread had left it, and views that have what was written second and not what was first.
    wrong: u64,
}

impl Counts {
    // Counts a put, which found a value or added a pair.
    fn put(&mut self, before: Option<u64>) {
        if before.is_none() {
            self.added = self.added.wrapping_add(1);
        }
    }

    fn expect(&mut self, holds: bool) {
        if !holds {
            self.wrong = self.wrong.wrapping_add(1);
        }
    }

    fn add(&mut self, other: Counts) {
        self.added = self.added.wrapping_add(other.added);
        self.removed = self.removed.wrapping_add(other.removed);
        self.wrong = self.wrong.wrapping_add(other.wrong);
    }
}

// No counts yet.
fn none() -> Counts {
    Counts {
        added: 0,
        removed: 0,
        wrong: 0,
    }
}

// The next random number: xorshift.
fn next(state: u64) -> u64 {
    let state = state ^ (state << 13);
    let state = state ^ (state >> 7);
    state ^ (state << 17)
}

// The keys of a thread's pair: for one half of the threads the first lies in a stripe before that of the second, for
// the other half behind it.
fn pair(of: u32) -> (ChosenKey, ChosenKey) {
    let low = of % THREADS;
    let high = 31 - low;
    if low % 2 == 0 {
        (key(low, FIRST_OF_PAIR), key(high, SECOND_OF_PAIR))
    } else {
        (key(high, FIRST_OF_PAIR), key(low, SECOND_OF_PAIR))
    }
}

// A call on one of the keys that the threads share, two in each stripe.
fn share<R: Wait>(
    rt: &R,
    map: &Map,
    number: u32,
    call: u32,
    counts: &mut Counts,
) -> Result<(), PutError> {
    let shared = key(number % 32, number % SHARED);
    if number % 3 == 0 {
        if map.remove(rt, &shared)?.is_some() {
            counts.removed = counts.removed.wrapping_add(1);
        }
    } else {
        counts.put(plain(map.put_if_absent(rt, shared, u64::from(call))?));
    }
    if let Some(found) = map.get(rt, &shared)? {
        counts.expect(*found < u64::from(CALLS));
    }
    Ok(())
}

// Puts one of the thread's own keys, which has what the thread left there, and reads it back.
fn own<R: Wait>(
    rt: &R,
    map: &Map,
    id: u32,
    value: u64,
    left: &mut u64,
    counts: &mut Counts,
) -> Result<(), PutError> {
    let mine = key(id % 32, id);
    let before = plain(map.put(rt, mine, value)?);
    counts.put(before);
    counts.expect(before.unwrap_or(0) == *left);
    *left = value;
    counts.expect(plain(map.get(rt, &mine)?) == Some(value));
    Ok(())
}

// Writes the two keys of the thread's pair, always in one order.
fn write_pair<R: Wait>(
    rt: &R,
    map: &Map,
    of: u32,
    value: u64,
    counts: &mut Counts,
) -> Result<(), PutError> {
    let (first, second) = pair(of);
    counts.put(plain(map.put(rt, first, value)?));
    counts.put(plain(map.put(rt, second, value)?));
    Ok(())
}

// Checks that no thread's pair is seen with what was written second and without what was written first.
fn look(view: &Seen, counts: &mut Counts) {
    for of in 0..THREADS {
        let (first, second) = pair(of);
        let before = view.get(&first).map_or(0, |value| **value);
        let after = view.get(&second).map_or(0, |value| **value);
        counts.expect(after <= before);
    }
}

// The calls of one thread.
fn work<R: Wait>(rt: &R, map: &Map, of: u32) -> Result<Counts, PutError> {
    let mut counts = none();
    let mut left = [0u64; OWN];
    let mut state = u64::from(of) + 1;
    for call in 0..CALLS {
        state = next(state);
        let number = (state % 4_096) as u32;
        let value = u64::from(call) + 1;
        match state / 4_096 % 8 {
            0 | 1 | 2 | 3 => share(rt, map, number, call, &mut counts)?,
            4 | 5 => {
                let place = number as usize % OWN;
                let id = FIRST_OWN
                    .wrapping_mul(of.wrapping_add(1))
                    .wrapping_add(place as u32);
                own(rt, map, id, value, &mut left[place], &mut counts)?;
            }
            6 => write_pair(rt, map, of, value, &mut counts)?,
            _ => {
                if number % 32 == 0 {
                    look(&map.view(rt)?, &mut counts);
                }
            }
        }
    }
    Ok(counts)
}

// The counts of all threads on the map.
fn counted<R: AllocGlobal + Threads + Wait + Abort + Sync>(rt: &R, map: &Map) -> Counts {
    let mut sum = none();
    let all = thread::map_indices(
        rt,
        rt.alloc(),
        THREADS as usize,
        &|place: usize| { work(rt, map, u32::try_from(place).unwrap_or(0)) },
    );
    for counts in all.expect(rt, "no threads") {
        sum.add(counts.expect(rt, "a call was refused"));
    }
    sum
}

#[test]
fn eight_threads_write_and_read_one_map(rt: HostRuntime) {
    for _ in 0..TIMES {
        let map = empty(&rt);
        let counts = counted(&rt, &map);
        assert_is(&rt, counts.wrong, 0);
        let left = counts.added.wrapping_sub(counts.removed);
        assert_is(&rt, left, map.len(&rt));
    }
}
