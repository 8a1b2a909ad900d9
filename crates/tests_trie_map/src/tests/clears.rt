//! What is put while a map is cleared.
use super::{assert_is, key};
use std::alloc::Global;
use std::process::Abort;
use std::sync::atomic::{AtomicU32, Ordering};
use std::sync::{Arc, Wait};
use std::thread;
use std::thread::Threads;
use test_keys::ChosenKey;
use trie_map::{NoMemory, PutError, TrieMap};

// One thread puts for each of these digits, one clears the map, and one locks all stripes.
const DIGITS: usize = 16;

// How often the map is cleared. One that let go of its locks in between was seen at the sixth time.
const CLEARS: u32 = 100;

// How many keys a thread puts between two clears, all of one path word, so that a put takes its time.
const PUTS: u32 = 100;

// How often a thread lets others run before it gives up, which it does only where the map is at fault: some 30 seconds.
const PATIENCE: u32 = 100_000_000;

// What the threads tell one another.
#[derive(Drop)]
struct Signs {
    // How often the map was to be cleared, and whether no value was dropped since.
    clears: AtomicU32,
    is_first: AtomicU32,
    // How many values wait until all stripes were locked, and how many of them may go on.
    waiting: AtomicU32,
    gone_on: AtomicU32,
    // Whether a value could not go on, and whether all is over.
    held: AtomicU32,
    over: AtomicU32,
}

// A value. The first that is dropped when the map is cleared waits until another thread has locked all stripes.
struct Waiting {
    signs: Arc<Signs, Global>,
}

impl Drop for Waiting {
    fn drop(self) {
        let Waiting { signs } = self;
        if signs.is_first.swap(0, Ordering::SeqCst) == 1 && !goes_on(&signs) {
            signs.held.store(1, Ordering::SeqCst);
        }
    }
}

// Whether another thread locks all stripes.
fn goes_on(signs: &Signs) -> bool {
    let number = signs.waiting.fetch_add(1, Ordering::SeqCst).wrapping_add(1);
    for _ in 0..PATIENCE {
        if signs.gone_on.load(Ordering::SeqCst) >= number {
            return true;
        }
        thread::yield_now();
    }
    false
}

type Values = TrieMap<ChosenKey, Waiting>;

fn is_over(signs: &Signs) -> bool {
    signs.over.load(Ordering::SeqCst) == 1
}

// Clears the map again and again, until a value that is dropped waits in vain.
fn clear_often<R: Wait>(rt: &R, map: &Values, signs: &Signs) -> Result<(), NoMemory> {
    for _ in 0..CLEARS {
        signs.is_first.store(1, Ordering::SeqCst);
        signs.clears.fetch_add(1, Ordering::SeqCst);
        map.clear(rt)?;
        if signs.held.load(Ordering::SeqCst) == 1 {
            break;
        }
    }
    signs.is_first.store(0, Ordering::SeqCst);
    Ok(())
}

// Locks all stripes whenever a value waits.
fn lock_often<R: Wait>(rt: &R, map: &Values, signs: &Signs) {
    for _ in rt.forever() {
        if is_over(signs) {
            return;
        }
        let waiting = signs.waiting.load(Ordering::SeqCst);
        if waiting > signs.gone_on.load(Ordering::SeqCst) {
            map.len(rt);
            signs.gone_on.store(waiting, Ordering::SeqCst);
        }
        thread::yield_now();
    }
}

// Puts keys that were never there, some for each clear.
fn put_often<R: Wait>(
    rt: &R,
    map: &Values,
    signs: &Arc<Signs, Global>,
    digit: u32,
) -> Result<(), PutError> {
    let mut id = 0u32;
    for _ in rt.forever() {
        if is_over(signs) {
            break;
        }
        let most = signs.clears.load(Ordering::SeqCst).wrapping_mul(PUTS);
        if id < most {
            let signs = Arc::try_clone(signs)?;
            map.put(rt, key(digit, id), Waiting { signs })?;
            id = id.wrapping_add(1);
        } else {
            thread::yield_now();
        }
    }
    Ok(())
}

// What the thread of this number does.
fn take_part<R: Wait>(
    rt: &R,
    map: &Values,
    signs: &Arc<Signs, Global>,
    thread: usize,
) -> Result<(), PutError> {
    if thread < DIGITS {
        return put_often(rt, map, signs, thread as u32);
    }
    if thread == DIGITS {
        lock_often(rt, map, signs);
        return Ok(());
    }
    let cleared = clear_often(rt, map, signs);
    signs.over.store(1, Ordering::SeqCst);
    Ok(cleared?)
}

// Signs none of which is set.
fn no_signs(alloc: Global) -> Result<Arc<Signs, Global>, NoMemory> {
    let signs = Signs {
        clears: AtomicU32::new(0),
        is_first: AtomicU32::new(0),
        waiting: AtomicU32::new(0),
        gone_on: AtomicU32::new(0),
        held: AtomicU32::new(0),
        over: AtomicU32::new(0),
    };
    Ok(Arc::new(alloc, signs)?)
}

// A value that is put while the map is cleared is dropped when no lock is held, or stays: `clear` removes what it has
// found, and lets go of no lock in between.
#[test]
fn what_is_put_meanwhile_is_not_dropped_under_a_lock(rt: HostRuntime) {
    let map: Values = TrieMap::new(&rt).expect(&rt, "no map");
    let signs = no_signs(rt.alloc()).expect(&rt, "no signs");
    let all = thread::map_indices(
        &rt,
        rt.alloc(),
        DIGITS + 2,
        &|thread: usize| { take_part(&rt, &map, &signs, thread) },
    );
    for ended in all.expect(&rt, "no threads") {
        assert_is(&rt, ended, Ok(()));
    }
    assert_is(&rt, signs.held.load(Ordering::SeqCst), 0);
    assert_is(&rt, signs.clears.load(Ordering::SeqCst), CLEARS);
}
