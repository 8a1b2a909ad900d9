//! What one thread sees of a map while another writes it: what was there at one moment.
use super::{Map, empty, key, put};
use std::process::Abort;
use std::sync::Wait;
use std::sync::atomic::{AtomicU32, Ordering};
use std::thread;
use std::thread::Threads;
use std::time::{Clock, Duration};
use test_keys::ChosenKey;
use trie_map::{NoMemory, PutError};

// How often the writer writes. The reader looks until the writer is done.
const TURNS: u32 = 5_000;

// How many hundredths of a second the two may take.
const PATIENCE: u32 = 3_000;

// What the writer does in each turn. Its keys lie in stripes far from one another.
#[derive(Clone, Copy, Debug)]
enum Writes {
    // Moves the only pair to the other key: removes it there, and puts it here.
    RemovedFirst,
    // Moves it, and removes it once it is put.
    PutFirst,
    // Puts the first key, and the second, and clears the map.
    Cleared,
    // Takes views, which take all locks as `len` does.
    Viewed,
}

fn remove_and_put<R: Wait>(
    rt: &R,
    map: &Map,
    from: &ChosenKey,
    to: ChosenKey,
) -> Result<(), PutError> {
    map.remove(rt, from)?;
    map.put(rt, to, 1)?;
    Ok(())
}

fn put_and_remove<R: Wait>(
    rt: &R,
    map: &Map,
    from: &ChosenKey,
    to: ChosenKey,
) -> Result<(), PutError> {
    map.put(rt, to, 1)?;
    map.remove(rt, from)?;
    Ok(())
}

fn put_and_clear<R: Wait>(
    rt: &R,
    map: &Map,
    first: ChosenKey,
    second: ChosenKey,
) -> Result<(), PutError> {
    map.put(rt, first, 1)?;
    map.put(rt, second, 2)?;
    map.clear(rt)?;
    Ok(())
}

// One turn of the writer, there and back.
fn write_and_undo<R: Wait>(
    rt: &R,
    map: &Map,
    writes: Writes,
    first: ChosenKey,
    second: ChosenKey,
) -> Result<(), PutError> {
    match writes {
        Writes::RemovedFirst => {
            remove_and_put(rt, map, &first, second)?;
            remove_and_put(rt, map, &second, first)
        }
        Writes::PutFirst => {
            put_and_remove(rt, map, &first, second)?;
            put_and_remove(rt, map, &second, first)
        }
        Writes::Cleared => put_and_clear(rt, map, first, second),
        Writes::Viewed => {
            map.view(rt)?;
            Ok(())
        }
    }
}

// All turns of the writer.
fn write<R: Wait>(
    rt: &R,
    map: &Map,
    writes: Writes,
    first: ChosenKey,
    second: ChosenKey,
) -> Result<(), PutError> {
    for _ in 0..TURNS {
        write_and_undo(rt, map, writes, first, second)?;
    }
    Ok(())
}

// Whether a view has the second key without the first.
fn has_second_alone<R: Wait>(
    rt: &R,
    map: &Map,
    first: &ChosenKey,
    second: &ChosenKey,
) -> Result<bool, NoMemory> {
    let view = map.view(rt)?;
    Ok(view.contains_key(second) && !view.contains_key(first))
}

// Whether what is seen now was there at no moment.
fn is_wrong<R: Wait>(
    rt: &R,
    map: &Map,
    writes: Writes,
    first: &ChosenKey,
    second: &ChosenKey,
) -> Result<bool, NoMemory> {
    match writes {
        Writes::RemovedFirst => Ok(1 < map.len(rt)),
        Writes::PutFirst => Ok(map.is_empty(rt)),
        Writes::Cleared => has_second_alone(rt, map, first, second),
        Writes::Viewed => Ok(map.len(rt) != 1),
    }
}

// Looks until the writer is done, and returns how often what was seen was wrong.
fn look<R: Wait>(
    rt: &R,
    map: &Map,
    writes: Writes,
    first: &ChosenKey,
    second: &ChosenKey,
    done: &AtomicU32,
) -> Result<u32, PutError> {
    let mut wrong = 0u32;
    for _ in rt.forever() {
        if is_wrong(rt, map, writes, first, second)? {
            wrong = wrong.wrapping_add(1);
        }
        if done.load(Ordering::SeqCst) != 0 {
            return Ok(wrong);
        }
    }
    unreachable!()
}

// Fails where the two are not done in time: they wait for one another.
fn watch<R: Clock + Abort>(rt: &R, done: &AtomicU32) {
    for _ in 0..PATIENCE {
        if done.load(Ordering::SeqCst) != 0 {
            return;
        }
        thread::sleep(rt, Duration::from_millis(10));
    }
    assert!(rt; false, "the threads wait for one another");
}

// What the thread of this number does: it returns how often what it saw was wrong.
fn work<R: Wait + Clock + Abort>(
    rt: &R,
    map: &Map,
    writes: Writes,
    keys: (ChosenKey, ChosenKey),
    done: &AtomicU32,
    number: usize,
) -> Result<u32, PutError> {
    if number == 0 {
        let written = write(rt, map, writes, keys.0, keys.1);
        done.store(1, Ordering::SeqCst);
        written?;
        return Ok(0);
    }
    if number == 1 {
        return look(rt, map, writes, &keys.0, &keys.1, done);
    }
    watch(rt, done);
    Ok(0)
}

// How often what was seen beside the writer was wrong.
fn wrong_looks<R: AllocGlobal + Threads + Wait + Clock + Abort + Sync>(
    rt: &R,
    map: &Map,
    writes: Writes,
    keys: (ChosenKey, ChosenKey),
) -> u32 {
    let flag = AtomicU32::new(0);
    let done = &flag;
    let mut wrong = 0u32;
    let all = thread::map_indices(
        rt,
        rt.alloc(),
        3,
        &|number: usize| { work(rt, map, writes, keys, done, number) },
    );
    for looks in all.expect(rt, "no threads") {
        wrong = wrong.wrapping_add(looks.expect(rt, "a call was refused"));
    }
    wrong
}

#[test]
fn what_is_seen_was_there_at_one_moment(rt: HostRuntime) {
    let (low, high) = (key(2, 0), key(29, 0));
    for writes in [
        Writes::RemovedFirst,
        Writes::PutFirst,
        Writes::Cleared,
        Writes::Viewed,
    ] {
        for (first, second) in [(low, high), (high, low)] {
            let map = empty(&rt);
            put(&rt, &map, first, 1);
            let wrong = wrong_looks(&rt, &map, writes, (first, second));
            assert_eq!(rt; wrong, 0, "{writes:?} {first:?}");
        }
    }
}
