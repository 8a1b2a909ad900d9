//! Rounds of puts, gets and removals of each key of a map, of whichever type its keys are.

use crate::maps::{Map, empty, get_all, put_all, remove_all};
use bench_kit::{Best, Fault};
use generation::Source;
use hash_path::PathKey;
use slots::Slots;
use std::rt::Runtime;
use std::time::Instant;

/// Puts all keys into an empty map, and counts the time.
pub fn fill<K: PathKey, S: Slots<K, i64>, R: Runtime + AllocGlobal>(
    rt: &R,
    best: &mut Best,
    keys: &[S::Key],
) -> Result<Map<K, S>, Fault>
where
    S::Key: Drop,
    S::Value: Drop,
{
    let start = Instant::now(rt)?;
    let mut map = empty::<K, S>(rt.alloc(), &mut Source::new())?;
    match fill_from(rt, best, start, &mut map, keys) {
        Ok(()) => Ok(map),
        Err(fault) => {
            drop(map);
            Err(fault)
        }
    }
}

/// Puts all keys, and counts the time since the start.
fn fill_from<K: PathKey, S: Slots<K, i64>, R: Runtime + AllocGlobal>(
    rt: &R,
    best: &mut Best,
    start: Instant,
    map: &mut Map<K, S>,
    keys: &[S::Key],
) -> Result<(), Fault>
where
    S::Key: Drop,
    S::Value: Drop,
{
    put_all(rt.alloc(), map, keys)?;
    best.count(start.elapsed(rt)?);
    Ok(())
}

/// Gets each key once.
pub fn read<K: PathKey, S: Slots<K, i64>, R: Runtime>(
    rt: &R,
    rounds: u32,
    name: &str,
    map: &Map<K, S>,
    keys: &[&K],
) -> Result<(), Fault>
where
    S::Key: Drop,
    S::Value: Drop,
{
    let mut best = Best::new();
    let mut sum = 0;
    for _ in 0..rounds {
        let start = Instant::now(rt)?;
        sum = get_all(map, keys);
        best.count(start.elapsed(rt)?);
    }
    best.show(rt, name, 1, i128::from(sum))
}

/// Puts a new value at each key once.
pub fn replace<K: PathKey, S: Slots<K, i64>, R: Runtime + AllocGlobal>(
    rt: &R,
    rounds: u32,
    name: &str,
    map: &mut Map<K, S>,
    keys: &[S::Key],
) -> Result<(), Fault>
where
    S::Key: Drop,
    S::Value: Drop,
{
    let mut best = Best::new();
    let mut sum = 0;
    for _ in 0..rounds {
        let start = Instant::now(rt)?;
        sum = put_all(rt.alloc(), map, keys)?;
        best.count(start.elapsed(rt)?);
    }
    best.show(rt, name, 1, i128::from(sum))
}

/// Removes each key once, of maps that are filled with them.
pub fn remove<K: PathKey, S: Slots<K, i64>, R: Runtime + AllocGlobal>(
    rt: &R,
    rounds: u32,
    name: &str,
    keys: &[S::Key],
    sought: &[&K],
) -> Result<(), Fault>
where
    S::Key: Drop,
    S::Value: Drop,
{
    let mut best = Best::new();
    let mut sum = 0;
    for _ in 0..rounds {
        let mut map = fill::<K, S, R>(rt, &mut Best::new(), keys)?;
        let removed = empty_out(rt, &mut best, &mut map, sought);
        drop(map);
        sum = removed?;
    }
    best.show(rt, name, 1, i128::from(sum))
}

/// Removes each key once, and counts the time.
fn empty_out<K: PathKey, S: Slots<K, i64>, R: Runtime + AllocGlobal>(
    rt: &R,
    best: &mut Best,
    map: &mut Map<K, S>,
    sought: &[&K],
) -> Result<i64, Fault>
where
    S::Key: Drop,
    S::Value: Drop,
{
    let start = Instant::now(rt)?;
    let sum = remove_all(rt.alloc(), map, sought)?;
    best.count(start.elapsed(rt)?);
    Ok(sum)
}
