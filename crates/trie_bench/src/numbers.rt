//! What is measured of a map of numbers.

use crate::arguments::Load;
use crate::asking::{Question, ask_one};
use crate::maps::{Map, shared_view};
use crate::rounds::{fill, read, remove, replace};
use bench_kit::{Best, Fault, number_keys, sought};
use slots::Slots;
use std::rt::Runtime;

/// Measures a map whose keys are the numbers from 0, of 64 bits each.
pub fn numbers<S: Slots<u64, i64>, R: Runtime + AllocGlobal>(
    rt: &R,
    load: Load,
) -> Result<(), Fault>
where
    S::Key: Drop,
    S::Value: Drop,
{
    let keys = number_keys::<S>(rt.alloc(), load.pairs)?;
    let done = measure::<S, R>(rt, load, keys.as_slice());
    drop(keys);
    done
}

/// Measures a map of these keys.
fn measure<S: Slots<u64, i64>, R: Runtime + AllocGlobal>(
    rt: &R,
    load: Load,
    keys: &[S::Key],
) -> Result<(), Fault>
where
    S::Key: Drop,
    S::Value: Drop,
{
    let Load { pairs, rounds } = load;
    let sought = sought::<u64, S>(rt.alloc(), keys)?;
    let sought = sought.as_slice();
    let mut puts = Best::new();
    first::<S, R>(rt, rounds, &mut puts, keys, sought)?;
    for _ in 0..rounds {
        drop(fill::<u64, S, R>(rt, &mut puts, keys)?);
    }
    puts.show(rt, "u64_put", 1, i128::from(pairs))?;
    remove::<u64, S, R>(rt, rounds, "u64_remove", keys, sought)
}

/// The first map.
fn first<S: Slots<u64, i64>, R: Runtime + AllocGlobal>(
    rt: &R,
    rounds: u32,
    puts: &mut Best,
    keys: &[S::Key],
    sought: &[&u64],
) -> Result<(), Fault>
where
    S::Key: Drop,
    S::Value: Drop,
{
    let mut map = fill::<u64, S, R>(rt, puts, keys)?;
    let done = each(rt, rounds, &mut map, keys, sought);
    drop(map);
    done
}

/// What is done with it.
fn each<S: Slots<u64, i64>, R: Runtime + AllocGlobal>(
    rt: &R,
    rounds: u32,
    map: &mut Map<u64, S>,
    keys: &[S::Key],
    sought: &[&u64],
) -> Result<(), Fault>
where
    S::Key: Drop,
    S::Value: Drop,
{
    read(rt, rounds, "u64_get", map, sought)?;
    replace(rt, rounds, "u64_replace", map, keys)?;
    let view = shared_view(rt.alloc(), map)?;
    let half = (view.len() / 2) as i64;
    let counted = ask_one(rt, rounds, "u64_count", &view, Question::Count(half));
    drop(view);
    counted
}
