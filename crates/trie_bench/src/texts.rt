//! What is measured of a map of byte texts.

use crate::arguments::Load;
use crate::asking::ask_all;
use crate::lists::read_lists;
use crate::maps::{Map, shared_view};
use crate::memory::{resident_bytes, show_bytes};
use crate::rounds::{fill, read, remove, replace};
use crate::wholes::{cut, merge, snapshot, view_filter, view_map_values, walk};
use bench_kit::{Best, Fault, shuffled, sought, text_keys};
use keys::ByteText;
use slots::Slots;
use std::rt::Runtime;

/// Measures a map whose keys are the texts `k0000000`, `k0000001` and so on.
pub fn texts<S: Slots<ByteText, i64>, R: Runtime + AllocGlobal>(
    rt: &R,
    load: Load,
) -> Result<(), Fault>
where
    S::Key: Drop,
    S::Value: Drop,
{
    let keys = text_keys::<S>(rt.alloc(), load.pairs)?;
    let done = measure::<S, R>(rt, load.rounds, keys.as_slice());
    drop(keys);
    done
}

/// Measures a map of these keys.
fn measure<S: Slots<ByteText, i64>, R: Runtime + AllocGlobal>(
    rt: &R,
    rounds: u32,
    keys: &[S::Key],
) -> Result<(), Fault>
where
    S::Key: Drop,
    S::Value: Drop,
{
    let sought = sought::<ByteText, S>(rt.alloc(), keys)?;
    let sought = sought.as_slice();
    let mut puts = Best::new();
    fresh::<S, R>(rt, rounds, &mut puts, keys, sought)?;
    scattered::<S, R>(rt, rounds, &mut puts, keys, sought)?;
    snapshot::<S, R>(rt, rounds, keys)?;
    remove::<ByteText, S, R>(rt, rounds, "remove", keys, sought)?;
    merge::<S, R>(rt, rounds, keys)
}

/// The first map of the process, on a heap that nothing has left in pieces.
fn fresh<S: Slots<ByteText, i64>, R: Runtime + AllocGlobal>(
    rt: &R,
    rounds: u32,
    puts: &mut Best,
    keys: &[S::Key],
    sought: &[&ByteText],
) -> Result<(), Fault>
where
    S::Key: Drop,
    S::Value: Drop,
{
    let in_random_order = shuffled(rt.alloc(), sought)?;
    let before = resident_bytes(rt);
    let mut map = fill::<ByteText, S, R>(rt, puts, keys)?;
    let done = each_alone(
        rt,
        rounds,
        before,
        &mut map,
        keys,
        sought,
        in_random_order.as_slice(),
    );
    drop(map);
    done
}

/// What is done with a map that has the keys, one after another.
fn each_alone<S: Slots<ByteText, i64>, R: Runtime + AllocGlobal>(
    rt: &R,
    rounds: u32,
    before: Option<u64>,
    map: &mut Map<ByteText, S>,
    keys: &[S::Key],
    sought: &[&ByteText],
    at_random: &[&ByteText],
) -> Result<(), Fault>
where
    S::Key: Drop,
    S::Value: Drop,
{
    show_bytes(rt, before, resident_bytes(rt), map.len())?;
    read(rt, rounds, "get", map, sought)?;
    read(rt, rounds, "get_random", map, at_random)?;
    by_lists(rt, rounds, map, at_random)?;
    replace(rt, rounds, "replace", map, keys)?;
    walks(rt, rounds, map)?;
    questions(rt, rounds, map)
}

/// Look-ups of several keys by one call.
fn by_lists<S: Slots<ByteText, i64>, R: Runtime + AllocGlobal>(
    rt: &R,
    rounds: u32,
    map: &Map<ByteText, S>,
    at_random: &[&ByteText],
) -> Result<(), Fault>
where
    S::Key: Drop,
    S::Value: Drop,
{
    let view = shared_view(rt.alloc(), map)?;
    let eight = read_lists(rt, rounds, "get_many_8", &view, at_random, 8);
    let more = read_lists(rt, rounds, "get_many_64", &view, at_random, 64);
    drop(view);
    eight?;
    more
}

/// Walks and cuts of the whole map.
fn walks<S: Slots<ByteText, i64>, R: Runtime + AllocGlobal>(
    rt: &R,
    rounds: u32,
    map: &Map<ByteText, S>,
) -> Result<(), Fault>
where
    S::Key: Drop,
    S::Value: Drop,
{
    let plain = map.view()?;
    let walked = walk(rt, rounds, &plain);
    let done = cut(rt, rounds, &plain);
    drop(plain);
    walked?;
    done
}

/// Questions about all pairs, and maps that are made of them.
fn questions<S: Slots<ByteText, i64>, R: Runtime + AllocGlobal>(
    rt: &R,
    rounds: u32,
    map: &Map<ByteText, S>,
) -> Result<(), Fault>
where
    S::Key: Drop,
    S::Value: Drop,
{
    let view = shared_view(rt.alloc(), map)?;
    let asked = ask_all(rt, rounds, &view);
    let filtered = view_filter(rt, rounds, &view);
    let made = view_map_values(rt, rounds, &view);
    drop(view);
    asked?;
    filtered?;
    made
}

/// Maps on the heap that dropped maps have left, whose free blocks are scattered.
fn scattered<S: Slots<ByteText, i64>, R: Runtime + AllocGlobal>(
    rt: &R,
    rounds: u32,
    puts: &mut Best,
    keys: &[S::Key],
    sought: &[&ByteText],
) -> Result<(), Fault>
where
    S::Key: Drop,
    S::Value: Drop,
{
    let mut again = Best::new();
    for _ in 0..rounds {
        drop(fill::<ByteText, S, R>(rt, &mut again, keys)?);
    }
    let mut map = fill::<ByteText, S, R>(rt, &mut again, keys)?;
    puts.count(again.shortest());
    let done = each_scattered(rt, rounds, *puts, again, &mut map, keys, sought);
    drop(map);
    done
}

/// What is done with the last of these maps.
fn each_scattered<S: Slots<ByteText, i64>, R: Runtime + AllocGlobal>(
    rt: &R,
    rounds: u32,
    puts: Best,
    again: Best,
    map: &mut Map<ByteText, S>,
    keys: &[S::Key],
    sought: &[&ByteText],
) -> Result<(), Fault>
where
    S::Key: Drop,
    S::Value: Drop,
{
    puts.show(rt, "put", 1, i128::from(map.len()))?;
    again.show(rt, "scattered_put", 1, i128::from(map.len()))?;
    read(rt, rounds, "scattered_get", map, sought)?;
    replace(rt, rounds, "scattered_replace", map, keys)
}
