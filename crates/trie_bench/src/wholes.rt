//! Rounds of what is done with a map as a whole: walks, cuts, snapshots, merges, and maps that a view makes.

ghost use Rattle.std.specs.Prelude.{◌≤◌, length};

use crate::maps::{Map, SharedView, empty, put_all, snapshot_all};
use crate::rounds::fill;
use crate::walks::{cut_all, merge_all, walk_all};
use bench_kit::{Best, Fault};
use generation::Source;
use keys::ByteText;
use slots::Slots;
use std::rt::Runtime;
use std::time::Instant;
use versions::View;

/// How many snapshots a round takes, each with a put after it.
const SNAPSHOTS: u32 = 1000;

/// How many pairs a piece may have that is not cut.
const GRAIN: u64 = 1024;

/// Reads all pairs in the order of a walk.
pub fn walk<S: Slots<ByteText, i64>, R: Runtime + AllocGlobal>(
    rt: &R,
    rounds: u32,
    view: &View<ByteText, i64, S>,
) -> Result<(), Fault> {
    let mut best = Best::new();
    let mut sum = 0;
    for _ in 0..rounds {
        let start = Instant::now(rt)?;
        sum = walk_all(rt.alloc(), view)?;
        best.count(start.elapsed(rt)?);
    }
    best.show(rt, "walk", 1, i128::from(sum))
}

/// Cuts the whole map down to the grain.
pub fn cut<S: Slots<ByteText, i64>, R: Runtime + AllocGlobal>(
    rt: &R,
    rounds: u32,
    view: &View<ByteText, i64, S>,
) -> Result<(), Fault>
where
    S::Key: Drop,
    S::Value: Drop,
{
    let mut best = Best::new();
    let mut pieces = 0;
    for _ in 0..rounds {
        let start = Instant::now(rt)?;
        pieces = cut_all(rt.alloc(), view, GRAIN)?;
        best.count(start.elapsed(rt)?);
    }
    best.show(rt, "cut", 1, i128::from(pieces))
}

/// Filters the half of the pairs by a call of the view.
pub fn view_filter<S: Slots<ByteText, i64>, R: Runtime>(
    rt: &R,
    rounds: u32,
    view: &SharedView<ByteText, S>,
) -> Result<(), Fault>
where
    S::Key: Drop,
    S::Value: Drop,
{
    let half = (view.len() / 2) as i64;
    let mut best = Best::new();
    let mut count = 0;
    for _ in 0..rounds {
        let start = Instant::now(rt)?;
        let made = view.filter(move |_, value| *value < half)?;
        let time = start.elapsed(rt);
        count = made.len();
        drop(made);
        best.count(time?);
    }
    best.show(rt, "view_filter", 1, i128::from(count))
}

/// Gives all keys a new value by a call of the view.
pub fn view_map_values<S: Slots<ByteText, i64>, R: Runtime>(
    rt: &R,
    rounds: u32,
    view: &SharedView<ByteText, S>,
) -> Result<(), Fault>
where
    S::Key: Drop,
    S::Value: Drop,
{
    let mut best = Best::new();
    let mut count = 0;
    for _ in 0..rounds {
        let start = Instant::now(rt)?;
        let made = view.map_values(|_, _| 1i64)?;
        let time = start.elapsed(rt);
        count = made.len();
        drop(made);
        best.count(time?);
    }
    best.show(rt, "view_map_values", 1, i128::from(count))
}

/// Puts two maps together that have half of the keys each.
pub fn merge<S: Slots<ByteText, i64>, R: Runtime + AllocGlobal>(
    rt: &R,
    rounds: u32,
    keys: &[S::Key],
) -> Result<(), Fault>
where
    S::Key: Drop,
    S::Value: Drop,
{
    let (low, high) = keys.split_at(keys.len() / 2);
    let left = fill::<ByteText, S, R>(rt, &mut Best::new(), low)?;
    let done = merge_with::<S, R>(rt, rounds, &left, high);
    drop(left);
    done
}

/// Puts a map of the keys and this one together.
fn merge_with<S: Slots<ByteText, i64>, R: Runtime + AllocGlobal>(
    rt: &R,
    rounds: u32,
    left: &Map<ByteText, S>,
    high: &[S::Key],
) -> Result<(), Fault>
where
    S::Key: Drop,
    S::Value: Drop,
{
    let right = fill::<ByteText, S, R>(rt, &mut Best::new(), high)?;
    let done = merges(rt, rounds, left, &right);
    drop(right);
    done
}

/// Puts both maps together.
fn merges<S: Slots<ByteText, i64>, R: Runtime + AllocGlobal>(
    rt: &R,
    rounds: u32,
    left: &Map<ByteText, S>,
    right: &Map<ByteText, S>,
) -> Result<(), Fault>
where
    S::Key: Drop,
    S::Value: Drop,
{
    let mut best = Best::new();
    let mut count = 0;
    for _ in 0..rounds {
        let start = Instant::now(rt)?;
        count = merge_all(rt.alloc(), left, right)?;
        best.count(start.elapsed(rt)?);
    }
    best.show(rt, "merge", 1, i128::from(count))
}

/// Takes snapshots, each with a put after it: the time of one.
pub fn snapshot<S: Slots<ByteText, i64>, R: Runtime + AllocGlobal>(
    rt: &R,
    rounds: u32,
    keys: &[S::Key],
) -> Result<(), Fault>
where
    S::Key: Drop,
    S::Value: Drop,
{
    let mut best = Best::new();
    let mut sum = 0;
    let few = &keys[..keys.len().min(SNAPSHOTS as usize)];
    for _ in 0..rounds {
        sum = snapshots::<S, R>(rt, &mut best, keys, few)?;
    }
    best.show(rt, "snapshot_then_put", few.len() as u32, i128::from(sum))
}

/// Takes snapshots of one map, and counts the time.
fn snapshots<S: Slots<ByteText, i64>, R: Runtime + AllocGlobal>(
    rt: &R,
    best: &mut Best,
    keys: &[S::Key],
    few: &[S::Key],
) -> Result<i64, Fault>
where
    S::Key: Drop,
    S::Value: Drop,
    requires { length few.now ≤ 1000 }
{
    let mut source = Source::new();
    let mut map = empty::<ByteText, S>(rt.alloc(), &mut source)?;
    let done = snapshots_of(rt, best, &mut source, &mut map, keys, few);
    drop(map);
    done
}

/// Fills the map, and takes the snapshots of it.
fn snapshots_of<S: Slots<ByteText, i64>, R: Runtime + AllocGlobal>(
    rt: &R,
    best: &mut Best,
    source: &mut Source,
    map: &mut Map<ByteText, S>,
    keys: &[S::Key],
    few: &[S::Key],
) -> Result<i64, Fault>
where
    S::Key: Drop,
    S::Value: Drop,
    requires issued { map.old.stamp ≤ source.old }
    requires few { length few.now ≤ 1000 }
    requires room { source.old ≤ 1 }
{
    put_all(rt.alloc(), map, keys)?;
    let start = Instant::now(rt)?;
    let sum = snapshot_all(rt.alloc(), map, source, few)?;
    best.count(start.elapsed(rt)?);
    Ok(sum)
}
