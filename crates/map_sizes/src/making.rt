//! Maps that are made of the map.
use crate::Numbers;
use combiner::merge;
use std::alloc::Global;
use std::sync::Wait;
use tambyulo::{NoMemory, Version};

// How many pairs two maps have together, or 0 where they may be more than a map may have.
fn together(
    alloc: Global,
    left: &Version<u64, u64>,
    right: &Version<u64, u64>,
) -> Result<u64, NoMemory> {
    let Some(both) = left.len().checked_add(right.len()) else {
        return Ok(0);
    };
    if both > left.limit() || left.limit() != right.limit() {
        return Ok(0);
    }
    Ok(merge(alloc, left, right)?.len())
}

/// How many pairs the map of the even numbers has; the map from each number to whether it is even; and the map of the
/// even numbers and of the odd ones together.
pub fn made<R: AllocGlobal + Wait>(rt: &R, map: &Numbers) -> Result<[u64; 3], NoMemory> {
    let even = map.filter(rt, |_, value| *value % 2 == 0)?;
    let odd = map.filter(rt, |_, value| *value % 2 == 1)?;
    let merged = together(rt.alloc(), &even, &odd)?;
    let changed = map.map_values(rt, |_, value| *value % 2 == 0)?;
    Ok([even.len(), changed.len(), merged])
}
