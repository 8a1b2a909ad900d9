//! Questions about the map, of one thread and of crews.
use crate::{Numbers, PAIRS};
use std::sync::Wait;
use std::thread::Threads;
use tambyulo::{Both, Crew, Greatest, Least, NoMemory, Sum, View};

// How many pairs are listed by their score.
const LISTED: usize = 100_000;

// How many pairs a walk meets.
fn walked(view: &View<u64, u64>) -> u64 {
    let mut pairs = 0u64;
    for _ in view.pairs() {
        pairs = pairs.wrapping_add(1);
    }
    pairs
}

// A sum that is below 2^64.
fn plain(sum: i128) -> u64 {
    u64::try_from(sum).unwrap_or(u64::MAX)
}

/// How many pairs a walk meets; how many are even; whether the last number is there, and whether all numbers are below the
/// end; the number that is found; and the sum of all.
pub fn asked<R: Wait>(rt: &R, map: &Numbers) -> Result<[u64; 6], NoMemory> {
    let found = map.find(rt, |_, value| *value == 1_234_567)?;
    Ok([
        walked(&map.view(rt)?),
        map.count(rt, |_, value| *value % 2 == 0)?,
        u64::from(map.exists(rt, |_, value| *value == PAIRS - 1)?),
        u64::from(map.for_all(rt, |_, value| *value < PAIRS)?),
        found.map_or(0, |pair| *pair.1),
        plain(map.fold(rt, &Sum, |_, value| i128::from(*value))?),
    ])
}

// A number that a fold found.
fn number(found: Option<i64>) -> u64 {
    found.map_or(u64::MAX, |number| number.unsigned_abs())
}

/// The least and the greatest number.
pub fn ends<R: Wait>(rt: &R, map: &Numbers) -> Result<[u64; 2], NoMemory> {
    let (least, greatest) = map.fold(rt, &Both(Least, Greatest), |_, value| {
        let item = i64::try_from(*value).ok();
        (item, item)
    })?;
    Ok([number(least), number(greatest)])
}

/// How many pairs are even, and the sum of all; how many groups of numbers there are that leave one rest by 1,000; and how
/// many pairs are listed by their value.
pub fn asked_of_crew<R: Threads + Wait + Sync>(
    rt: &R,
    map: &Numbers,
) -> Result<[u64; 4], NoMemory> {
    let crew = Crew::of(4);
    let counted = map.par_count(rt, |_, value| *value % 2 == 0, crew)?;
    let sum = map.par_fold(rt, &Sum, |_, value| i128::from(*value), crew)?;
    let groups = map.par_group_count(rt, |_, value| *value % 1_000, crew)?;
    let ranked = map.par_top(rt, LISTED, |_, value| *value, crew)?;
    Ok([
        counted,
        plain(sum),
        groups.len() as u64,
        ranked.len() as u64,
    ])
}
