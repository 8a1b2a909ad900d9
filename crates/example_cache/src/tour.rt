//! What the program does.

use crate::ages::{expire, made_since};
use crate::lookups::{Cache, sum_of};
use anyhow::Result;
use std::rt::Runtime;
use std::sync::Wait;
use std::thread;
use std::thread::Threads;
use trie_map::TrieMap;

/// How many threads share the cache, and how many numbers each looks up.
const THREADS: usize = 4;

const LOOKUPS: u64 = 1_000;

/// Fills a cache by four threads, counts a snapshot while they write, and filters old entries out.
pub fn tour<R: Runtime + AllocGlobal + Threads + Wait + Sync>(rt: &R) -> Result<()> {
    let alloc = rt.alloc();
    let made: Cache = TrieMap::new(rt)?;
    let cache = &made;

    // Four threads look up the same numbers. Each number is kept once, whoever was first.
    for sum in thread::map_indices(
        rt,
        alloc,
        THREADS,
        &|_: usize| { sum_of(rt, cache, 0, LOOKUPS) },
    )? {
        rt.println(format_args!("sum of the first thousand: {}", sum?))?;
    }
    rt.println(format_args!("in the cache: {}", cache.len(rt)))?;

    // A snapshot keeps what the cache has now. One thread counts it while the others write other numbers.
    let taken = cache.snapshot(rt)?;
    let snapshot = &taken;
    for outcome in thread::map_indices(
        rt,
        alloc,
        THREADS,
        &|place: usize| -> Result<u64> {
            if place == 0 {
                return counted(rt, snapshot);
            }
            sum_of(rt, cache, LOOKUPS * place as u64, LOOKUPS)?;
            Ok(0)
        },
    )? {
        let count = outcome?;
        if count != 0 {
            rt.println(format_args!("in the snapshot: {count}"))?;
        }
    }
    rt.println(format_args!("in the cache: {}", cache.len(rt)))?;
    aged(rt, cache)
}

// Counts what was made since second 5, and lets the rest go.
fn aged<R: Runtime + AllocGlobal + Wait>(rt: &R, cache: &Cache) -> Result<()> {
    // A question is asked of the cache as it stands, and nobody waits for the answer.
    let (_, young) = cache.query(rt, &made_since(5))?;
    if let Some(young) = young {
        rt.println(format_args!("made since second 5: {}", young.len()))?;
    }
    rt.println(format_args!("expired: {}", expire(rt, cache, 5)?))?;
    rt.println(format_args!("in the cache: {}", cache.len(rt)))?;
    Ok(())
}

// The pairs of a view of the map, one by one.
fn counted<R: Wait>(rt: &R, map: &Cache) -> Result<u64> {
    let mut count = 0u64;
    for _ in map.view(rt)?.pairs() {
        count = count.wrapping_add(1);
    }
    Ok(count)
}
