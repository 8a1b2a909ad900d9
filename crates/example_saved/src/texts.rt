//! The lines of all maps, written and read by threads.
use crate::fault::SaveFault;
use crate::line::SavedKey;
use crate::loading::load;
use crate::saving::save;
use crate::service::Snapshot;
use anyhow::Result;
use std::alloc::Global;
use std::sync::Wait;
use std::thread;
use std::thread::Threads;
use tambyulo::{TrieMap, View};

/// How many maps are saved.
const MAPS: usize = 3;

/// Saves the view at this place.
fn save_one(alloc: Global, snapshot: &Snapshot, place: usize) -> Result<Vec<u8>, SaveFault> {
    let mut text = Vec::new(alloc);
    match place {
        0 => save(alloc, &snapshot.accounts, &mut text)?,
        1 => save(alloc, &snapshot.limits, &mut text)?,
        _ => save(alloc, &snapshot.statuses, &mut text)?,
    }
    Ok(text)
}

/// Saves the views side by side, each by a thread of its own, and returns their lines.
pub fn save_all<R: AllocGlobal + Threads + Wait + Sync>(
    rt: &R,
    snapshot: &Snapshot,
) -> Result<Vec<Vec<u8>>> {
    let alloc = rt.alloc();
    let mut texts = Vec::new(alloc);
    for text in thread::map_indices(
        rt,
        alloc,
        MAPS,
        &|place: usize| { save_one(alloc, snapshot, place) },
    )? {
        texts.push(text?)?;
    }
    Ok(texts)
}

/// Loads the lines, and returns whether that gives the pairs of the view.
pub fn is_loaded<R: AllocGlobal + Wait, K: SavedKey<V>, V: PartialEq + Drop>(
    rt: &R,
    text: &[u8],
    saved: &View<K, V>,
) -> Result<bool> {
    let mut reader = text;
    let map: TrieMap<K, V> = load(rt, &mut reader)?;
    Ok(is_same(saved, &map.view(rt)?))
}

/// Whether the views have the same pairs.
fn is_same<K: SavedKey<V>, V: PartialEq + Drop>(one: &View<K, V>, other: &View<K, V>) -> bool {
    for (key, value) in one.iter() {
        match other.get(key) {
            Some(found) if **found == **value => {}
            _ => return false,
        }
    }
    one.len() == other.len()
}
