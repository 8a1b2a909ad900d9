//! A map made of lines of JSON.
use crate::fault::LoadFault;
use crate::line::SavedKey;
use std::alloc::Global;
use std::io::BufRead;
use std::sync::Wait;
use tambyulo::TrieMap;

/// The map whose pairs are the lines of the reader.
///
/// # Errors
///
/// A line is no pair, or has the key of a line before it; the map is full; the reader failed; or memory was refused.
/// There is no map then.
pub fn load<R: AllocGlobal + Wait, K: SavedKey<V>, V: Drop, T: BufRead>(
    rt: &R,
    reader: &mut T,
) -> Result<TrieMap<K, V>, LoadFault> {
    let map = TrieMap::new(rt)?;
    fill(rt, &map, reader)?;
    Ok(map)
}

/// Puts the pair of each line that the reader has.
fn fill<R: AllocGlobal + Wait, K: SavedKey<V>, V: Drop, T: BufRead>(
    rt: &R,
    map: &TrieMap<K, V>,
    reader: &mut T,
) -> Result<(), LoadFault> {
    let alloc = rt.alloc();
    let mut line = Vec::new(alloc);
    for number in 1..u64::MAX {
        if !read_line(reader, &mut line)? {
            break;
        }
        put_line(rt, alloc, map, number, line.as_slice())?;
    }
    Ok(())
}

/// Reads the next line in place of the one before, with no newline. Returns false where there is none.
fn read_line<T: BufRead>(reader: &mut T, line: &mut Vec<u8>) -> Result<bool, LoadFault> {
    line.clear();
    let bytes = reader
        .read_until(b'\n', line)
        .map_err(LoadFault::of_reader)?;
    if line.last() == Some(&b'\n') {
        line.pop();
    }
    Ok(bytes > 0)
}

/// Puts the pair of the line with this number.
fn put_line<R: Wait, K: SavedKey<V>, V: Drop>(
    rt: &R,
    alloc: Global,
    map: &TrieMap<K, V>,
    number: u64,
    line: &[u8],
) -> Result<(), LoadFault> {
    let (key, value) = K::pair(alloc, line).map_err(|reason| LoadFault::of_line(number, reason))?;
    match map.put_if_absent(rt, key, value) {
        Ok(None) => Ok(()),
        Ok(Some(_)) => Err(LoadFault::Repeated(number)),
        Err(error) => Err(LoadFault::of_put(number, error)),
    }
}
