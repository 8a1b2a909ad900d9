//! Maps in files.
use crate::fault::{LoadFault, SaveFault};
use crate::line::SavedKey;
use crate::loading::load;
use crate::saving::save;
use std::fs::{File, Files};
use std::io;
use std::io::{BufReader, BufWriter};
use std::sync::Wait;
use tambyulo::{TrieMap, View};

/// Saves the view to the file with this path, which is made, or emptied first.
///
/// # Errors
///
/// The file cannot be made, or [`save`] fails.
pub fn save_file<R: Files + AllocGlobal, K: SavedKey<V>, V: Drop>(
    rt: &R,
    path: &str,
    view: &View<K, V>,
) -> Result<(), SaveFault> {
    let mut writer = create(rt, path).map_err(SaveFault::of_writer)?;
    save(rt.alloc(), view, &mut writer)
}

/// The map whose pairs are the lines of the file with this path.
///
/// # Errors
///
/// The file cannot be opened, or [`load`] fails. There is no map then.
pub fn load_file<R: Files + AllocGlobal + Wait, K: SavedKey<V>, V: Drop>(
    rt: &R,
    path: &str,
) -> Result<TrieMap<K, V>, LoadFault> {
    let mut reader = open(rt, path).map_err(LoadFault::of_reader)?;
    load(rt, &mut reader)
}

/// A writer to the file.
fn create<R: Files + AllocGlobal>(rt: &R, path: &str) -> io::Result<BufWriter<R::File>> {
    BufWriter::new(rt.alloc(), File::create(rt, path)?)
}

/// A reader of the file.
fn open<R: Files + AllocGlobal>(rt: &R, path: &str) -> io::Result<BufReader<R::File>> {
    BufReader::new(rt.alloc(), File::open(rt, path)?)
}
