//! A view written as lines of JSON.
use crate::fault::SaveFault;
use crate::line::SavedKey;
use std::alloc::Global;
use std::io::Write;
use tambyulo::View;

/// Writes each pair of the view as a line. No lock is held: other threads go on writing the map.
///
/// # Errors
///
/// A key is no text, the writer failed, or memory for a line was refused. Then some lines may have been written.
pub fn save<K: SavedKey<V>, V: Drop, W: Write>(
    alloc: Global,
    view: &View<K, V>,
    writer: &mut W,
) -> Result<(), SaveFault> {
    for (key, value) in view.iter() {
        let line = key.line(alloc, value)?;
        write_line(line.as_str(), writer)?;
    }
    writer.flush().map_err(SaveFault::of_writer)
}

/// Writes one line and its newline.
fn write_line<W: Write>(line: &str, writer: &mut W) -> Result<(), SaveFault> {
    writeln!(writer, "{line}").map_err(SaveFault::of_writer)
}
