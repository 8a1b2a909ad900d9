//! The calls of a table as values.
ghost use Rattle.handles.specs.Views.{IsPathOf};

use hash_path::{Path, PathKey};
use held_maps::Command;

/// A call of a table.
///
/// <!-- quoted from crates/example_meeting/src/meeting.rt -->
/// ```rust
/// map.call(rt, first, Call::Open(SHARED))?;
/// map.call(rt, first, Call::On(SHARED, Command::Put(key, value)))?;
/// ```
#[derive(Debug, Drop)]
pub enum Call<K, V> {
    /// Opens the handle, with no pairs.
    Open(u32),
    /// Opens the second handle, with the pairs of the first.
    Snapshot(u32, u32),
    /// Closes the handle.
    Drop(u32),
    /// Makes the command on the handle.
    On(u32, Command<K, V>),
}

impl<K: PathKey + Drop, V: Eq + Drop> Call<K, V> {
    /// The path word of the key that the call names, which is hashed here; of a call that names none, some word.
    ///
    /// Cost: O(length of the key), no lock. Refused: never.
    pub fn path(&self) -> Path
        ensures { IsPathOf K.path_of self.now result.0 }
    {
        match self {
            Call::On(_, command) => command.path(),
            Call::Open(_) | Call::Snapshot(_, _) | Call::Drop(_) => Path(0),
        }
    }
}
