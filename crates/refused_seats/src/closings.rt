//! The end of a map.
ghost use Rattle.std.specs.Prelude.{◌≡◌, ◌<◌, ℕ, IfOk, slice_index_or, vec_len};
ghost use Rattle.journal.specs.Journals.{own};
ghost use Rattle.locked_map.specs.Seats.{pairs};

use bulk_work::Asks;
use hash_path::PathKey;
use journal::JournalName;
use locked_map::{Closed, Seat, SharedMap, Torn};

/// Ends the map, where each seat's list is what the journal has of the seat.
pub fn close<K: PathKey + Drop, V: Eq + Drop, Q: Asks<K, V> + Drop, J: JournalName>(
    map: SharedMap<K, V, Q, J>,
    seats: Vec<Seat<K, V, Q, J>>,
) -> Result<Closed<K, V, Q>, Torn>
    ensures { IfOk result (λ c. (k : ℕ) (s : _) → k < vec_len seats → own k 0 c.journal ≡ pairs (slice_index_or seats.items k s).list) }
{
    map.close(seats)
}
