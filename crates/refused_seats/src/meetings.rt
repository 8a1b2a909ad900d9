//! The meeting of two seats.
ghost use Rattle.std.specs.Prelude.{◌≡◌};
ghost use Rattle.locked_map.specs.Seats.{met};

use bulk_work::Asks;
use hash_path::PathKey;
use journal::JournalName;
use locked_map::Seat;

/// Has the seat go on behind all that both have done.
pub fn meet<K: PathKey + Drop, V: Drop, Q: Asks<K, V> + Drop, J: JournalName>(
    seat: &mut Seat<K, V, Q, J>,
    other: &mut Seat<K, V, Q, J>,
)
    ensures { seat.new ≡ met seat.old other.old }
{
    seat.meet(other);
}
