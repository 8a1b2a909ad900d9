//! A client that makes its calls.
ghost use Rattle.std.specs.Prelude.{◌≡◌};
ghost use Rattle.std.specs.Thread.{IsSync};
ghost use Rattle.locked_map.specs.Seats.{fresh};

use bulk_work::Asks;
use hash_path::PathKey;
use journal::JournalName;
use locked_map::{Client, Seat, SharedMap};
use std::alloc::Global;
use std::sync::Wait;
use std::thread::Threads;

/// Has the client make its calls on the seat.
pub fn run<K, V, Q, J, C, R>(
    rt: &R,
    alloc: Global,
    map: &SharedMap<K, V, Q, J>,
    client: C,
    seat: &mut Seat<K, V, Q, J>,
) -> C::Out
where
    K: PathKey + Drop,
    V: Eq + Drop,
    Q: Asks<K, V> + Drop,
    J: JournalName,
    C: Client<K, V, Q>,
    C::Out: Drop,
    R: Threads + Wait + Sync,
    requires sync { IsSync R.row }
    requires needs { C.needs client }
    requires fresh { seat.old ≡ fresh seat.old.number }
    ensures { C.gives client seat.new result }
{
    client.run(rt, alloc, map, seat)
}
