//! A bulk call.
ghost use Rattle.std.specs.Prelude.{◌≤◌};
ghost use Rattle.locked_map.specs.Bulks.{AddsBulk};

use bulk_work::{Answer, Asks};
use hash_path::PathKey;
use journal::JournalName;
use locked_map::{Crew, Gate, Seat, SharedMap, Ticket};
use splitter::{MOST_GRAIN, MOST_WORKERS};
use std::sync::{Arc, Wait};
use std::thread::Threads;
use versions::Refusal;

/// The answer of the query for the handle's map, or a refusal, with the ticket of a job that is open.
pub fn bulk<K, V, Q, J, G, R>(
    rt: &R,
    map: &SharedMap<K, V, Q, J>,
    seat: &mut Seat<K, V, Q, J>,
    handle: u32,
    query: Arc<Q>,
    crew: Crew,
    gate: &G,
) -> Result<Answer<K, V, Q::Item>, (Refusal, Option<Ticket<K, V, Q, J>>)>
where
    K: PathKey + Drop + Send + Sync,
    V: Eq + Drop + Send + Sync,
    Q: Asks<K, V> + Drop + Sync,
    Q::Item: Drop,
    Q::Part: Send,
    J: JournalName,
    G: Gate + Sync,
    R: Threads + Wait + Sync,
    requires least_workers { 1 ≤ crew.workers }
    requires most_workers { crew.workers ≤ MOST_WORKERS }
    requires least_grain { 1 ≤ crew.grain }
    requires most_grain { crew.grain ≤ MOST_GRAIN }
    requires ready { Q.ready query.value }
    ensures { AddsBulk Q.answers Q.answer_of handle query.value seat.old result seat.new }
{
    map.bulk(rt, seat, handle, query, crew, gate)
}
