//! Bulk calls, whose answer a crew works with no lock held.
ghost use Rattle.std.specs.Prelude.{◌≤◌, IfOk};
ghost use Rattle.locked_map.specs.Bulks.{AddsBulk};

use crate::seat::Seat;
use crate::shared_map::SharedMap;
use crate::ticket::Ticket;
use bulk_work::{Answer, Asks};
use hash_path::PathKey;
use journal::JournalName;
use std::alloc::Global;
use std::sync::{Arc, Wait};
use std::thread::Threads;
use task_pool::{Crew, Gate, MOST_GRAIN, MOST_WORKERS, run_crew};
use versions::{NoMemory, Refusal};

impl<K, V, Q, J> SharedMap<K, V, Q, J>
where
    K: PathKey + Drop + Send + Sync,
    V: Eq + Drop + Send + Sync,
    Q: Asks<K, V> + Drop + Sync,
    Q::Part: Send,
    J: JournalName,
{
    /// The answer of the query for the handle's map as it stands now.
    ///
    /// It is a freeze and a finish of its job, each an entry of its own. Between the two a crew works the map that was
    /// frozen, and asks the gate before each piece. No lock is held meanwhile: other seats go on, and what they write
    /// does not change the answer.
    ///
    /// Cost: O(n), shared out, under the lock of the table for the freeze and the finish alone. Refused: as `freeze`,
    /// with no ticket; later `NoMemory`, where the crew or the finish finds no memory, or `NoJob`, where the job is
    /// closed already.
    ///
    /// Where it is refused later, the ticket of the job comes back, and the freeze alone stands in the journal. The job
    /// is open after `NoMemory`: `finish` closes it by a part of the ticket's view, which `bulk_work::work` makes, and
    /// `abandon` closes it without an answer. The contract allows `NoMemory` whatever memory there is. Tests show that
    /// it is returned only if memory runs out.
    pub fn bulk<G: Gate + Sync, R: Threads + Wait + Sync>(
        &self,
        rt: &R,
        seat: &mut Seat<K, V, Q, J>,
        handle: u32,
        query: Arc<Q>,
        crew: Crew,
        gate: &G,
    ) -> Result<Answer<K, V, Q::Item>, (Refusal, Option<Ticket<K, V, Q, J>>)>
        requires least_workers { 1 ≤ crew.workers }
        requires most_workers { crew.workers ≤ MOST_WORKERS }
        requires least_grain { 1 ≤ crew.grain }
        requires most_grain { crew.grain ≤ MOST_GRAIN }
        requires ready { Q.ready query.value }
        ensures { AddsBulk Q.answers Q.answer_of handle query.value seat.old result seat.new }
    {
        let ticket = match self.freeze(rt, seat, handle, query) {
            Ok(ticket) => ticket,
            Err(refusal) => return Err((refusal, None)),
        };
        let part = match frozen_part(rt, self.alloc, &ticket, crew, gate) {
            Ok(part) => part,
            Err(NoMemory) => return Err((Refusal::NoMemory, Some(ticket))),
        };
        match self.finish(rt, seat, ticket, part) {
            Ok(answer) => Ok(answer),
            Err((refusal, ticket, part)) => {
                drop(part);
                Err((refusal, Some(ticket)))
            }
        }
    }
}

// The part of the whole map that was frozen.
fn frozen_part<K, V, Q, J, G, R>(
    rt: &R,
    alloc: Global,
    ticket: &Ticket<K, V, Q, J>,
    crew: Crew,
    gate: &G,
) -> Result<Q::Part, NoMemory>
where
    K: PathKey + Drop + Send + Sync,
    V: Drop + Send + Sync,
    Q: Asks<K, V> + Sync,
    Q::Part: Send,
    J: JournalName,
    G: Gate + Sync,
    R: Threads + Wait + Sync,
    requires least_workers { 1 ≤ crew.workers }
    requires most_workers { crew.workers ≤ MOST_WORKERS }
    requires least_grain { 1 ≤ crew.grain }
    requires most_grain { crew.grain ≤ MOST_GRAIN }
    requires ready { Q.ready ticket.now.query }
    ensures { IfOk result (λ part. Q.answers ticket.now.query ticket.now.frozen part) }
{
    let report = run_crew(rt, alloc, ticket.view(), &**ticket.query(), crew, gate)?;
    Ok(report.part)
}
