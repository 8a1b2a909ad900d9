//! Tickets of open jobs.
ghost use Rattle.std.specs.Prelude.{◌≡◌};
ghost use Rattle.locked_map.specs.Tickets.{Ticketed};

use bulk_work::Asks;
use hash_path::PathKey;
use journal::{JournalName, Token};
use std::marker::{Model, PhantomData};
use std::sync::Arc;
use versions::View;

/// A ticket of a job that a freeze opened: by it the job is finished or abandoned.
///
/// <!-- quoted from crates/locked_map/src/bulk.rt -->
/// ```rust
/// match self.finish(rt, seat, ticket, part) {
///     Ok(answer) => Ok(answer),
///     Err((refusal, ticket, part)) => {
///         drop(part);
///         Err((refusal, Some(ticket)))
///     }
/// }
/// ```
///
/// Its view, its query and its number are those of the freeze's entry, whose token it has. A ticket that is dropped
/// leaves its job open.
#[derive(Drop)]
pub struct Ticket<K: PathKey, V, Q: Asks<K, V>, J: JournalName> {
    pub(crate) job: u64,
    pub(crate) query: Arc<Q>,
    pub(crate) view: View<K, V>,
    pub(crate) token: Token<K, V, Q, Q::Item>,
    pub(crate) room: PhantomData<J>,
}

impl<K: PathKey, V, Q: Asks<K, V>, J: JournalName> Model for Ticket<K, V, Q, J> {
    ghost use Rattle.std.specs.Arc.{arc_value};
    ghost use Rattle.locked_map.specs.Tickets.{IsTicket, Ticketed};

    ghost Value = { Ticketed K V Q };

    ghost view = { λ t. record { job = t.job; query = arc_value t.query; frozen = t.view } };

    ghost invariant = { λ t. IsTicket J.table t.job (arc_value t.query) t.view t.token };
}

impl<K: PathKey, V, Q: Asks<K, V>, J: JournalName> Ticket<K, V, Q, J> {
    /// The number of the job.
    ///
    /// Cost: O(1), no lock. Refused: never.
    pub fn job(&self) -> u64
        ensures { result ≡ self.now.job }
    {
        self.job
    }

    /// The query of the job.
    ///
    /// Cost: O(1), no lock. Refused: never.
    pub fn query(&self) -> &Arc<Q>
        ensures { result.now.value ≡ self.now.query }
    {
        &self.query
    }

    /// The map that the freeze recorded. It is read with no lock.
    ///
    /// Cost: O(1), no lock. Refused: never.
    pub fn view(&self) -> &View<K, V>
        ensures { result.now ≡ self.now.frozen }
    {
        &self.view
    }
}
