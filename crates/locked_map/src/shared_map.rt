//! The map that seats share.
ghost use Rattle.std.specs.Prelude.{◌≡◌, ◌<◌, ◌≤◌, ◌⊎◌, ℕ, All, IfErr, IfOk, None, Some, slice_index_or, true, vec_len};
ghost use Rattle.bulk_work.specs.Answers as plain;
ghost use Rattle.bulk_work.specs.Summaries.{summary_of};
ghost use Rattle.handles.specs.Machine.{abandon, finish, freeze, job_at, room, view};
ghost use Rattle.handles.specs.Views.{call_outcome, finished_outcome, machine, request_of, unit_outcome, view_outcome};
ghost use Rattle.journal.specs.Answers.{answered, answered_or};
ghost use Rattle.locked_map.specs.Getting.{MayReturn};
ghost use Rattle.journal.specs.Journals.{IsLegal, own};
ghost use Rattle.locked_map.specs.Seats.{AboveFloors, Adds, pairs};
ghost use Rattle.locked_map.specs.Tickets.{ticket_outcome};

mod get_or_else;

use crate::closed::{Closed, Torn};
use crate::closing::{are_all, are_borne_out, are_of_seats};
use crate::seat::Seat;
use crate::ticket::Ticket;
use bulk_work::{Answer, Asks};
use filed_entries::file;
use handles::{Call, CallReply, Limits, MOST_ENTRIES};
use hash_path::PathKey;
use journal::{Caller, Entries, Journal, JournalName, JournaledTable};
use std::alloc::Global;
use std::marker::PhantomData;
use std::sync::{Arc, Mutex, Wait};
use versions::{MOST_PAIRS, NoMemory, Refusal, View};

/// A table of maps under one lock, with its journal, that seats share by reference.
///
/// <!-- quoted from crates/example_index/src/indexer.rt -->
/// ```rust
/// let put = Command::PutIfAbsent(word, Arc::new(alloc, document)?);
/// let reply = map.call(rt, seat, Call::On(INDEX, put))?;
/// ```
///
/// Each call takes a seat. It waits for the lock, makes one step of the machine and one entry of the journal, and adds
/// that entry to the seat's list. A call that is refused as `JournalFull`, `NoJob` or `NoMemory` makes no entry. Only
/// `finish`, `abandon` and `bulk` are refused as `NoJob`; `finish` and `abandon` are never refused as `JournalFull`.
///
/// # What runs under the lock
///
/// `K::cmp`, `K::path`, `V::eq`, the drops of keys and values that a call replaces, removes or does not write, and at a
/// finish the operation of a fold. They must not call the map: the thread would wait for itself. A whole map that a
/// call drops or clears is freed once the lock is released.
#[derive(Drop)]
pub struct SharedMap<K: PathKey, V: Eq, Q: Asks<K, V>, J: JournalName> {
    pub(crate) alloc: Global,
    entries: Entries<K, V, Q, Q::Item>,
    table: Mutex<JournaledTable<K, V, Q, J>>,
    pub ghost named: { entries ≡ J.table },
}

impl<K: PathKey + Drop, V: Eq + Drop, Q: Asks<K, V> + Drop, J: JournalName> SharedMap<K, V, Q, J> {
    /// A map with no handles, over the vector that the name is of.
    pub(crate) fn new(
        alloc: Global,
        entries: Entries<K, V, Q, Q::Item>,
        limits: Limits,
    ) -> Result<SharedMap<K, V, Q, J>, NoMemory>
        requires table { entries ≡ J.table }
        requires least_pairs { 1 ≤ limits.pairs }
        requires most_pairs { limits.pairs ≤ MOST_PAIRS }
        requires least_entries { 2 ≤ limits.entries }
        requires most_entries { limits.entries ≤ MOST_ENTRIES }
    {
        Ok(SharedMap {
            alloc,
            entries,
            table: Mutex::new(JournaledTable::new(alloc, limits)?),
        })
    }

    /// Makes the call. The map that it drops or clears is freed once the lock is released.
    ///
    /// Cost: O(log n) for n pairs of the handle's map, under the lock of the table. Refused: as `Table::serve`.
    pub fn call<R: Wait>(
        &self,
        rt: &R,
        seat: &mut Seat<K, V, Q, J>,
        call: Call<K, V>,
    ) -> Result<CallReply<V>, Refusal>
        ensures adds { Adds seat.old (request_of call) (answered call_outcome result) seat.new }
        ensures told { IfOk result (λ reply. MayReturn (machine K.cmp V.eq Q.target_of Q.answered) (request_of call) (call_outcome reply)) }
    {
        let caller = Caller::new(seat.number, &mut seat.list);
        let mut table = self.table.lock(rt);
        let let_go = table.discarded_map(&call);
        let made = table.call(rt, self.alloc, &self.entries, caller, call);
        drop(table);
        // The nodes of a map that is dropped or cleared are freed here, with no lock held.
        drop(let_go);
        match made {
            Ok(event) => file(&mut seat.list, &mut seat.floor, event),
            Err(refusal) => {
                seat.mark(refusal, None);
                Err(refusal)
            }
        }
    }

    /// Shows the map of the handle, which no later call changes. The view is read with no lock.
    ///
    /// Cost: O(1), under the lock of the table. Refused: as `Table::view`.
    pub fn view<R: Wait>(
        &self,
        rt: &R,
        seat: &mut Seat<K, V, Q, J>,
        handle: u32,
    ) -> Result<View<K, V>, Refusal>
        ensures { Adds seat.old (view handle) (answered view_outcome result) seat.new }
    {
        let caller = Caller::new(seat.number, &mut seat.list);
        let made = self.table.lock(rt).view(rt, &self.entries, caller, handle);
        match made {
            Ok(event) => file(&mut seat.list, &mut seat.floor, event),
            Err(refusal) => {
                seat.mark(refusal, None);
                Err(refusal)
            }
        }
    }

    /// Opens a job with the query on the handle's map as it stands now. The ticket has that map.
    ///
    /// Cost: O(1), under the lock of the table. Refused: as `Table::freeze`.
    pub fn freeze<R: Wait>(
        &self,
        rt: &R,
        seat: &mut Seat<K, V, Q, J>,
        handle: u32,
        query: Arc<Q>,
    ) -> Result<Ticket<K, V, Q, J>, Refusal>
        ensures adds { Adds seat.old (freeze handle query.value) (answered ticket_outcome result) seat.new }
        ensures query { IfOk result (λ ticket. ticket.query ≡ query.value) }
    {
        let kept = Arc::try_clone(&query)?;
        let caller = Caller::new(seat.number, &mut seat.list);
        let made = self
            .table
            .lock(rt)
            .freeze(rt, &self.entries, caller, handle, query);
        match made {
            Ok((event, opener)) => {
                let answer = file(&mut seat.list, &mut seat.floor, event);
                match answer {
                    Ok((job, view)) => Ok(Ticket {
                        job,
                        query: kept,
                        view,
                        token: opener,
                        room: PhantomData,
                    }),
                    Err(refusal) => {
                        drop((kept, opener));
                        Err(refusal)
                    }
                }
            }
            Err(refusal) => {
                drop(kept);
                seat.mark(refusal, None);
                Err(refusal)
            }
        }
    }

    /// Closes the ticket's job without an answer. Its target, if it has one, stays not live.
    ///
    /// Cost: O(1), under the lock of the table. Refused: `NoJob`, where the job is closed already; `NoMemory`, if
    /// memory runs out. The ticket is handed back then.
    pub fn abandon<R: Wait>(
        &self,
        rt: &R,
        seat: &mut Seat<K, V, Q, J>,
        ticket: Ticket<K, V, Q, J>,
    ) -> Result<(), (Refusal, Ticket<K, V, Q, J>)>
        ensures adds { Adds seat.old (abandon ticket.job) (answered_or unit_outcome (λ e. e.0) result) seat.new }
        ensures ticket { IfErr result (λ e. e.1 ≡ ticket) }
        ensures why { IfErr result (λ e. (e.0 ≡ Refusal.NoJob) ⊎ (e.0 ≡ Refusal.NoMemory)) }
    {
        let caller = Caller::new(seat.number, &mut seat.list);
        let made = self
            .table
            .lock(rt)
            .abandon(rt, &self.entries, caller, ticket.job, &ticket.token);
        match made {
            Ok(event) => {
                drop(ticket);
                file(&mut seat.list, &mut seat.floor, event);
                Ok(())
            }
            Err(refusal) => {
                seat.mark(refusal, Some(ticket.job));
                Err((refusal, ticket))
            }
        }
    }

    /// Closes the ticket's job by the part's answer, and opens its target, if it has one, with the map that the part
    /// made. The part has to answer the ticket's query for its view.
    ///
    /// Cost: O(1), under the lock of the table, where `conclude` and `tell` of the query run. Refused: `NoJob`, where
    /// the job is closed already; `NoMemory`, if memory runs out. The ticket and the part are handed back then.
    pub fn finish<R: Wait>(
        &self,
        rt: &R,
        seat: &mut Seat<K, V, Q, J>,
        ticket: Ticket<K, V, Q, J>,
        part: Q::Part,
    ) -> Result<Answer<K, V, Q::Item>, (Refusal, Ticket<K, V, Q, J>, Q::Part)>
        requires { Q.answers ticket.query ticket.frozen part }
        ensures adds { Adds seat.old (finish ticket.job) (answered_or finished_outcome (λ e. e.0) result) seat.new }
        ensures told { IfOk result (λ answer. summary_of answer ≡ plain.summary (Q.answer_of part)) }
        ensures ticket { IfErr result (λ e. e.1 ≡ ticket) }
        ensures part { IfErr result (λ e. e.2 ≡ part) }
        ensures why { IfErr result (λ e. (e.0 ≡ Refusal.NoJob) ⊎ (e.0 ≡ Refusal.NoMemory)) }
    {
        let caller = Caller::new(seat.number, &mut seat.list);
        let made = self
            .table
            .lock(rt)
            .finish(rt, &self.entries, caller, ticket.job, &ticket.token, part);
        match made {
            Ok(event) => {
                drop(ticket);
                Ok(file(&mut seat.list, &mut seat.floor, event))
            }
            Err((refusal, part)) => {
                seat.mark(refusal, Some(ticket.job));
                Err((refusal, ticket, part))
            }
        }
    }

    /// Ends the map, where each seat's list is what the journal has of the seat, and its marks hold.
    ///
    /// The contract says what holds where the map was closed. That it is closed where all of the following hold, and
    /// that a run in which every seat is handed back comes to that, tests show.
    ///
    /// Cost: O(s e) for s seats and e entries of the journal, no lock. Refused: `Torn`, where one of these does not
    /// hold:
    ///
    /// - the seats are all those of the map, in the order of their numbers;
    /// - each entry of a seat is the journal's at its place, and does not stand below the floor beside it;
    /// - each entry that was placed is a seat's, but for as many as calls that were refused as `NoMemory` can have
    ///   left;
    /// - a seat that was refused as `JournalFull` finds the journal full, and one that was refused as `NoJob` the job
    ///   closed.
    pub fn close(self, seats: Vec<Seat<K, V, Q, J>>) -> Result<Closed<K, V, Q>, Torn>
        ensures legal { IfOk result (λ c. IsLegal (machine K.cmp V.eq Q.target_of Q.answered) c.table.limits c.journal c.table) }
        ensures seats { IfOk result (λ c. All (λ e. e.seat < vec_len seats) c.journal) }
        ensures own { IfOk result (λ c. (k : ℕ) (s : _) → k < vec_len seats → own k 0 c.journal ≡ pairs (slice_index_or seats.items k s).list) }
        ensures floors { IfOk result (λ _. (k : ℕ) (s : _) → k < vec_len seats → AboveFloors (slice_index_or seats.items k s).list) }
        ensures full { IfOk result (λ c. (k : ℕ) (s : _) → k < vec_len seats → (slice_index_or seats.items k s).full ≡ true → room c.table < 2) }
        ensures unknown { IfOk result (λ c. (k : ℕ) (s : _) → k < vec_len seats → (j : ℕ) → (slice_index_or seats.items k s).unknown ≡ Some j → job_at c.table j ≡ None) }
    {
        let SharedMap {
            alloc: _,
            entries,
            table,
        } = self;
        let (table, tokens) = table.into_inner().into_parts();
        if !are_borne_out(&entries, &tokens, &table, &seats) {
            drop((entries, tokens, table, seats));
            return Err(Torn);
        }
        if !are_of_seats(&entries, &tokens, seats.len()) || !are_all(&entries, &tokens, &seats) {
            drop((entries, tokens, table, seats));
            return Err(Torn);
        }
        drop(seats);
        Ok(Closed {
            table,
            journal: Journal::new(entries, tokens),
        })
    }
}
