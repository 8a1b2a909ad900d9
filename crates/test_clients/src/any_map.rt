//! A shared map of the tests by its calls alone, without what they promise.
//!
//! What a shared map is made of is much to prove in each function that names it. So functions are written over any map,
//! and only this file, and where a client or a script is handed its map, names the shared one. It is lent in a type of its
//! own, and so are its tickets and parts: the prover compares such a type with itself in few steps.
ghost use Rattle.std.specs.Prelude.{◌≡◌, ◌≤◌, IfErr, IfOk};
ghost use Rattle.std.specs.Thread.{IsSync};

use crate::outcomes::{Outcome, Seen, outcome_of_job, seen_in};
use crate::questions::{Query, worked};
use crate::signs::TestGate;
use bulk_ops::Part;
use combiner::Bulk;
use handles::{Call, CallReply};
use locked_map::{Crew, JournalName, Seat, SharedMap, Ticket};
use std::alloc::Global;
use std::sync::{Arc, Wait};
use std::thread::Threads;
use test_keys::ChosenKey;
use versions::{NoMemory, Refusal, View};

type TestSeat<J> = Seat<ChosenKey, u64, Query, J>;

/// A shared map of the tests.
#[derive(Drop)]
pub struct Lent<'a, J: JournalName>(pub &'a SharedMap<ChosenKey, u64, Query, J>);

/// A ticket of one.
#[derive(Drop)]
pub struct TestTicket<J: JournalName>(Ticket<ChosenKey, u64, Query, J>);

/// A part of a query of the tests.
#[derive(Drop)]
pub struct TestPart(Part<ChosenKey, u64, i128>);

/// A shared map, whichever it is.
pub trait AnyMap {
    /// A seat of the map.
    type Seat: Drop;

    /// The ticket of a job that was opened on it.
    type Ticket: Drop;

    /// What answers the query of a ticket.
    type Part: Drop;

    /// Whether the part answers the ticket's query for the map that was frozen.
    ghost answers: { Self.Ticket → Self.Part → Type 0 };

    /// The two seats meet.
    fn meet(one: &mut Self::Seat, two: &mut Self::Seat);

    /// The number of the ticket's job.
    fn job(ticket: &Self::Ticket) -> u64;

    /// Makes the call.
    fn call<R: Wait>(
        &self,
        rt: &R,
        seat: &mut Self::Seat,
        call: Call<ChosenKey, u64>,
    ) -> Result<CallReply<u64>, Refusal>;

    /// Gets the key's value on the handle, or makes one and stores it.
    fn get_or_else_update<R: Wait, F: FnOnce() -> u64>(
        &self,
        rt: &R,
        seat: &mut Self::Seat,
        handle: u32,
        key: Arc<ChosenKey>,
        make: F,
    ) -> Result<Arc<u64>, Refusal>
        requires { F.pre make };

    /// Takes a view of the handle.
    fn view<R: Wait>(
        &self,
        rt: &R,
        seat: &mut Self::Seat,
        handle: u32,
    ) -> Result<View<ChosenKey, u64>, Refusal>;

    /// Opens a job on the handle's map, and gives what that map shows.
    fn freeze<R: Wait>(
        &self,
        rt: &R,
        seat: &mut Self::Seat,
        handle: u32,
        query: Arc<Query>,
    ) -> Result<(Self::Ticket, Seen), Refusal>;

    /// The part of the whole map that was frozen.
    fn work(alloc: Global, ticket: &Self::Ticket) -> Result<Self::Part, NoMemory>
        ensures { IfOk result (λ part. answers ticket.now part) };

    /// Finishes the job by the part, and returns the outcome.
    fn finish<R: Wait>(
        &self,
        rt: &R,
        seat: &mut Self::Seat,
        ticket: Self::Ticket,
        part: Self::Part,
    ) -> Result<Outcome, (Refusal, Self::Ticket, Self::Part)>
        requires { answers ticket part }
        ensures ticket { IfErr result (λ e. e.1 ≡ ticket) }
        ensures part { IfErr result (λ e. e.2 ≡ part) };

    /// Gives the job up.
    fn abandon<R: Wait>(
        &self,
        rt: &R,
        seat: &mut Self::Seat,
        ticket: Self::Ticket,
    ) -> Result<(), (Refusal, Self::Ticket)>;

    /// Has a crew answer the query, which asks the gate before each piece, and returns the outcome.
    fn bulk<R: Threads + Wait + Sync>(
        &self,
        rt: &R,
        seat: &mut Self::Seat,
        handle: u32,
        query: Arc<Query>,
        crew: Crew,
        gate: &TestGate<'_>,
    ) -> Result<Outcome, (Refusal, Option<Self::Ticket>)>
        requires sync { IsSync R.row }
        requires least_workers { 1 ≤ crew.workers }
        requires most_workers { crew.workers ≤ 16 }
        requires least_grain { 1 ≤ crew.grain }
        requires most_grain { crew.grain ≤ 65536 };
}

impl<'a, J: JournalName> AnyMap for Lent<'a, J> {
    type Seat = Seat<ChosenKey, u64, Query, J>;

    type Ticket = TestTicket<J>;

    type Part = TestPart;

    ghost answers = { λ ticket part. ⟦<Query as Bulk<ChosenKey, u64>>⟧.answers ticket.0.query ticket.0.frozen part.0 };

    fn meet(one: &mut TestSeat<J>, two: &mut TestSeat<J>) {
        one.meet(two);
    }

    fn job(ticket: &TestTicket<J>) -> u64 {
        ticket.0.job()
    }

    fn call<R: Wait>(
        &self,
        rt: &R,
        seat: &mut TestSeat<J>,
        call: Call<ChosenKey, u64>,
    ) -> Result<CallReply<u64>, Refusal> {
        self.0.call(rt, seat, call)
    }

    fn get_or_else_update<R: Wait, F: FnOnce() -> u64>(
        &self,
        rt: &R,
        seat: &mut TestSeat<J>,
        handle: u32,
        key: Arc<ChosenKey>,
        make: F,
    ) -> Result<Arc<u64>, Refusal> {
        self.0.get_or_else_update(rt, seat, handle, key, make)
    }

    fn view<R: Wait>(
        &self,
        rt: &R,
        seat: &mut TestSeat<J>,
        handle: u32,
    ) -> Result<View<ChosenKey, u64>, Refusal> {
        self.0.view(rt, seat, handle)
    }

    fn freeze<R: Wait>(
        &self,
        rt: &R,
        seat: &mut TestSeat<J>,
        handle: u32,
        query: Arc<Query>,
    ) -> Result<(TestTicket<J>, Seen), Refusal> {
        match self.0.freeze(rt, seat, handle, query) {
            Ok(ticket) => {
                let seen = seen_in(ticket.view());
                Ok((TestTicket(ticket), seen))
            }
            Err(refusal) => Err(refusal),
        }
    }

    fn work(alloc: Global, ticket: &TestTicket<J>) -> Result<TestPart, NoMemory> {
        Ok(TestPart(worked(alloc, ticket.0.view(), ticket.0.query())?))
    }

    fn finish<R: Wait>(
        &self,
        rt: &R,
        seat: &mut TestSeat<J>,
        ticket: TestTicket<J>,
        part: TestPart,
    ) -> Result<Outcome, (Refusal, TestTicket<J>, TestPart)> {
        match self.0.finish(rt, seat, ticket.0, part.0) {
            Ok(answer) => Ok(outcome_of_job(answer)),
            Err((refusal, ticket, part)) => Err((refusal, TestTicket(ticket), TestPart(part))),
        }
    }

    fn abandon<R: Wait>(
        &self,
        rt: &R,
        seat: &mut TestSeat<J>,
        ticket: TestTicket<J>,
    ) -> Result<(), (Refusal, TestTicket<J>)> {
        match self.0.abandon(rt, seat, ticket.0) {
            Ok(()) => Ok(()),
            Err((refusal, ticket)) => Err((refusal, TestTicket(ticket))),
        }
    }

    fn bulk<R: Threads + Wait + Sync>(
        &self,
        rt: &R,
        seat: &mut TestSeat<J>,
        handle: u32,
        query: Arc<Query>,
        crew: Crew,
        gate: &TestGate<'_>,
    ) -> Result<Outcome, (Refusal, Option<TestTicket<J>>)> {
        match self.0.bulk(rt, seat, handle, query, crew, gate) {
            Ok(answer) => Ok(outcome_of_job(answer)),
            Err((refusal, Some(ticket))) => Err((refusal, Some(TestTicket(ticket)))),
            Err((refusal, None)) => Err((refusal, None)),
        }
    }
}
