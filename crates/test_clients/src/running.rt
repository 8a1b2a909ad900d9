//! Clients that run over one map, each on a thread of its own.
ghost use Rattle.std.specs.Prelude.{⊤};
ghost use Rattle.std.specs.Thread.{IsSync};

use crate::any_map::{AnyMap, Lent};
use crate::questions::Query;
use locked_map::{Client, JournalName, Seat, SharedMap};
use std::alloc::Global;
use std::sync::Wait;
use std::thread::Threads;
use test_keys::ChosenKey;

/// What a client of the tests does with the map that it is handed, whichever it is.
pub trait Plays {
    /// What it comes to.
    type Out;

    /// Makes its calls on its seat.
    fn play<M: AnyMap, R: Threads + Wait + Sync>(
        self,
        rt: &R,
        alloc: Global,
        map: &M,
        seat: &mut M::Seat,
    ) -> Self::Out
        requires sync { IsSync R.row };
}

/// What does so, as a client of a shared map.
#[derive(Drop)]
pub struct Playing<P>(pub P);

impl<P: Plays> Client<ChosenKey, u64, Query> for Playing<P> {
    type Out = P::Out;

    ghost needs = { λ _. ⊤ };

    ghost gives = { λ _ _ _. ⊤ };

    fn run<J: JournalName, R: Threads + Wait + Sync>(
        self,
        rt: &R,
        alloc: Global,
        map: &SharedMap<ChosenKey, u64, Query, J>,
        seat: &mut Seat<ChosenKey, u64, Query, J>,
    ) -> P::Out {
        let Playing(client) = self;
        client.play(rt, alloc, &Lent(map), seat)
    }
}
