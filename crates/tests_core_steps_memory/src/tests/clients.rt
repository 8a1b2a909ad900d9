//! A client of a core, by hand: a count of all pairs of handle 1, which another client clears and drops while two
//! workers work the count.
ghost use Rattle.bulk_ops.specs.Queries.{IsReady};
ghost use Rattle.core_steps.specs.Steps.{CanAsk, asked_by};
ghost use Rattle.tests_core_steps_memory.specs.Clients.{AsksSize};

use super::{LARGEST, assert_is};
use crate::client::size_and_count;
use bulk_ops::{NoImages, PairFn, Query, Stored};
use bulk_work::Asks;
use combiner::Sum;
use core_steps::{Core, Step};
use handles::{Call, Command};
use std::alloc::Global;
use std::panic::Expect;
use std::process::Abort;
use std::sync::Arc;
use test_keys::ChosenKey;
use test_queries::{Values, Zero};

/// Every pair passes.
#[derive(Drop)]
struct Every;

impl PairFn<ChosenKey, u64, bool> for Every {
    ghost use Rattle.std.specs.Prelude.{◌≡◌, true};

    ghost can = { λ t. Unit {0} };

    ghost gives = { λ t k v r. r ≡ true };

    fn answer(&self, _key: &ChosenKey, _value: &u64) -> bool {
        true
    }
}

/// A query of this client.
type Sizes = Query<ChosenKey, u64, Every, Zero, Sum, Values, NoImages>;

// The query that counts all pairs.
fn count_of_all() -> Sizes
    ensures ready { IsReady result }
    ensures asks { AsksSize ⟦<Sizes as Asks<ChosenKey, u64>>⟧.answered result }
{
    Query::Count(Stored::new(Every))
}

// The same, as a job shares it.
fn shared_count(rt: &impl Abort, alloc: Global) -> Arc<Sizes>
    ensures ready { IsReady result.value }
    ensures asks { AsksSize ⟦<Sizes as Asks<ChosenKey, u64>>⟧.answered result.value }
{
    Arc::new(alloc, count_of_all()).expect(rt, "no query")
}

/// A core of this client, and its steps.
type ClientCore = Core<ChosenKey, u64, Sizes>;

type ClientStep = Step<ChosenKey, u64, Sizes>;

// Makes the step.
fn make(rt: &impl Abort, alloc: Global, core: &mut ClientCore, step: ClientStep)
    requires { CanAsk IsReady (asked_by step) }
{
    core.step(alloc, step).expect(rt, "not made");
}

// Puts a value at the key of a path word, on handle 1.
fn put(rt: &impl Abort, alloc: Global, core: &mut ClientCore, path: u64, value: u64) {
    let key = Arc::new(alloc, ChosenKey { path, id: 0 }).expect(rt, "no key");
    let value = Arc::new(alloc, value).expect(rt, "no value");
    let call = Call::On(1, Command::Put(key, value));
    make(rt, alloc, core, Step::Call(call));
}

// A core with two pairs under handle 1, at the positions 0 and 12.
fn begun(rt: &impl Abort, alloc: Global) -> ClientCore {
    let mut core = ClientCore::new(alloc, LARGEST, 2, 1).expect(rt, "no core");
    make(rt, alloc, &mut core, Step::Call(Call::Open(1)));
    put(rt, alloc, &mut core, 0, 1);
    put(rt, alloc, &mut core, 0xc000_0000_0000_0000, 2);
    core
}

#[test]
fn a_count_tells_the_size_before_a_clear(rt: HostRuntime) {
    let mut core = begun(&rt, rt.alloc());
    let query = shared_count(&rt, rt.alloc());
    let steps = [
        Step::Take(0, 0),
        Step::Split(0, 0),
        Step::Call(Call::On(1, Command::Clear)),
        Step::Steal(0, 1, 0),
        Step::Work(0, 1),
        Step::Call(Call::Drop(1)),
        Step::Work(0, 0),
    ];
    let returned = size_and_count(rt.alloc(), &mut core, 1, query, &steps);
    assert_is(&rt, returned, Ok(Some((2, 2))));
}
