//! Calls that are made as they were foreseen, with every request for memory refused.

use super::{assert_is, no_memory, step, with_four};
use std::alloc::Global;
use std::panic::Expect;
use std::process::Abort;
use test_tables::{Act, Asking, Do, PlainOutcome, take_foreseen};
use versions::Refusal;

// The entries, and of the live handles' versions how many there are, their pairs and the sum of their stamps.
fn state_of(table: &Asking) -> (u32, u64, u64, u64) {
    let (mut live, mut pairs, mut stamps) = (0u64, 0u64, 0u64);
    for version in table.places().iter().flatten() {
        live = live.wrapping_add(1);
        pairs = pairs.wrapping_add(version.len());
        stamps = stamps.wrapping_add(version.stamp().0);
    }
    (table.entries(), live, pairs, stamps)
}

// What leaves a map of the key 97 with the value 4: a get, a size, and writes whose condition does not hold.
const LEAVING: [(Act, PlainOutcome); 6] = [
    (Act::Get(97), PlainOutcome::Old(Some(4))),
    (Act::Size, PlainOutcome::Size(1)),
    (Act::PutIfAbsent(97, 5), PlainOutcome::Old(Some(4))),
    (Act::Replace(98, 5), PlainOutcome::Old(None)),
    (Act::ReplaceIf(97, 5, 5), PlainOutcome::Done(false)),
    (Act::RemoveIf(97, 5), PlainOutcome::Done(false)),
];

// The call has this outcome with every request for memory refused, and gives none back.
fn assert_served(rt: &impl Abort, alloc: Global, table: &mut Asking, what: Do, want: PlainOutcome) {
    let step = step(rt, alloc, what);
    let taken = no_memory(rt, alloc);
    let outcome = take_foreseen(alloc, table, &step);
    drop(taken);
    assert_is(rt, outcome, want);
}

#[test]
fn what_leaves_the_maps_makes_no_request(rt: HostRuntime) {
    let mut table = with_four(&rt, rt.alloc());
    // a view shares the nodes, so that each write has to copy some
    let view = table.view(1).expect(&rt, "no view");
    let (made, live, pairs, stamps) = state_of(&table);
    let no_memory = PlainOutcome::Refused(Refusal::NoMemory);
    let new = Do::On(1, Act::Put(98, 5));
    assert_served(&rt, rt.alloc(), &mut table, new, no_memory);
    for (act, want) in LEAVING {
        let on_none = PlainOutcome::Refused(Refusal::NoHandle);
        assert_served(&rt, rt.alloc(), &mut table, Do::On(1, act), want);
        assert_served(&rt, rt.alloc(), &mut table, Do::On(7, act), on_none);
    }
    let after = (made.wrapping_add(12), live, pairs, stamps);
    assert_is(&rt, state_of(&table), after);
    assert_is(&rt, view.len(), 1);
}
