//! Two clients, each on a thread of its own.
use super::assert_is;
use super::running::run_clients;
use std::alloc::Global;
use std::process::Abort;
use std::sync::Wait;
use std::thread::Threads;
use test_clients::{
    A, AnyMap, Deed, Entered, Exchange, LARGEST, Outcome, Playing, Plays, TestClosed, act, value_at,
};
use test_journals::replayed;
use test_machine::Do::{Put, PutIfAbsent};
use test_machine::Request;
use test_machine::Request::{On, Open};
use versions::Refusal;

// How often two clients run.
const TIMES: u32 = 300;

// A client that opens handle 1, and does something then. It comes to the outcomes of both.
#[derive(Drop)]
struct Opener {
    then: Deed,
}

impl Plays for Opener {
    type Out = (Outcome, Outcome);

    fn play<M: AnyMap, R: Threads + Wait + Sync>(
        self,
        rt: &R,
        alloc: Global,
        map: &M,
        seat: &mut M::Seat,
    ) -> (Outcome, Outcome) {
        let mut tickets = Vec::new(alloc);
        let opened = act(rt, alloc, map, seat, &mut tickets, FIRST);
        let then = act(rt, alloc, map, seat, &mut tickets, self.then);
        (opened, then)
    }
}

const FIRST: Deed = Deed::Ask(Open(1));

// The outcomes of the first and of the second client.
type Two = ((Outcome, Outcome), (Outcome, Outcome));

// Two such clients, each with what it does then: their outcomes, and what is left of the map.
fn run_two<R: AllocGlobal + Abort + Threads + Wait + Sync>(
    rt: &R,
    first: Deed,
    second: Deed,
) -> (Two, TestClosed) {
    let mut clients = Vec::new(rt.alloc());
    for then in [first, second] {
        clients.push(Playing(Opener { then })).expect(rt, "no room");
    }
    let (outs, closed) = run_clients(rt, LARGEST, clients);
    let one = outs.first().copied().expect(rt, "no first client");
    let two = outs.get(1).copied().expect(rt, "no second client");
    ((one, two), closed)
}

// One of them opened the handle.
fn assert_opened(rt: &impl Abort, returned: Two) {
    let taken = Outcome::Refused(Refusal::Taken);
    let (one, two) = returned;
    let opened = (one.0, two.0);
    assert!(rt; opened == (Outcome::Unit, taken) || opened == (taken, Outcome::Unit));
}

const PUT_ONE: Request = On(1, Put(A, 1));

const ADD_TWO: Request = On(1, PutIfAbsent(A, 2));

// One put was the first.
fn assert_put(rt: &impl Abort, returned: Two) {
    let none = Outcome::Old(None);
    let (one, two) = returned;
    let put = (one.1, two.1);
    assert!(rt; put == (none, Outcome::Old(Some(1))) || put == (Outcome::Old(Some(2)), none));
}

// The seat has these two entries, in order.
fn assert_filed(rt: &impl Abort, entries: &[Entered], seat: u32, wanted: [Exchange; 2]) {
    let mut rest = wanted.iter();
    for entry in entries {
        if entry.seat == seat {
            let exchange = rest.next().copied();
            assert_is(rt, Some((entry.request, entry.outcome)), exchange);
        }
    }
    assert_is(rt, rest.next().copied(), None);
}

// The journal has the outcomes of both, and nothing else.
fn assert_journal(rt: &impl Abort, alloc: Global, closed: &TestClosed, returned: Two) {
    let entries = replayed(alloc, LARGEST, closed).expect(rt, "another table");
    assert_is(rt, entries.len(), 4);
    let (one, two) = returned;
    assert_filed(rt, &entries, 0, [(Open(1), one.0), (PUT_ONE, one.1)]);
    assert_filed(rt, &entries, 1, [(Open(1), two.0), (ADD_TWO, two.1)]);
}

// Both open the handle. Then one puts a value, and the other one puts another if there is none.
#[test]
fn two_clients_open_one_handle_and_put_one_key(rt: HostRuntime) {
    for _ in 0..TIMES {
        let (returned, closed) = run_two(&rt, Deed::Ask(PUT_ONE), Deed::Ask(ADD_TWO));
        assert_opened(&rt, returned);
        assert_put(&rt, returned);
        assert_journal(&rt, rt.alloc(), &closed, returned);
    }
}

// What was got.
fn value_in(returned: Outcome) -> Option<u64> {
    match returned {
        Outcome::Got(_, value) => Some(value),
        _ => None,
    }
}

// Both get the value of one key, or store 1 or 2: they get the same, which is the one that the map has then.
#[test]
fn two_clients_get_the_same_value(rt: HostRuntime) {
    for _ in 0..TIMES {
        let (first, second) = (Deed::GetOrStore(1, A, 1), Deed::GetOrStore(1, A, 2));
        let ((one, two), closed) = run_two(&rt, first, second);
        let stored = value_at(closed.table.places(), 1, A);
        assert!(rt; stored == Some(1) || stored == Some(2));
        assert_is(&rt, (value_in(one.1), value_in(two.1)), (stored, stored));
    }
}
