//! A value that is made where there is none.
use super::assert_steps;
use test_clients::{A, B, LARGEST, Outcome};
use test_journals::Step;
use test_journals::Step::{Ask, Files, GetOrStore};
use test_machine::Do::{Get, Put, PutIfAbsent};
use test_machine::Request::{On, Open};
use versions::Refusal;

const NO_HANDLE: Outcome = Outcome::Refused(Refusal::NoHandle);

// A key that is there, one that is absent, and one of a handle that is not live are got, or the value 7 is stored.
const GOT: [Step; 9] = [
    Ask(0, Open(1), Outcome::Unit),
    Ask(0, On(1, Put(A, 9)), Outcome::Old(None)),
    GetOrStore(0, 1, A, 7, Outcome::Got(false, 9)),
    Files(0, On(1, Get(A)), Outcome::Old(Some(9))),
    GetOrStore(0, 1, B, 7, Outcome::Got(true, 7)),
    Files(0, On(1, Get(B)), Outcome::Old(None)),
    Files(0, On(1, PutIfAbsent(B, 7)), Outcome::Old(None)),
    GetOrStore(0, 2, A, 7, Outcome::NotGot(false, Refusal::NoHandle)),
    Files(0, On(2, Get(A)), NO_HANDLE),
];

#[test]
fn a_value_is_made_only_for_an_absent_key(rt: HostRuntime) {
    assert_steps(&rt, 1, LARGEST, &GOT);
}
