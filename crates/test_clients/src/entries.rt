//! What is left of a map that was closed, as plain values.
use crate::outcomes::{Outcome, plain_outcome};
use crate::questions::Query;
use crate::requests::request_of;
use locked_map::{Closed, Entry};
use test_keys::ChosenKey;
use test_machine::Request;
use versions::Version;

/// What is left of a map of the tests.
pub type TestClosed = Closed<ChosenKey, u64, Query>;

/// The version of a handle.
pub type TestVersion = Version<ChosenKey, u64>;

/// A request of a seat, and its outcome.
pub type Exchange = (Request, Outcome);

/// An entry of the journal.
#[derive(Clone, Copy, Debug, PartialEq, Eq)]
pub struct Entered {
    pub seat: u32,
    pub request: Request,
    pub outcome: Outcome,
}

fn plainly(entry: &Entry<ChosenKey, u64, Query, i128>) -> Entered {
    Entered {
        seat: entry.seat(),
        request: request_of(entry.request()),
        outcome: plain_outcome(entry.outcome()),
    }
}

/// The entry at the place of the journal.
pub fn entry_at(closed: &TestClosed, place: usize) -> Option<Entered> {
    match closed.journal.entry(place) {
        Some(entry) => Some(plainly(entry)),
        None => None,
    }
}

/// The value of the key on the handle whose place is among these, where it has one.
pub fn value_at(places: &[Option<TestVersion>], handle: u32, key: ChosenKey) -> Option<u64> {
    match places.get(handle as usize)? {
        Some(version) => Some(**version.get(&key)?),
        None => None,
    }
}
