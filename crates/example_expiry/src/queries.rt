//! The questions of this program.
ghost use Rattle.bulk_ops.specs.Queries.{IsReady};

use crate::lease::Lease;
use bulk_ops::{NoImages, PairFn, Query, Stored, StoredItem, StoredTest};
use combiner::Sum;
use keys::ByteText;

/// A test of leases: those that have expired at a moment pass, or those that have not.
#[derive(Drop)]
pub struct At {
    pub now: u64,
    pub expired: bool,
}

impl PairFn<ByteText, Lease, bool> for At {
    ghost use Rattle.std.specs.Prelude.{◌≡◌};
    ghost use Rattle.example_expiry.specs.Leases.{passes};

    ghost can = { λ at. Unit {0} };

    ghost gives = { λ at name lease answer. answer ≡ passes at.now at.expired lease.until };

    fn answer(&self, _name: &ByteText, lease: &Lease) -> bool {
        if self.expired {
            lease.until <= self.now
        } else {
            self.now < lease.until
        }
    }
}

/// New leases: none ends before a second.
#[derive(Drop)]
pub struct Renewed {
    pub until: u64,
}

impl PairFn<ByteText, Lease, Lease> for Renewed {
    ghost use Rattle.std.specs.Prelude.{◌≡◌, max};

    ghost can = { λ new. Unit {0} };

    ghost gives = { λ new name lease answer. answer ≡ record { until = max lease.until new.until } };

    fn answer(&self, _name: &ByteText, lease: &Lease) -> Lease {
        Lease {
            until: lease.until.max(self.until),
        }
    }
}

/// The seconds that a lease has left at a moment.
#[derive(Drop)]
pub struct SecondsLeft {
    pub now: u64,
}

impl PairFn<ByteText, Lease, i128> for SecondsLeft {
    ghost use Rattle.std.specs.Prelude.{◌≡◌, ◌-◌, pos};

    ghost can = { λ at. Unit {0} };

    ghost gives = { λ at name lease answer. answer ≡ pos (lease.until - at.now) };

    fn answer(&self, _name: &ByteText, lease: &Lease) -> i128 {
        i128::from(lease.until.saturating_sub(self.now))
    }
}

/// All questions of this program have one type.
pub type Question = Query<ByteText, Lease, At, Renewed, Sum, SecondsLeft, NoImages>;

/// How many leases have expired.
pub fn expired(now: u64) -> Question
    ensures { IsReady result }
{
    Query::Count(stored(At { now, expired: true }))
}

/// The map of the leases that have not, for the handle of this number.
pub fn live(now: u64, handle: u32) -> Question
    ensures { IsReady result }
{
    Query::Filter(
        stored(At {
            now,
            expired: false,
        }),
        handle,
    )
}

/// How many seconds all leases have left.
pub fn seconds_left(now: u64) -> Question
    ensures { IsReady result }
{
    Query::Fold(Sum, stored_item(SecondsLeft { now }))
}

// The test, beside the fact that it has one answer for each pair.
fn stored(at: At) -> StoredTest<ByteText, Lease, At> {
    Stored::new(at)
}

// The item, beside that fact.
fn stored_item(left: SecondsLeft) -> StoredItem<ByteText, Lease, i128, SecondsLeft> {
    Stored::new(left)
}
