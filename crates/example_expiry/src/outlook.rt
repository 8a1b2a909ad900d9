//! How many leases have expired, will soon, and last longer: an operation on whole registries that is this program's own.
ghost use Rattle.std.specs.Prelude.{◌≡◌, if◌then◌else◌};
ghost use Rattle.example_expiry.specs.Outlooks.{expires_soon, has_expired, lasts};

use crate::lease::Lease;
use combiner::Bulk;
use hash_path::PathKey;
use std::alloc::Global;
use std::fmt;
use std::sync::Arc;
use trie_node::NoMemory;

/// How many leases have expired, will soon, and last longer.
#[derive(Clone, Copy, Debug)]
pub struct Outlook {
    pub expired: u64,
    pub expiring: u64,
    pub lasting: u64,
}

/// The outlook of no leases.
const NO_LEASES: Outlook = Outlook {
    expired: 0,
    expiring: 0,
    lasting: 0,
};

impl fmt::Display for Outlook {
    fn fmt<W: fmt::Write>(&self, f: &mut fmt::Formatter<W>) -> fmt::Result {
        write!(
            f,
            "{} expired, {} expiring, {} lasting",
            self.expired, self.expiring, self.lasting
        )
    }
}

/// The outlook at a moment. A lease that has not expired then, and ends by the second `soon`, expires soon.
#[derive(Clone, Copy, Debug)]
pub struct OutlookAt {
    pub moment: u64,
    pub soon: u64,
}

impl OutlookAt {
    /// The outlook of one lease.
    fn of_lease(&self, lease: &Lease) -> Outlook
        ensures expired { result.expired ≡ (if has_expired self.now lease.now then 1 else 0) }
        ensures expiring { result.expiring ≡ (if expires_soon self.now lease.now then 1 else 0) }
        ensures lasting { result.lasting ≡ (if lasts self.now lease.now then 1 else 0) }
    {
        if lease.until <= self.moment {
            Outlook {
                expired: 1,
                ..NO_LEASES
            }
        } else if lease.until <= self.soon {
            Outlook {
                expiring: 1,
                ..NO_LEASES
            }
        } else {
            Outlook {
                lasting: 1,
                ..NO_LEASES
            }
        }
    }
}

impl<K: PathKey> Bulk<K, Lease> for OutlookAt {
    type Part = Outlook;

    ghost use Rattle.example_expiry.specs.Outlooks.{IsOutlook};

    ghost answers = { λ asked m outlook. IsOutlook asked m outlook };

    // No map decides: each lease that is still to come counts.
    ghost decides = { λ asked m. ⊥ };

    ghost ready = { λ asked. Unit {0} };

    fn unit(&self, _alloc: Global) -> Result<Outlook, NoMemory> {
        Ok(NO_LEASES)
    }

    fn one(&self, _alloc: Global, _key: &Arc<K>, lease: &Arc<Lease>) -> Result<Outlook, NoMemory> {
        Ok(self.of_lease(lease))
    }

    fn join(&self, _alloc: Global, a: &Outlook, b: &Outlook) -> Result<Outlook, NoMemory> {
        Ok(Outlook {
            expired: a.expired + b.expired,
            expiring: a.expiring + b.expiring,
            lasting: a.lasting + b.lasting,
        })
    }

    fn settled(&self, _part: &Outlook) -> bool {
        false
    }
}
