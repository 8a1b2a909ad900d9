//! A map with its seats, lent to whoever uses it.
ghost use Rattle.std.specs.Prelude.{◌≡◌, ◌≤◌, ℕ, IfErr, IfOk, List, vec_len};
ghost use Rattle.std.specs.Thread.{IsSync};
ghost use Rattle.handles.specs.Views.{machine};
ghost use Rattle.locked_map.specs.Closings.{IsClosedWith};
ghost use Rattle.locked_map.specs.Seats.{AllFresh, Seated};

use crate::closed::{Closed, Torn};
use crate::seat::Seat;
use crate::shared_map::SharedMap;
use bulk_work::Asks;
use handles::{Limits, MOST_ENTRIES};
use hash_path::PathKey;
use journal::{Entries, JournalName};
use std::alloc::Global;
use std::marker::Brand;
use std::sync::Wait;
use std::thread::Threads;
use versions::{MOST_PAIRS, NoMemory};

/// The most seats that a map may have.
pub const MOST_SEATS: u32 = 64;

/// What is done with a map, whichever map it is.
///
/// <!-- quoted from crates/example_meeting/src/meeting.rt -->
/// ```rust
/// let (one, two) = seats.split_at_mut(1);
/// put_then_get(rt, map, &mut one[0], &mut two[0], self.key, self.value)
/// ```
pub trait Use<K: PathKey, V: Eq, Q: Asks<K, V>> {
    ghost use Rattle.bulk_work.specs.Answers as plain;

    /// What it returns.
    type Out;

    /// What it asks of its caller, with this number of seats.
    ghost needs: { Self → ℕ → Type 0 };

    /// What it guarantees of the seats that it leaves, and of what it returns.
    ghost gives: { Self → List (Seated K V Q (plain.Summary K V Q.Item)) → Self.Out → Type 0 };

    /// Does it, with the map and all its seats, which have filed nothing yet. The map is closed with the seats that it
    /// leaves.
    fn run<J: JournalName + Send + Sync, R: Threads + Wait + Sync>(
        self,
        rt: &R,
        alloc: Global,
        map: &SharedMap<K, V, Q, J>,
        seats: &mut Vec<Seat<K, V, Q, J>>,
    ) -> Self::Out
        requires sync { IsSync R.row }
        requires needs { needs self (vec_len seats.old) }
        requires fresh { AllFresh seats.old.items }
        ensures gives { gives self seats.new.items result };
}

/// Makes a map with this number of seats, lends it to the user on the caller's thread, and closes it with the seats
/// that the user leaves. It returns what the user returned, and the journal with the table that it leads to; that is
/// `Torn` where `SharedMap::close` is.
///
/// Cost: O(s e) for s seats and e entries of the journal, beside the user's own calls; no lock but those of these
/// calls. Refused: `NoMemory`, if memory runs out: the user comes back, and has done nothing.
pub fn with<K, V, Q, U, R>(
    rt: &R,
    alloc: Global,
    seats: u32,
    limits: Limits,
    user: U,
) -> Result<(U::Out, Result<Closed<K, V, Q>, Torn>), (NoMemory, U)>
where
    K: PathKey + Drop,
    V: Eq + Drop,
    Q: Asks<K, V> + Drop,
    U: Use<K, V, Q>,
    R: Threads + Wait + Sync,
    requires least_pairs { 1 ≤ limits.pairs }
    requires most_pairs { limits.pairs ≤ MOST_PAIRS }
    requires least_entries { 2 ≤ limits.entries }
    requires most_entries { limits.entries ≤ MOST_ENTRIES }
    requires least_seats { 1 ≤ seats }
    requires most_seats { seats ≤ MOST_SEATS }
    requires needs { U.needs user seats }
    ensures used { IfOk result (λ r. (seats : List _) × U.gives user seats r.0 × IfOk r.1 (λ c. IsClosedWith (machine K.cmp V.eq Q.target_of Q.answered) limits seats c.journal c.table)) }
    ensures back { IfErr result (λ e. e.1 ≡ user) }
{
    let Ok(entries) = Entries::new(alloc) else {
        return Err((NoMemory, user));
    };
    lent::<K, V, Q, Brand, U, R>(rt, alloc, entries, seats, limits, user)
}

// Lends a map over the vector of this name.
fn lent<K, V, Q, J, U, R>(
    rt: &R,
    alloc: Global,
    entries: Entries<K, V, Q, Q::Item>,
    seats: u32,
    limits: Limits,
    user: U,
) -> Result<(U::Out, Result<Closed<K, V, Q>, Torn>), (NoMemory, U)>
where
    K: PathKey + Drop,
    V: Eq + Drop,
    Q: Asks<K, V> + Drop,
    J: JournalName + Send + Sync,
    U: Use<K, V, Q>,
    R: Threads + Wait + Sync,
    requires table { entries ≡ J.table }
    requires least_pairs { 1 ≤ limits.pairs }
    requires most_pairs { limits.pairs ≤ MOST_PAIRS }
    requires least_entries { 2 ≤ limits.entries }
    requires most_entries { limits.entries ≤ MOST_ENTRIES }
    requires needs { U.needs user seats }
    ensures used { IfOk result (λ r. (seats : List _) × U.gives user seats r.0 × IfOk r.1 (λ c. IsClosedWith (machine K.cmp V.eq Q.target_of Q.answered) limits seats c.journal c.table)) }
    ensures back { IfErr result (λ e. e.1 ≡ user) }
{
    let Ok(mut seats) = fresh_seats(alloc, seats) else {
        drop(entries);
        return Err((NoMemory, user));
    };
    let Ok(map) = SharedMap::<K, V, Q, J>::new(alloc, entries, limits) else {
        drop(seats);
        return Err((NoMemory, user));
    };
    let out = user.run(rt, alloc, &map, &mut seats);
    Ok((out, closed_under(map, limits, seats)))
}

/// Closes the map that was made under these limits.
pub(crate) fn closed_under<K, V, Q, J>(
    map: SharedMap<K, V, Q, J>,
    limits: Limits,
    seats: Vec<Seat<K, V, Q, J>>,
) -> Result<Closed<K, V, Q>, Torn>
where
    K: PathKey + Drop,
    V: Eq + Drop,
    Q: Asks<K, V> + Drop,
    J: JournalName,
    ensures { IfOk result (λ c. IsClosedWith (machine K.cmp V.eq Q.target_of Q.answered) limits seats.items c.journal c.table) }
{
    let closed = map.close(seats)?;
    // A lock's type says nothing of the limits of what lies under it, so they are looked at here.
    if closed.table.limits() != limits {
        drop(closed);
        return Err(Torn);
    }
    Ok(closed)
}

// Seats with the numbers from 0.
fn fresh_seats<K, V, Q, J>(alloc: Global, count: u32) -> Result<Vec<Seat<K, V, Q, J>>, NoMemory>
where
    K: PathKey + Drop,
    V: Drop,
    Q: Asks<K, V> + Drop,
    J: JournalName,
    ensures len { IfOk result (λ seats. vec_len seats ≡ count) }
    ensures fresh { IfOk result (λ seats. AllFresh seats.items) }
{
    let mut seats = Vec::with_capacity(alloc, count as usize)?;
    let mut number = 0;
    while number < count {
        let Ok(()) = seats.push(Seat::new(alloc, number)) else {
            drop(seats);
            return Err(NoMemory);
        };
        number += 1;
    }
    Ok(seats)
}
