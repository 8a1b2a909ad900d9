//! The tests by which a map is closed. They take no memory.
ghost use Rattle.std.specs.Prelude.{◌≡◌, ◌<◌, ℕ, All, IsTrue, None, Some, slice_index_or, true, vec_len};
ghost use Rattle.handles.specs.Machine.{job_at, room};
ghost use Rattle.journal.specs.Journals.{own};
ghost use Rattle.locked_map.specs.Seats.{AboveFloors, pairs};
ghost use Rattle.journal.specs.Tokens.{AllShown, entries_of};

use crate::seat::Seat;
use bulk_work::Asks;
use handles::Table;
use hash_path::PathKey;
use journal::{Entries, JournalName, Token};
use versions::Refusal;

/// Whether the entries of the seat's number are, in order and at their places, those that it has filed, none of them
/// below the floor beside it.
pub(crate) fn is_borne_out<K: PathKey + Drop, V: Drop, Q: Asks<K, V> + Drop, J: JournalName>(
    entries: &Entries<K, V, Q, Q::Item>,
    tokens: &Vec<Token<K, V, Q, Q::Item>>,
    seat: &Seat<K, V, Q, J>,
) -> bool
    requires table { entries.now ≡ J.table }
    requires shown { AllShown J.table tokens.now.items }
    ensures floors { IsTrue result → AboveFloors seat.now.list }
    ensures own { IsTrue result → own seat.now.number 0 (entries_of tokens.now.items) ≡ pairs seat.now.list }
{
    let mut rest = seat.list.as_slice();
    let mut place = 0u64;
    for token in tokens {
        let of = entries.value(token).seat();
        if of == seat.number {
            let Some((filed, tail)) = rest.split_first() else {
                return false;
            };
            if filed.place != place
                || !filed.is_above_floor()
                || filed.token.index() != token.index()
            {
                return false;
            }
            entries.agrees(&filed.token, token);
            rest = tail;
        }
        place += 1;
    }
    rest.is_empty()
}

/// Whether the seats have the numbers from 0, in order, and the journal bears out each one's list, and their marks
/// hold.
pub(crate) fn are_borne_out<K: PathKey + Drop, V: Eq + Drop, Q: Asks<K, V> + Drop, J: JournalName>(
    entries: &Entries<K, V, Q, Q::Item>,
    tokens: &Vec<Token<K, V, Q, Q::Item>>,
    table: &Table<K, V, Q>,
    seats: &Vec<Seat<K, V, Q, J>>,
) -> bool
    requires table { entries.now ≡ J.table }
    requires shown { AllShown J.table tokens.now.items }
    ensures own { IsTrue result → (k : ℕ) (s : _) → k < vec_len seats.now → own k 0 (entries_of tokens.now.items) ≡ pairs (slice_index_or seats.now.items k s).list }
    ensures floors { IsTrue result → (k : ℕ) (s : _) → k < vec_len seats.now → AboveFloors (slice_index_or seats.now.items k s).list }
    ensures full { IsTrue result → (k : ℕ) (s : _) → k < vec_len seats.now → (slice_index_or seats.now.items k s).full ≡ true → room table.now < 2 }
    ensures unknown { IsTrue result → (k : ℕ) (s : _) → k < vec_len seats.now → (j : ℕ) → (slice_index_or seats.now.items k s).unknown ≡ Some j → job_at table.now j ≡ None }
{
    let mut number = 0;
    for seat in seats {
        if seat.number as usize != number {
            return false;
        }
        if !is_borne_out(entries, tokens, seat) || !marks_hold(table, seat) {
            return false;
        }
        number += 1;
    }
    true
}

/// Whether each entry is of a seat whose number is below this one.
pub(crate) fn are_of_seats<K: PathKey + Drop, V: Drop, Q: Drop, I: Drop>(
    entries: &Entries<K, V, Q, I>,
    tokens: &Vec<Token<K, V, Q, I>>,
    count: usize,
) -> bool
    requires { AllShown entries.now tokens.now.items }
    ensures { IsTrue result → All (λ e. e.seat < count) (entries_of tokens.now.items) }
{
    for token in tokens {
        if entries.value(token).seat() as usize >= count {
            return false;
        }
    }
    true
}

/// Whether the vector holds no entry but those of the tokens and, for each time that a seat had `NoMemory`, at
/// most one that such a call had placed.
pub(crate) fn are_all<K: PathKey, V, Q: Asks<K, V>, J: JournalName>(
    entries: &Entries<K, V, Q, Q::Item>,
    tokens: &Vec<Token<K, V, Q, Q::Item>>,
    seats: &Vec<Seat<K, V, Q, J>>,
) -> bool {
    let mut most = tokens.len() as u64;
    for seat in seats {
        most = most.saturating_add(seat.wanting);
    }
    entries.count() as u64 <= most
}

// Whether the marks of the seat hold: where it was refused as `JournalFull` the journal is full, and where it
// was refused as `NoJob` the job is not open.
fn marks_hold<K: PathKey + Drop, V: Eq + Drop, Q: Asks<K, V> + Drop, J: JournalName>(
    table: &Table<K, V, Q>,
    seat: &Seat<K, V, Q, J>,
) -> bool
    ensures full { IsTrue result → seat.now.full ≡ true → room table.now < 2 }
    ensures unknown { IsTrue result → (j : ℕ) → seat.now.unknown ≡ Some j → job_at table.now j ≡ None }
{
    if seat.full && !is_full(table) {
        return false;
    }
    match seat.unknown {
        Some(job) => is_closed(table, job),
        None => true,
    }
}

// Whether the journal has no room for a call beside the ends of the open jobs.
fn is_full<K: PathKey + Drop, V: Eq + Drop, Q: Asks<K, V> + Drop>(table: &Table<K, V, Q>) -> bool
    ensures { IsTrue result → room table.now < 2 }
{
    match table.foresee_drop_handle(0) {
        Err(Refusal::JournalFull) => true,
        _ => false,
    }
}

// Whether the job is not open.
fn is_closed<K: PathKey + Drop, V: Eq + Drop, Q: Asks<K, V> + Drop>(
    table: &Table<K, V, Q>,
    job: u64,
) -> bool
    ensures { IsTrue result → job_at table.now job ≡ None }
{
    match table.foresee_abandon(job) {
        Err(Refusal::NoJob) => true,
        _ => false,
    }
}
