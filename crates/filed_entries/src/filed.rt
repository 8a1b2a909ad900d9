//! What a seat has filed, and where.
ghost use Rattle.std.specs.Prelude.{◌≡◌, ◌+◌, ◌<◌, ◌≤◌, ◌^◌, ◌++◌, ◌∷◌, [], IsTrue, vec_capacity, vec_len};

use hash_path::PathKey;
use journal::{Event, Token};

/// An entry of a seat: its token, its place in the journal, and the floor that the seat had.
#[derive(Drop)]
pub struct Filed<K: PathKey, V, Q, I> {
    pub token: Token<K, V, Q, I>,
    pub place: u64,
    pub floor: u64,
}

impl<K: PathKey, V, Q, I> Filed<K, V, Q, I> {
    /// Whether the entry stands at the floor beside it, or behind that.
    pub fn is_above_floor(&self) -> bool
        ensures { IsTrue result → self.now.floor ≤ self.now.place }
    {
        self.floor <= self.place
    }
}

/// Adds the event's entry to a seat's list, sets the seat's floor behind it, and returns what the call returns.
pub fn file<K: PathKey + Drop, V: Drop, Q: Drop, I: Drop, A>(
    list: &mut Vec<Filed<K, V, Q, I>>,
    floor: &mut u64,
    event: Event<K, V, Q, I, A>,
) -> A
    requires spare { vec_len list.old < vec_capacity list.old }
    requires place { event.place + 1 < 2 ^ 64 }
    ensures list { list.new.items ≡ list.old.items ++ record { token = event.token; place = event.place; floor = floor.old } ∷ [] }
    ensures floor { floor.new ≡ event.place + 1 }
    ensures answer { result ≡ event.answer }
{
    let Event {
        token,
        place,
        answer,
    } = event;
    list.push_reserved(Filed {
        token,
        place,
        floor: *floor,
    });
    *floor = place + 1;
    answer
}
