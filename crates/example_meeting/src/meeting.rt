//! The meeting of two seats, and what the journal then says of them.
ghost use Rattle.std.specs.Prelude.{◌≡◌, IfOk};
ghost use Rattle.example_meeting.specs.Meetings.{PutBeforeGet, PutThenGot};

use crate::fault::Fault;
use std::alloc::Global;
use std::sync::{Arc, Wait};
use std::thread::Threads;
use tambyulo_clients::{
    Call, Closed, Command, JournalName, Limits, NoQuery, Refusal, Seat, SharedMap, Use, with,
};

/// The handle of the map that both seats use.
const SHARED: u32 = 1;

/// The table, whichever it is, and one of its seats.
type Board<J> = SharedMap<u64, u64, NoQuery, J>;

type ClientSeat<J> = Seat<u64, u64, NoQuery, J>;

/// The first of two seats puts the value of the key, they meet, and the second gets it.
#[derive(Drop)]
struct Meeting {
    key: Arc<u64>,
    value: Arc<u64>,
}

impl Use<u64, u64, NoQuery> for Meeting {
    ghost use Rattle.std.specs.Prelude.{◌≡◌, IfOk};
    ghost use Rattle.std.specs.Arc.{arc_value};
    ghost use Rattle.example_meeting.specs.Meetings.{AreMet};

    type Out = Result<(), Refusal>;

    ghost needs = { λ _ seats. seats ≡ 2 };

    ghost gives = { λ self seats out. IfOk out (λ _. AreMet (arc_value self.key) (arc_value self.value) seats) };

    fn run<J: JournalName + Send + Sync, R: Threads + Wait + Sync>(
        self,
        rt: &R,
        _alloc: Global,
        map: &Board<J>,
        seats: &mut Vec<ClientSeat<J>>,
    ) -> Result<(), Refusal> {
        let (one, two) = seats.split_at_mut(1);
        put_then_get(rt, map, &mut one[0], &mut two[0], self.key, self.value)
    }
}

// The second seat's get has a floor above the place of the first's put, since they met in between.
fn put_then_get<J: JournalName, R: Wait>(
    rt: &R,
    map: &Board<J>,
    first: &mut ClientSeat<J>,
    second: &mut ClientSeat<J>,
    key: Arc<u64>,
    value: Arc<u64>,
) -> Result<(), Refusal>
    requires first { first.old.number ≡ 0 }
    requires second { second.old.number ≡ 1 }
    ensures { IfOk result (λ _. PutThenGot key.value value.value first.new second.new) }
{
    let again = Arc::try_clone(&key)?;
    map.call(rt, first, Call::Open(SHARED))?;
    map.call(rt, first, Call::On(SHARED, Command::Put(key, value)))?;
    first.meet(second);
    map.call(rt, second, Call::On(SHARED, Command::Get(again)))?;
    Ok(())
}

/// A map that is closed after a meeting: seat 1's get of the key stands in the journal behind seat 0's put of the value.
pub fn met<R: AllocGlobal + Threads + Wait + Sync>(
    rt: &R,
    key: Arc<u64>,
    value: Arc<u64>,
) -> Result<Closed<u64, u64, NoQuery>, Fault>
    ensures { IfOk result (λ closed. PutBeforeGet key.value value.value closed.journal) }
{
    let limits = Limits {
        pairs: 1_000,
        entries: 1_000,
    };
    match with(rt, rt.alloc(), 2, limits, Meeting { key, value }) {
        Ok((out, closed)) => {
            out?;
            Ok(closed?)
        }
        Err(_) => Err(Fault::Refused(Refusal::NoMemory)),
    }
}
