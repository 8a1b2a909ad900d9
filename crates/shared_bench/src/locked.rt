//! The same calls on a table, and on the map that files each call in a journal under its lock, with their checksums.
ghost use Rattle.std.specs.Prelude.{◌≡◌, ⊤, vec_len};

use crate::calls::{MapCall, filling, load, value_of};
use bench_kit::{Best, Fault};
use handles::{Limits, MOST_ENTRIES, NoQuery, Table};
use keys::ByteText;
use locked_map::{Client, JournalName, Seat, SharedMap, with_clients};
use std::alloc::Global;
use std::rt::Runtime;
use std::sync::{Arc, Wait};
use std::thread::Threads;
use std::time::{Clock, Duration, Instant};
use versions::MOST_PAIRS;

/// How many pairs the maps get at most, and how many calls a round makes then. The puts that fill a map are entries of
/// its journal too, so that both together have to stay below `MOST_ENTRIES`.
const MOST_FILLED: usize = 500_000;

const CALLS: u32 = 500_000;

/// What the tables may hold.
const LIMITS: Limits = Limits {
    pairs: MOST_PAIRS,
    entries: MOST_ENTRIES,
};

/// The time of a round's calls, and the sum of the values that they returned.
#[derive(Clone, Copy)]
struct Round {
    time: Duration,
    sum: i64,
}

/// Times the calls on a table, and on a shared map by one seat.
pub fn locked_calls<R: Runtime + AllocGlobal + Threads + Wait + Sync>(
    rt: &R,
    rounds: u32,
    keys: &[Arc<ByteText>],
) -> Result<(), Fault> {
    let keys = &keys[..keys.len().min(MOST_FILLED)];
    let mut table_best = Best::new();
    let mut shared_best = Best::new();
    let mut table_sum = 0;
    let mut shared_sum = 0;
    for _ in 0..rounds {
        let on_table = table_round(rt, keys)?;
        table_best.count(on_table.time);
        table_sum = on_table.sum;
        let on_shared = shared_round(rt, keys)?;
        shared_best.count(on_shared.time);
        shared_sum = on_shared.sum;
    }
    table_best.show(rt, "table_call", CALLS, i128::from(table_sum))?;
    shared_best.show(rt, "locked_call", CALLS, i128::from(shared_sum))
}

/// One round on a table.
fn table_round<R: Runtime + AllocGlobal>(rt: &R, keys: &[Arc<ByteText>]) -> Result<Round, Fault> {
    let mut table = Table::new(rt.alloc(), LIMITS)?;
    let round = round_on(rt, &mut table, keys);
    drop(table);
    round
}

/// One round on this table, whose map gets each key with its number first.
fn round_on<R: Runtime + AllocGlobal>(
    rt: &R,
    table: &mut Table<ByteText, i64>,
    keys: &[Arc<ByteText>],
) -> Result<Round, Fault> {
    let alloc = rt.alloc();
    serve_all(alloc, table, filling(alloc, keys)?)?;
    let calls = load(alloc, keys, CALLS)?;
    match Instant::now(rt) {
        Ok(start) => {
            let sum = serve_all(alloc, table, calls)?;
            Ok(Round {
                time: start.elapsed(rt)?,
                sum,
            })
        }
        Err(error) => {
            drop(calls);
            Err(Fault::from(error))
        }
    }
}

/// Makes the calls on a table, and returns the sum of the values that they returned.
fn serve_all(
    alloc: Global,
    table: &mut Table<ByteText, i64>,
    calls: Vec<MapCall>,
) -> Result<i64, Fault> {
    let mut sum = 0i64;
    for call in calls {
        sum = sum.wrapping_add(value_of(table.serve(alloc, call)?));
    }
    Ok(sum)
}

/// One round on a shared map. Its time ends before the map is closed.
fn shared_round<R: Runtime + AllocGlobal + Threads + Wait + Sync>(
    rt: &R,
    keys: &[Arc<ByteText>],
) -> Result<Round, Fault> {
    let alloc = rt.alloc();
    let mut clients = Vec::new(alloc);
    clients.push(Caller { clock: rt, keys })?;
    let Ok(served) = with_clients(rt, alloc, LIMITS, clients) else {
        return Err(Fault::NoJournal);
    };
    let (rounds, closed) = served;
    drop(closed);
    the_round(rounds)
}

/// The round of the one client.
fn the_round(mut rounds: Vec<Result<Round, Fault>>) -> Result<Round, Fault>
    requires { vec_len rounds ≡ 1 }
{
    match rounds.pop() {
        Some(round) => round,
        None => unreachable!(),
    }
}

/// The one client of a shared map, which makes a round's calls.
#[derive(Drop)]
struct Caller<'a, C> {
    clock: &'a C,
    keys: &'a [Arc<ByteText>],
}

impl<C: Clock> Client<ByteText, i64, NoQuery> for Caller<'_, C> {
    type Out = Result<Round, Fault>;

    ghost needs = { λ _. ⊤ };

    ghost gives = { λ _ _ _. ⊤ };

    fn run<J: JournalName, R: Threads + Wait + Sync>(
        self,
        rt: &R,
        alloc: Global,
        map: &SharedMap<ByteText, i64, NoQuery, J>,
        seat: &mut Seat<ByteText, i64, NoQuery, J>,
    ) -> Result<Round, Fault> {
        let Caller { clock, keys } = self;
        call_all(rt, map, seat, filling(alloc, keys)?)?;
        let calls = load(alloc, keys, CALLS)?;
        match Instant::now(clock) {
            Ok(start) => {
                let sum = call_all(rt, map, seat, calls)?;
                Ok(Round {
                    time: start.elapsed(clock)?,
                    sum,
                })
            }
            Err(error) => {
                drop(calls);
                Err(Fault::from(error))
            }
        }
    }
}

/// Makes the calls on a shared map, and returns the sum of the values that they returned.
fn call_all<J: JournalName, R: Wait>(
    rt: &R,
    map: &SharedMap<ByteText, i64, NoQuery, J>,
    seat: &mut Seat<ByteText, i64, NoQuery, J>,
    calls: Vec<MapCall>,
) -> Result<i64, Fault> {
    let mut sum = 0i64;
    for call in calls {
        sum = sum.wrapping_add(value_of(map.call(rt, seat, call)?));
    }
    Ok(sum)
}
