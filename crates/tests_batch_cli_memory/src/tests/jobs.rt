//! A bulk verb while as many jobs are open as can be.
ghost use Rattle.std.specs.Prelude.{⊤};

use super::{CREW, assert_is};
use batch_cli::{CommandLine, LineGate, LineReply, ScriptClient, ScriptQuery, Test, parse_script};
use handles::{Call, Limits};
use keys::ByteText;
use locked_map::{Client, JournalName, Seat, SharedMap, with_clients};
use std::alloc::Global;
use std::panic::Expect;
use std::sync::atomic::{AtomicU32, Ordering};
use std::sync::{Arc, Wait};
use std::thread::Threads;
use test_keys::wait_for;
use versions::Refusal;

// How many jobs can be open.
const MOST_JOBS: u32 = 64;

// How often a client lets others run before it goes on without them.
const MOST_TURNS: u32 = 10_000_000;

/// Holds each line until all jobs are open.
#[derive(Drop)]
struct Opened(AtomicU32);

impl LineGate for Opened {
    fn before(&self, _client: u32, _line: u32) {
        wait_for(&self.0, MOST_TURNS);
    }
}

/// A client of a script, or one that opens handle 1 and all jobs that there are, and leaves them open.
#[derive(Drop)]
enum Player<'a> {
    Script(&'a [CommandLine], &'a Opened),
    Opener(&'a Opened),
}

impl<'a> Client<ByteText, i64, ScriptQuery> for Player<'a> {
    type Out = Result<Vec<LineReply>, Refusal>;

    ghost needs = { λ _. ⊤ };

    ghost gives = { λ _ _ _. ⊤ };

    fn run<J: JournalName, R: Threads + Wait + Sync>(
        self,
        rt: &R,
        alloc: Global,
        map: &SharedMap<ByteText, i64, ScriptQuery, J>,
        seat: &mut Seat<ByteText, i64, ScriptQuery, J>,
    ) -> Result<Vec<LineReply>, Refusal> {
        match self {
            Player::Script(lines, gate) => {
                let client = ScriptClient {
                    number: 0,
                    lines,
                    crew: CREW,
                    gate,
                };
                Ok(client.run(rt, alloc, map, seat)?)
            }
            Player::Opener(opened) => {
                open_all(rt, alloc, map, seat)?;
                opened.0.store(1, Ordering::SeqCst);
                Ok(Vec::new(alloc))
            }
        }
    }
}

// Opens handle 1 and all jobs that there are.
fn open_all<J: JournalName, R: Wait>(
    rt: &R,
    alloc: Global,
    map: &SharedMap<ByteText, i64, ScriptQuery, J>,
    seat: &mut Seat<ByteText, i64, ScriptQuery, J>,
) -> Result<(), Refusal> {
    map.call(rt, seat, Call::Open(1))?;
    let query = Arc::new(alloc, ScriptQuery::count(&Test::All)?)?;
    for _ in 0..MOST_JOBS {
        drop(map.freeze(rt, seat, 1, Arc::try_clone(&query)?)?);
    }
    Ok(())
}

// It catches a run that ends there, as one does which finds no memory.
#[test]
fn a_bulk_verb_that_finds_no_job_is_refused(rt: HostRuntime) {
    let alloc = rt.alloc();
    let script = parse_script(alloc, b"0 count 1 all\n0 size 1\n").expect(&rt, "no script");
    let opened = Opened(AtomicU32::new(0));
    let mut clients = Vec::new(alloc);
    let client = Player::Script(script.lines(), &opened);
    clients.push(client).expect(&rt, "no room");
    clients.push(Player::Opener(&opened)).expect(&rt, "no room");
    // (each job has an entry kept for its end)
    let limits = Limits {
        pairs: 2,
        entries: 200,
    };
    let (outs, closed) = with_clients(&rt, alloc, limits, clients).expect(&rt, "no journal");
    drop(closed);
    let is_refused = match outs.as_slice() {
        [Ok(replies), Ok(_)] => matches!(
            replies.as_slice(),
            [
                LineReply::Refused(Refusal::TooManyJobs),
                LineReply::Count(0)
            ]
        ),
        _ => false,
    };
    assert_is(&rt, is_refused, true);
}
