//! Runs with no memory, with a little, and with none from some line on or for some lines.
use super::{CREW, assert_is, plain};
use batch_cli::{Free, LineGate, RunFault, Script, execute, parse_script, run_script};
use std::alloc::{AllocError, Global};
use std::io;
use std::io::Write;
use std::panic::Expect;
use std::process::Abort;
use std::sync::{Barrier, Mutex, Wait};
use std::thread::Threads;
use test_keys::{Shortage, take_all};

// How many bytes a page takes.
const PAGE: usize = 320;

// Four clients, each on handles of its own, and what their run writes. The bulk verbs are asked of maps of three pairs,
// each of which is a piece of its own.
const SCRIPT: &[u8] = b"0 open 1\n1 open 2\n2 open 3\n3 open 4\n\
    0 put 1 a 1\n1 put 2 a 2\n2 put 3 a 3\n3 put 4 a 4\n\
    0 put 1 b 2\n1 put 2 b 3\n2 put 3 b 4\n3 put 4 b 5\n\
    0 put 1 c 3\n1 put 2 c 4\n2 put 3 c 5\n3 put 4 c 6\n\
    0 count 1 odd\n1 filter 2 even 6\n2 fold 3 sum\n3 mapvalues 4 add:1 8\n\
    0 forall 1 lt:3\n1 list 6\n2 find 3 even\n3 list 8\n\
    0 getorelse 1 d 7\n1 exists 2 ge:4\n2 size 3\n3 remove 4 a\n";

const REPLIES: &[u8] = b"1 ok\n2 ok\n3 ok\n4 ok\n5 none\n6 none\n7 none\n8 none\n\
    9 none\n10 none\n11 none\n12 none\n13 none\n14 none\n15 none\n16 none\n\
    17 count 2\n18 count 2\n19 item 12\n20 count 3\n\
    21 false\n22 pairs a=2 c=4\n23 pair b 4\n24 pairs a=5 b=6 c=7\n\
    25 some 7\n26 true\n27 count 3\n28 some 4\n";

// The first number that no line has, and how many entries the journal has.
const BEYOND: u32 = 29;

const ENTRIES: usize = 36;

// How many bytes are given after each refusal, how often a run is tried before memory is taken again, and how often it is.
const STEP: usize = 16;

const TRIES_AT_ONCE: u32 = 64;

const ROUNDS: u32 = 120;

// How many bytes more there are in a block of their own, once the others do not suffice, and in which round these begin
// to be given then.
const SPARE: usize = 65_536;

const ROUNDS_BEFORE: u32 = 50;

// How many clients there are. The first lines of all are the first ones of the script.
const CLIENTS: u32 = 4;

// How many bytes more are left each time to clients that have begun, and how often that is tried.
const LARGE_STEP: usize = 3_072;

const FEW_TRIES: usize = 40;

// How far behind a line memory is given back, where it is.
const APART: u32 = 5;

// The message about a run that is neither whole nor refused as it has to be.
const WRONG: &str = "a run is not as it has to be";

/// Takes a byte at a time into its own, with no request for memory.
#[derive(Drop)]
struct Page {
    bytes: [u8; PAGE],
    used: usize,
}

impl Page {
    /// The bytes that it took.
    fn text(&self) -> &[u8] {
        self.bytes.get(..self.used).unwrap_or(&[])
    }
}

impl Write for Page {
    fn write(&mut self, bytes: &[u8]) -> io::Result<usize> {
        match (self.bytes.get_mut(self.used), bytes) {
            (Some(place), [first, ..]) => {
                *place = *first;
                self.used = self.used.saturating_add(1);
                Ok(1)
            }
            _ => Ok(0),
        }
    }

    fn flush(&mut self) -> io::Result<()> {
        Ok(())
    }
}

/// The page with no bytes.
fn blank() -> Page {
    Page {
        bytes: [0; PAGE],
        used: 0,
    }
}

// Whether a run of the bytes that wants memory reports so in one line, and writes and keeps nothing else.
fn is_printed_in_one_line<R: Threads + Wait + Sync>(rt: &R, alloc: Global, script: &[u8]) -> bool {
    let (mut out, mut err) = (blank(), blank());
    let (status, journal) = execute(rt, alloc, &plain(), script, &mut out, &mut err);
    let is_printed = err.text() == b"trierun: out of memory\n".as_slice();
    is_printed && status == 1 && out.used == 0 && journal.is_none()
}

#[test]
fn out_of_memory_is_printed_in_one_line(rt: HostRuntime) {
    let alloc = rt.alloc();
    let taken = take_all(alloc).expect(&rt, "no list");
    let of_a_line = is_printed_in_one_line(&rt, alloc, b"0 open 1");
    let of_a_comment = is_printed_in_one_line(&rt, alloc, b"# none");
    drop(taken);
    assert_is(&rt, (of_a_line, of_a_comment), (true, true));
}

// Whether a run of the script is whole, or wants memory and has written nothing; or nothing where it is neither.
fn is_run<R: Threads + Wait + Sync, G: LineGate + Sync>(
    rt: &R,
    alloc: Global,
    script: &Script,
    gate: &G,
) -> Option<bool> {
    let mut page = blank();
    match run_script(rt, alloc, script, CREW, &mut page, gate) {
        Ok(journal) if page.text() == REPLIES && journal.len() == ENTRIES => Some(true),
        Err(RunFault::Memory) if page.used == 0 => Some(false),
        _ => None,
    }
}

// Runs the script with `from` times the bytes of a step beside those that are spare, and with a step more each time:
// how many runs wanted memory before one was whole, with those that came before these; nothing where no run was whole.
//
// Memory is taken again for them: what earlier runs have released lies in pieces among the bytes that were given to
// them.
fn refusals_from<R: Abort + Threads + Wait + Sync>(
    rt: &R,
    alloc: Global,
    script: &Script,
    from: u32,
    spare: usize,
) -> Option<u32> {
    let room: Vec<u8> = Vec::with_capacity(alloc, spare).expect(rt, "no room");
    let mut shortage = Shortage::new(alloc).expect(rt, "no list");
    drop(room);
    let first = shortage.give(alloc, (from as usize).saturating_mul(STEP));
    first.expect(rt, "no room");
    for refused in from..from.saturating_add(TRIES_AT_ONCE) {
        if is_run(rt, alloc, script, &Free).expect(rt, WRONG) {
            return Some(refused);
        }
        shortage.give(alloc, STEP).expect(rt, "no room");
    }
    None
}

// Runs the script with no memory, with a little, and so on: how many runs wanted memory before one was whole; nothing
// where none was.
fn refusals<R: Abort + Threads + Wait + Sync>(
    rt: &R,
    alloc: Global,
    script: &Script,
) -> Option<u32> {
    for round in 0..ROUNDS {
        let from = round.saturating_mul(TRIES_AT_ONCE);
        if let Some(refused) = refusals_from(rt, alloc, script, from, 0) {
            return Some(refused);
        }
    }
    for round in ROUNDS_BEFORE..ROUNDS {
        let from = round.saturating_mul(TRIES_AT_ONCE);
        if let Some(refused) = refusals_from(rt, alloc, script, from, SPARE) {
            return Some(refused);
        }
    }
    None
}

// With each try a request more is met. No thread is started in what little there is, so the clients are run one after
// another by the caller, and the pieces of their crews are left to them. It catches a run that loses a line, a piece or
// an entry if memory runs out, one that writes before all replies are there, and one that takes a lack of memory for a
// reply.
#[test]
fn a_run_is_refused_at_each_request(rt: HostRuntime) {
    let alloc = rt.alloc();
    let script = parse_script(alloc, SCRIPT).expect(&rt, "no script");
    let refused = refusals(&rt, alloc, &script).expect(&rt, "no run is whole");
    assert_is(&rt, refused > 0, true);
}

/// Holds each client back until all have begun. It takes all memory then but for `bytes` bytes next to one another, and
/// lets the clients continue.
#[derive(Drop)]
struct Rationer<'a, R: Wait> {
    rt: &'a R,
    alloc: Global,
    bytes: usize,
    all: Barrier,
    taken: Mutex<Option<Vec<Vec<u8>>>>,
}

impl<R: Wait> LineGate for Rationer<'_, R> {
    fn before(&self, _client: u32, line: u32) {
        if line > CLIENTS {
            return;
        }
        self.all.wait(self.rt);
        if line == 1 {
            let left: Result<Vec<u8>, AllocError> = Vec::with_capacity(self.alloc, self.bytes);
            *self.taken.lock(self.rt) = take_all(self.alloc).ok();
            drop(left);
        }
        self.all.wait(self.rt);
    }
}

// What the run came to where `bytes` bytes are left to clients that have begun.
fn is_run_with<R: Threads + Wait + Sync>(
    rt: &R,
    alloc: Global,
    script: &Script,
    bytes: usize,
) -> Option<bool> {
    let gate = Rationer {
        rt,
        alloc,
        bytes,
        all: Barrier::new(CLIENTS as usize),
        taken: Mutex::new(None),
    };
    is_run(rt, alloc, script, &gate)
}

// How many of the runs want memory, where no bytes are left, then some, and so on. Nothing where a run is not as it has
// to be.
fn rationed<R: Threads + Wait + Sync>(rt: &R, alloc: Global, script: &Script) -> Option<u32> {
    let mut refused = 0u32;
    for count in 0..FEW_TRIES {
        if !is_run_with(rt, alloc, script, LARGE_STEP.saturating_mul(count))? {
            refused = refused.saturating_add(1);
        }
    }
    Some(refused)
}

// Each client has a thread when memory is taken, and it does not end where one has none. Threads have heaps of their
// own, so clients run at once while requests of their caller's thread are refused, and how much memory is enough differs.
// It catches a client that is lost where the caller's wants memory.
#[test]
fn a_run_of_threads_is_refused_at_some_requests(rt: HostRuntime) {
    let alloc = rt.alloc();
    let script = parse_script(alloc, SCRIPT).expect(&rt, "no script");
    let refused = rationed(&rt, alloc, &script).expect(&rt, WRONG);
    assert_is(&rt, refused > 0, true);
    assert_is(&rt, is_run(&rt, alloc, &script, &Free), Some(true));
}

/// Takes all memory before the line `at`, and gives it back before the first line numbered `until` or higher that begins
/// after that.
#[derive(Drop)]
struct Taker<'a, R: Wait> {
    rt: &'a R,
    alloc: Global,
    at: u32,
    until: u32,
    taken: Mutex<Option<Vec<Vec<u8>>>>,
}

impl<R: Wait> LineGate for Taker<'_, R> {
    fn before(&self, _client: u32, line: u32) {
        let mut taken = self.taken.lock(self.rt);
        if line == self.at {
            *taken = take_all(self.alloc).ok();
        } else if line >= self.until {
            *taken = None;
        }
    }
}

// What the run came to if memory runs out from a line on until another one.
fn is_run_without<R: Threads + Wait + Sync>(
    rt: &R,
    alloc: Global,
    script: &Script,
    at: u32,
    until: u32,
) -> Option<bool> {
    let gate = Taker {
        rt,
        alloc,
        at,
        until,
        taken: Mutex::new(None),
    };
    is_run(rt, alloc, script, &gate)
}

// The threads of all clients have begun or will begin when memory is taken. It catches a thread that is not joined
// where another one fails, and replies that are written without those of a client that failed.
#[test]
fn memory_is_wanting_from_some_line_on(rt: HostRuntime) {
    let alloc = rt.alloc();
    let script = parse_script(alloc, SCRIPT).expect(&rt, "no script");
    for at in 1..BEYOND {
        let run = is_run_without(&rt, alloc, &script, at, BEYOND);
        assert!(rt; run.is_some(), "from line {at} on");
    }
    let first = is_run_without(&rt, alloc, &script, 1, BEYOND);
    assert_is(&rt, first, Some(false));
    let after = is_run_without(&rt, alloc, &script, BEYOND, BEYOND);
    assert_is(&rt, after, Some(true));
}

// How many of the runs want memory, where it is there again some lines behind the one that takes it. Nothing where a run
// is not as it has to be.
fn pinched<R: Threads + Wait + Sync>(rt: &R, alloc: Global, script: &Script) -> Option<u32> {
    let mut refused = 0u32;
    for at in 1..BEYOND {
        if !is_run_without(rt, alloc, script, at, at.saturating_add(APART))? {
            refused = refused.saturating_add(1);
        }
    }
    Some(refused)
}

// Where memory is there again when all clients have ended, only what they came to shows that one of them wanted it. It
// catches a client that is whole for its caller and lacks a line, and a job that is reported as done though its crew
// had no memory.
#[test]
fn memory_is_wanting_for_some_lines(rt: HostRuntime) {
    let alloc = rt.alloc();
    let script = parse_script(alloc, SCRIPT).expect(&rt, "no script");
    let refused = pinched(&rt, alloc, &script).expect(&rt, WRONG);
    assert!(rt; refused > 0);
}
