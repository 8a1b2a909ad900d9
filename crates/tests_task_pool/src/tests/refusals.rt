//! A piece whose pair is refused: the other worker does not wait for it.
use super::{Seen, assert_is, seen};
use combiner::Bulk;
use std::alloc::Global;
use std::process::Abort;
use std::sync::atomic::{AtomicU32, Ordering};
use std::sync::{Arc, Wait};
use std::thread;
use std::thread::Threads;
use std::time::{Clock, Duration};
use task_pool::{Crew, Free, run_crew};
use test_keys::ChosenKey;
use trie_node::NoMemory;

// How many pairs there are. Each is a piece of its own.
const PAIRS: u32 = 64;

// No worker gives up.
const CREW: Crew = Crew {
    workers: 2,
    grain: 1,
    patience: u32::MAX,
};

// How many hundredths of a second the crew may take.
const PATIENCE: u32 = 3_000;

// An operation that refuses the pair with the value 0, which the first worker meets first.
#[derive(Drop)]
struct Refused;

impl Bulk<ChosenKey, u64> for Refused {
    type Part = ();

    ghost use Rattle.std.specs.Prelude.{◌≡◌, ⊤, false, true};

    ghost answers = { λ refused map part. ⊤ };

    ghost decides = { λ refused map. false ≡ true };

    ghost ready = { λ refused. ⊤ };

    fn unit(&self, _alloc: Global) -> Result<(), NoMemory> {
        Ok(())
    }

    fn one(&self, _alloc: Global, _key: &Arc<ChosenKey>, value: &Arc<u64>) -> Result<(), NoMemory> {
        if **value == 0 { Err(NoMemory) } else { Ok(()) }
    }

    fn join(&self, _alloc: Global, _a: &(), _b: &()) -> Result<(), NoMemory> {
        Ok(())
    }

    fn settled(&self, _part: &()) -> bool {
        false
    }
}

// Fails where the crew has not come to an end in time: a worker waits for a piece that was refused.
fn watch<R: Clock + Abort>(rt: &R, done: &AtomicU32) {
    for _ in 0..PATIENCE {
        if done.load(Ordering::SeqCst) != 0 {
            return;
        }
        thread::sleep(rt, Duration::from_millis(10));
    }
    assert!(rt; false, "a worker waits for a piece that was refused");
}

// Whether the crew's work is refused.
fn is_refused<R: Threads + Wait + Clock + Abort + Sync>(
    rt: &R,
    alloc: Global,
    view: &Seen,
) -> bool {
    let flag = AtomicU32::new(0);
    let done = &flag;
    let (refused, ()) = thread::join(
        rt,
        || {
            let report = run_crew(rt, alloc, view, &Refused, CREW, &Free);
            done.store(1, Ordering::SeqCst);
            report.is_err()
        },
        || watch(rt, done),
    );
    refused
}

#[test]
fn no_worker_waits_for_a_piece_that_is_refused(rt: HostRuntime) {
    let alloc = rt.alloc();
    let view = seen(&rt, alloc, PAIRS, false);
    assert_is(&rt, is_refused(&rt, alloc, &view), true);
}
