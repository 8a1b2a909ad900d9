//! What scripts print and what their journals have, by hand. Most scripts with their replies are cases of the built
//! program, which `tests/programs` compares.
mod audits;
mod clients;
mod contention;
mod entries;
mod events;
mod faults;
mod gates;
mod journals;
mod scripts;
mod words;

use batch_cli::{Crew, Journal, LineGate, Options, execute, parse_script, run_script};
use std::alloc::{AllocError, Global};
use std::fmt::Debug;
use std::panic::Expect;
use std::process::Abort;
use std::sync::Wait;
use std::thread::Threads;

/// The crew of the bulk verbs. It takes the smallest pieces that there are, so that small maps have several.
const CREW: Crew = Crew {
    workers: 2,
    grain: 1,
    patience: 1_000,
};

/// The options of a run with that crew, which are in range: from one worker to sixteen, and a grain from 1 on.
fn plain() -> Options {
    Options {
        workers: 2,
        grain: 1,
        audit: false,
        journal: None,
        file: None,
    }
}

/// The status of a script, and what it writes to standard output and standard error.
fn executed<R: AllocGlobal + Threads + Wait + Sync>(
    rt: &R,
    script: &[u8],
) -> (u8, Vec<u8>, Vec<u8>) {
    let alloc = rt.alloc();
    let (mut out, mut err) = (Vec::new(alloc), Vec::new(alloc));
    let (status, journal) = execute(rt, alloc, &plain(), script, &mut out, &mut err);
    drop(journal);
    (status, out, err)
}

/// What a run of the script writes, with its journal.
fn ran<R: AllocGlobal + Abort + Threads + Wait + Sync, G: LineGate + Sync>(
    rt: &R,
    script: &[u8],
    gate: &G,
) -> (Vec<u8>, Journal) {
    let alloc = rt.alloc();
    let script = parse_script(alloc, script).expect(rt, "no script");
    let mut out = Vec::new(alloc);
    let journal = run_script(rt, alloc, &script, CREW, &mut out, gate).expect(rt, "no run");
    (out, journal)
}

/// `count` lines: the first one, and the other one again and again.
fn lines(alloc: Global, first: &[u8], other: &[u8], count: u32) -> Result<Vec<u8>, AllocError> {
    let mut script = Vec::from_slice(alloc, first)?;
    for _ in 1..count {
        script.extend_from_slice(other)?;
    }
    Ok(script)
}

/// The bytes as text.
fn text<'b>(rt: &impl Abort, bytes: &'b [u8]) -> &'b str {
    str::from_utf8(bytes).expect(rt, "no text")
}

/// What is seen is what is wanted. An assertion is proved wherever it is written out, so it stands here once.
fn assert_is<T: PartialEq + Debug + Drop>(rt: &impl Abort, seen: T, want: T) {
    assert_eq!(rt; seen, want);
}

/// The text that is seen is what is wanted.
fn assert_text(rt: &impl Abort, seen: &str, want: &str) {
    assert_eq!(rt; seen, want);
}

/// The bytes are those of the text.
fn assert_bytes(rt: &impl Abort, seen: &[u8], want: &str) {
    assert_text(rt, text(rt, seen), want);
}
