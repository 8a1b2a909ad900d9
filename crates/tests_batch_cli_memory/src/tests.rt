//! With requests for memory refused, by writers and readers that fail, and with no job left.
mod failures;
mod jobs;
mod memory;

ghost use Rattle.batch_cli.specs.CommandLine.{AreInRange};

use batch_cli::{Crew, Options, execute};
use std::fmt::Debug;
use std::panic::Expect;
use std::process::Abort;
use std::sync::Wait;
use std::thread::Threads;

/// The crew of the bulk verbs. It takes the smallest pieces that there are, so that small maps have several.
const CREW: Crew = Crew {
    workers: 2,
    grain: 1,
    patience: 1_000,
};

/// The options of a run with that crew.
fn plain() -> Options
    ensures { AreInRange result.workers result.grain }
{
    Options {
        workers: 2,
        grain: 1,
        audit: false,
        journal: None,
        file: None,
    }
}

/// The status of a script, and what it writes to standard output and standard error.
fn executed<R: AllocGlobal + Threads + Wait + Sync>(
    rt: &R,
    script: &[u8],
) -> (u8, Vec<u8>, Vec<u8>) {
    let alloc = rt.alloc();
    let (mut out, mut err) = (Vec::new(alloc), Vec::new(alloc));
    let (status, journal) = execute(rt, alloc, &plain(), script, &mut out, &mut err);
    drop(journal);
    (status, out, err)
}

/// The bytes as text.
fn text<'b>(rt: &impl Abort, bytes: &'b [u8]) -> &'b str {
    str::from_utf8(bytes).expect(rt, "no text")
}

/// What is seen is what is wanted. An assertion is proved wherever it is written out, so it stands here once.
fn assert_is<T: PartialEq + Debug + Drop>(rt: &impl Abort, seen: T, want: T) {
    assert_eq!(rt; seen, want);
}

/// The text that is seen is what is wanted.
fn assert_text(rt: &impl Abort, seen: &str, want: &str) {
    assert_eq!(rt; seen, want);
}

/// The bytes are those of the text.
fn assert_bytes(rt: &impl Abort, seen: &[u8], want: &str) {
    assert_text(rt, text(rt, seen), want);
}
