//! What the tests share: the verdict on a text, in words.
use audit::{Verdict, audit};
use std::panic::Expect;
use std::process::Abort;

mod changed;
mod hostile;
mod lines;
mod model;
mod rows;
mod runs;

/// The verdict on the text.
fn verdict_on<R: AllocGlobal + Abort>(rt: &R, text: &[u8]) -> Verdict {
    audit(rt.alloc(), text).expect(rt, "no verdict")
}

/// The verdict on the text, as the program prints it, is this one. An assertion is proved wherever it is written out, so
/// it stands here once.
fn assert_verdict<R: AllocGlobal + Abort>(rt: &R, text: &[u8], wanted: &str) {
    let alloc = rt.alloc();
    let shown = match verdict_on(rt, text) {
        Verdict::Legal(entries) => format!(in alloc; "legal {entries}"),
        Verdict::Bad(line) => format!(in alloc; "bad {line}"),
    };
    let printed = shown.expect(rt, "no room");
    assert_eq!(rt; printed.as_str(), wanted);
}
