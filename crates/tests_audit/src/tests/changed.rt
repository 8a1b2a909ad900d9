//! Journals with one byte changed, judged as a plain judge judges them.
use crate::tests::model::judged;
use crate::tests::rows::FIRST;
use crate::tests::runs::written;
use crate::tests::verdict_on;
use audit::Verdict;
use std::alloc::AllocError;
use std::panic::Expect;
use std::process::Abort;
use test_keys::Random;

/// How many random scripts are run.
const RUNS: u32 = 1_000;

/// How many lines each has, and how many bytes of its journal are changed, one at a time.
const LINES: u32 = 12;

const CHANGES: u32 = 4;

const KEYS: [&str; 5] = ["a", "b", "\"", "\\", "c=\"\\"];

/// The verbs that the plain judge knows, and whether a key and a value stand behind the handle.
const PLAIN: [(&str, bool, bool); 8] = [
    ("open", false, false),
    ("size", false, false),
    ("get", true, false),
    ("remove", true, false),
    ("put", true, true),
    ("putifabsent", true, true),
    ("replace", true, true),
    ("getorelse", true, true),
];

/// Verbs with what stands behind their handle.
const WHOLE: [(&str, &str); 14] = [
    ("open", ""),
    ("snap", " 4"),
    ("drop", ""),
    ("clear", ""),
    ("list", ""),
    ("put", " a 3"),
    ("put", " b -8"),
    ("count", " even"),
    ("exists", " lt:0"),
    ("forall", " ge:-8"),
    ("find", " all"),
    ("filter", " odd 5"),
    ("mapvalues", " add:1 6"),
    ("fold", " sum"),
];

/// The bytes that take the place of others.
const DIGITS: [u8; 10] = *b"0123456789";

const LETTERS: [u8; 4] = *b"abcd";

const MARKS: [u8; 16] = *b" \"\\-+0aenu{}:,\n\xff";

/// Adds a line with a verb that the plain judge knows.
fn push_plain(text: &mut String, random: &mut Random) -> Result<(), AllocError> {
    let (verb, has_key, has_value) = PLAIN[random.next(8) as usize % 8];
    let (client, handle) = (random.next(3), random.next(3));
    write!(text, "{client} {verb} {handle}")?;
    if has_key {
        write!(text, " {}", KEYS[random.next(5) as usize % 5])?;
    }
    if has_value {
        write!(text, " {}", i64::from(random.next(21)) - 10)?;
    }
    text.push_str("\n")
}

/// A script of the verbs that the plain judge knows.
fn plain_script<R: AllocGlobal + Abort>(rt: &R, random: &mut Random) -> String {
    let mut text = String::new(rt.alloc());
    for _ in 0..LINES {
        push_plain(&mut text, random).expect(rt, "no room");
    }
    text
}

/// Adds a line with a verb of any kind.
fn push_any(text: &mut String, random: &mut Random) -> Result<(), AllocError> {
    let (verb, rest) = WHOLE[random.next(14) as usize % 14];
    let (client, handle) = (random.next(3), random.next(7));
    write!(text, "{client} {verb} {handle}{rest}\n")
}

/// A script of all kinds of verbs.
fn whole_script<R: AllocGlobal + Abort>(rt: &R, random: &mut Random) -> String {
    let mut text = String::new(rt.alloc());
    for _ in 0..LINES {
        push_any(&mut text, random).expect(rt, "no room");
    }
    text
}

/// Another byte of the same kind.
fn another(byte: u8, random: &mut Random) -> u8 {
    match byte {
        b'0'..=b'9' => DIGITS[random.next(10) as usize % 10],
        b'a' | b'b' | b'c' => LETTERS[random.next(4) as usize % 4],
        _ => MARKS[random.next(16) as usize % 16],
    }
}

/// The audit judges the text as the plain judge does.
fn assert_judged<R: AllocGlobal + Abort>(rt: &R, text: &[u8]) {
    assert_eq!(rt; verdict_on(rt, text), judged(rt, text));
}

/// Puts the byte into its place, if there is one.
fn put(text: &mut [u8], place: usize, byte: u8) {
    if let Some(there) = text.get_mut(place) {
        *there = byte;
    }
}

/// So it does with some bytes changed, one at a time.
fn assert_changes_judged<R: AllocGlobal + Abort>(rt: &R, text: &mut [u8], random: &mut Random) {
    for _ in 0..CHANGES {
        let place = (random.next(1 << 16) as usize)
            .checked_rem(text.len())
            .unwrap_or(0);
        let Some(old) = text.get(place).copied() else {
            return;
        };
        put(text, place, another(old, random));
        assert_judged(rt, text);
        put(text, place, old);
    }
}

#[test]
fn changed_journals_are_judged(rt: HostRuntime) {
    let mut random = Random(2026);
    for _ in 0..RUNS {
        let script = plain_script(&rt, &mut random);
        let mut text = written(&rt, script.as_bytes());
        assert_judged(&rt, &text);
        assert_changes_judged(&rt, &mut text, &mut random);
    }
}

#[test]
fn journals_of_random_scripts_are_legal(rt: HostRuntime) {
    let mut random = Random(2027);
    for _ in 0..RUNS {
        let script = whole_script(&rt, &mut random);
        let text = written(&rt, script.as_bytes());
        assert!(rt; matches!(verdict_on(&rt, &text), Verdict::Legal(_)));
    }
}

/// Each bit of each byte of a journal, turned.
#[test]
fn turned_bytes_are_judged(rt: HostRuntime) {
    let mut text = Vec::from_slice(rt.alloc(), FIRST).expect(&rt, "no text");
    for (place, byte) in FIRST.iter().enumerate() {
        for bit in [1, 2, 4, 8, 16, 32, 64, 128] {
            put(&mut text, place, *byte ^ bit);
            assert_judged(&rt, &text);
        }
        put(&mut text, place, *byte);
    }
}
