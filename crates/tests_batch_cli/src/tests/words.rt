//! What the words of a command line give. Texts of help and of refusals are cases of the built program.
use super::assert_text;
use batch_cli::{ArgFault, Options, options};
use std::alloc::{AllocError, Global};
use std::panic::Expect;
use std::process::Abort;

/// A name that is given, or none.
fn named(name: &Option<String>) -> &str {
    match name {
        Some(name) => name.as_str(),
        None => "none",
    }
}

/// The words' options.
fn shown(alloc: Global, options: &Options) -> Result<String, AllocError> {
    format!(in alloc;
        "{} workers, grain {}, audit {}, journal {}, file {}",
        options.workers,
        options.grain,
        options.audit,
        named(&options.journal),
        named(&options.file)
    )
}

/// The words' options, or the fault in them as text.
fn said(alloc: Global, words: &[&str]) -> Result<String, AllocError> {
    match options(alloc, words) {
        Ok(options) => shown(alloc, &options),
        Err(fault) => message_of(alloc, &fault),
    }
}

/// The first line of the message about the fault.
fn message_of(alloc: Global, fault: &ArgFault) -> Result<String, AllocError> {
    match fault {
        ArgFault::Help(text) => first_line(alloc, "help", text),
        ArgFault::Parser(text) => first_line(alloc, "parser", text),
        ArgFault::NotText => String::from_str(alloc, "no text"),
        ArgFault::AuditJournal => String::from_str(alloc, "audit with journal"),
        ArgFault::Memory => String::from_str(alloc, "memory"),
    }
}

/// The first line of the text, behind the word.
fn first_line(alloc: Global, word: &str, text: &str) -> Result<String, AllocError> {
    format!(in alloc; "{word}: {}", text.lines().next().unwrap_or(""))
}

/// This is said of the words.
fn assert_said<R: AllocGlobal + Abort>(rt: &R, words: &[&str], wanted: &str) {
    let seen = said(rt.alloc(), words).expect(rt, "no room");
    assert_text(rt, &seen, wanted);
}

/// Words, and what is said of them.
const GIVEN: [(&[&str], &str); 10] = [
    (
        &[],
        "4 workers, grain 1024, audit false, journal none, file none",
    ),
    (
        &["a.trie"],
        "4 workers, grain 1024, audit false, journal none, file a.trie",
    ),
    (
        &["--", "--help"],
        "4 workers, grain 1024, audit false, journal none, file --help",
    ),
    (
        &["--workers", "1", "--grain=1"],
        "1 workers, grain 1, audit false, journal none, file none",
    ),
    (
        &["a", "--grain", "65536", "--workers=16", "--journal", "b"],
        "16 workers, grain 65536, audit false, journal b, file a",
    ),
    (
        &["--audit", "b"],
        "4 workers, grain 1024, audit true, journal none, file b",
    ),
    (&["--audit", "--journal", "b"], "audit with journal"),
    (
        &["--audit", "--journal", "b", "--workers", "0"],
        "parser: error: invalid value '0' for '--workers <N>': 0 is not in 1..=16",
    ),
    (
        &["--help"],
        "help: Runs a script of clients on a table of maps, and prints the reply to each line",
    ),
    (&["a", "--version"], "help: trierun 0.1.0"),
];

#[test]
fn words_give_the_options(rt: HostRuntime) {
    for (words, wanted) in GIVEN {
        assert_said(&rt, words, wanted);
    }
}

/// Words of which one is refused, and the message about that one.
const REFUSED: [(&[&str], &str); 8] = [
    (
        &["--workers", "17"],
        "'17' for '--workers <N>': 17 is not in 1..=16",
    ),
    (
        &["--workers", "x"],
        "'x' for '--workers <N>': invalid digit found in string",
    ),
    (
        &["--workers=-1"],
        "'-1' for '--workers <N>': -1 is not in 1..=16",
    ),
    (
        &["--grain", "0"],
        "'0' for '--grain <N>': 0 is not in 1..=65536",
    ),
    (
        &["--grain", "65537"],
        "'65537' for '--grain <N>': 65537 is not in 1..=65536",
    ),
    (
        &["--grain", "4294967297"],
        "'4294967297' for '--grain <N>': 4294967297 is not in 1..=65536",
    ),
    (
        &["--grain", "18446744073709551617"],
        "'18446744073709551617' for '--grain <N>': number too large to fit in target type",
    ),
    (
        &["--grain="],
        "'' for '--grain <N>': cannot parse integer from empty string",
    ),
];

/// One of the words is refused, with this message about it.
fn assert_refused<R: AllocGlobal + Abort>(rt: &R, words: &[&str], wanted: &str) {
    let wanted = format!(in rt.alloc(); "parser: error: invalid value {wanted}");
    assert_said(rt, words, &wanted.expect(rt, "no room"));
}

#[test]
fn other_words_are_refused(rt: HostRuntime) {
    for (words, wanted) in REFUSED {
        assert_refused(&rt, words, wanted);
    }
    let wanted = "parser: error: unexpected argument 'b' found";
    assert_said(&rt, &["a", "b"], wanted);
}
