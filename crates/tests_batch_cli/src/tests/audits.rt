//! Runs whose journal is wanted, and audits.

use super::{assert_bytes, assert_is, plain};
use batch_cli::{Options, execute, write_journal};
use std::panic::Expect;
use std::process::Abort;
use std::sync::Wait;
use std::thread::Threads;

// A script of one client, and the journal of its run.
const SCRIPT: &[u8] = b"0 open 1\n0 put 1 a 5\n0 put 1 a 7\n0 get 1 a\n";

const JOURNAL: &str = "{\"call\":\"open 1\",\"entry\":1,\"reply\":\"ok\",\"seat\":0}
{\"call\":\"put 1 a 5\",\"entry\":2,\"reply\":\"none\",\"seat\":0}
{\"call\":\"put 1 a 7\",\"entry\":3,\"reply\":\"some 5\",\"seat\":0}
{\"call\":\"get 1 a\",\"entry\":4,\"reply\":\"some 7\",\"seat\":0}
{\"entries\":4}
";

/// The options of a run whose journal is wanted.
fn journalled<R: AllocGlobal + Abort>(rt: &R) -> Options {
    let name = String::from_str(rt.alloc(), "j").expect(rt, "no name");
    Options {
        journal: Some(name),
        ..plain()
    }
}

/// The options of an audit.
fn auditing() -> Options {
    Options {
        audit: true,
        ..plain()
    }
}

#[test]
fn a_run_keeps_its_journal(rt: HostRuntime) {
    let alloc = rt.alloc();
    let (mut out, mut err) = (Vec::new(alloc), Vec::new(alloc));
    let options = journalled(&rt);
    let (status, journal) = execute(&rt, alloc, &options, SCRIPT, &mut out, &mut err);
    assert_is(&rt, (status, err.len()), (0, 0));
    assert_bytes(&rt, &out, "1 ok\n2 none\n3 some 5\n4 some 7\n");
    let journal = journal.expect(&rt, "no journal");
    assert_bytes(&rt, &journal, JOURNAL);
}

/// A run of the script has this status and keeps no journal.
fn assert_keeps_none<R: AllocGlobal + Abort + Threads + Wait + Sync>(
    rt: &R,
    options: &Options,
    script: &[u8],
    wanted: u8,
) {
    let alloc = rt.alloc();
    let (mut out, mut err) = (Vec::new(alloc), Vec::new(alloc));
    let (status, journal) = execute(rt, alloc, options, script, &mut out, &mut err);
    assert_is(rt, (status, journal.is_some()), (wanted, false));
}

#[test]
fn a_run_that_fails_keeps_no_journal(rt: HostRuntime) {
    assert_keeps_none(&rt, &journalled(&rt), b"0 open", 2);
    assert_keeps_none(&rt, &plain(), SCRIPT, 0);
}

/// The audit of the text has this status, and writes the verdict, and to standard error what is wrong. It keeps no
/// journal.
fn assert_audited<R: AllocGlobal + Abort + Threads + Wait + Sync>(
    rt: &R,
    journal: &str,
    verdict: &str,
    fault: &str,
    wanted: u8,
) {
    let alloc = rt.alloc();
    let (mut out, mut err) = (Vec::new(alloc), Vec::new(alloc));
    let text = journal.as_bytes();
    let (status, kept) = execute(rt, alloc, &auditing(), text, &mut out, &mut err);
    assert_is(rt, (status, kept.is_some()), (wanted, false));
    assert_bytes(rt, &out, verdict);
    assert_bytes(rt, &err, fault);
}

/// The journal with this text in the place of its first text of the other kind.
fn journal_with<R: AllocGlobal + Abort>(rt: &R, from: &str, to: &str) -> String {
    let (before, behind) = JOURNAL.split_once(from).expect(rt, "no such text");
    format!(in rt.alloc(); "{before}{to}{behind}").expect(rt, "no journal")
}

#[test]
fn a_journal_is_audited(rt: HostRuntime) {
    assert_audited(&rt, JOURNAL, "legal 4\n", "", 0);
    let third = journal_with(&rt, "some 5", "some 6");
    let fault = "trierun: line 3: no run has this call and reply after the lines before\n";
    assert_audited(&rt, &third, "bad 3\n", fault, 3);
    let last = journal_with(&rt, "{\"entries\":4}\n", "");
    let fault = "trierun: line 5: the text ends before its last line, {\"entries\":N}\n";
    assert_audited(&rt, &last, "bad 5\n", fault, 3);
}

#[test]
fn a_file_that_cannot_be_made_is_named(rt: HostRuntime) {
    let mut err = Vec::new(rt.alloc());
    let status = write_journal(&rt, "absent/journal", JOURNAL.as_bytes(), &mut err);
    assert_is(&rt, status, 1);
    let wanted =
        "trierun: cannot write absent/journal\ntrierun: No such file or directory (os error 2)\n";
    assert_bytes(&rt, &err, wanted);
    let status = write_journal(&rt, "/dev/null", JOURNAL.as_bytes(), &mut err);
    assert_is(&rt, (status, err.len()), (0, wanted.len()));
}
