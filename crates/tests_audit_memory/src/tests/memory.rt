//! Audits with no memory, with a little, and so on.
ghost use Rattle.journal_text.specs.Entries.{AreLawful};

use audit::{Verdict, audit};
use batch_cli::{Crew, Free, Journal, parse_script, run_script};
use journal_text::{ProgramJournal, journal_text};
use std::alloc::Global;
use std::panic::Expect;
use std::process::Abort;
use std::sync::Wait;
use std::thread::Threads;
use test_keys::Shortage;

/// How many bytes are given after each refusal, and how often it is tried at most.
const STEP: usize = 32;

const TRIES: u32 = 4_096;

/// A journal of a bulk verb with a target, of each kind of event, and of a find that two pairs could answer.
const BULK: &[u8] = b"{\"call\":\"open 1\",\"entry\":1,\"reply\":\"ok\",\"seat\":0}
{\"call\":\"put 1 a\\\"\\\\=b 4\",\"entry\":2,\"reply\":\"none\",\"seat\":63}
{\"call\":\"put 1 c -9223372036854775808\",\"entry\":3,\"reply\":\"none\",\"seat\":0}
{\"call\":\"freeze filter 1 even 2\",\"entry\":4,\"reply\":\"job 0\",\"seat\":0}
{\"call\":\"freeze find 1 even\",\"entry\":5,\"reply\":\"job 1\",\"seat\":1}
{\"call\":\"remove 1 c\",\"entry\":6,\"reply\":\"some -9223372036854775808\",\"seat\":1}
{\"call\":\"finish 0\",\"entry\":7,\"reply\":\"count 2\",\"seat\":0}
{\"call\":\"finish 1\",\"entry\":8,\"reply\":\"pair c -9223372036854775808\",\"seat\":1}
{\"call\":\"view 2\",\"entry\":9,\"reply\":\"pairs a\\\"\\\\=b=4 c=-9223372036854775808\",\"seat\":1}
{\"call\":\"freeze fold 2 sum\",\"entry\":10,\"reply\":\"job 2\",\"seat\":1}
{\"call\":\"abandon 2\",\"entry\":11,\"reply\":\"ok\",\"seat\":1}
{\"call\":\"open 1\",\"entry\":12,\"reply\":\"refused Taken\",\"seat\":0}
{\"call\":\"get 3 a\",\"entry\":13,\"reply\":\"refused NoHandle\",\"seat\":0}
{\"call\":\"open 1024\",\"entry\":14,\"reply\":\"refused BadNumber\",\"seat\":0}
{\"call\":\"snap 1 5\",\"entry\":15,\"reply\":\"ok\",\"seat\":0}
{\"call\":\"drop 1\",\"entry\":16,\"reply\":\"ok\",\"seat\":0}
{\"entries\":16}
";

/// The crew of the bulk verbs.
const CREW: Crew = Crew {
    workers: 2,
    grain: 1,
    patience: 1_000,
};

/// The journal of the script's run. Its entries are lawful by the contract of `run_script` alone.
fn journal_of<R: AllocGlobal + Abort + Threads + Wait + Sync>(rt: &R, script: &[u8]) -> Journal
    ensures { AreLawful result }
{
    let alloc = rt.alloc();
    let script = parse_script(alloc, script).expect(rt, "no script");
    let mut out = Vec::new(alloc);
    run_script(rt, alloc, &script, CREW, &mut out, &Free).expect(rt, "no run")
}

/// How often the audit was refused memory, and its verdict then; nothing where memory is never enough.
fn audited(rt: &impl Abort, alloc: Global, text: &[u8]) -> Option<(u32, Verdict)> {
    let mut shortage = Shortage::new(alloc).expect(rt, "no list");
    for refused in 0..TRIES {
        if let Ok(verdict) = audit(alloc, text) {
            return Some((refused, verdict));
        }
        shortage.give(alloc, STEP).expect(rt, "no room");
    }
    None
}

/// How often the text of the journal was refused memory, and the text then; nothing where memory is never enough.
fn spelled(rt: &impl Abort, alloc: Global, journal: &ProgramJournal) -> Option<(u32, Vec<u8>)>
    requires { AreLawful journal.now }
{
    let mut shortage = Shortage::new(alloc).expect(rt, "no list");
    for refused in 0..TRIES {
        if let Ok(text) = journal_text(alloc, journal) {
            return Some((refused, text));
        }
        shortage.give(alloc, STEP).expect(rt, "no room");
    }
    None
}

/// With each try a request more is met. It catches an audit that takes a lack of memory for a bad line of the text.
#[test]
fn an_audit_is_refused_at_each_request(rt: HostRuntime) {
    let seen = audited(&rt, rt.alloc(), BULK);
    let (refused, verdict) = seen.expect(&rt, "memory is never enough");
    assert!(rt; refused > 0);
    assert_eq!(rt; verdict, Verdict::Legal(16));
}

/// A script of one client, and the text of the journal of its run.
const SCRIPT: &[u8] = b"0 open 1
0 put 1 a 4
0 list 1
0 filter 1 even 2
0 find 2 all
0 fold 1 sum
0 get 3 a
";

const TEXT: &[u8] = b"{\"call\":\"open 1\",\"entry\":1,\"reply\":\"ok\",\"seat\":0}
{\"call\":\"put 1 a 4\",\"entry\":2,\"reply\":\"none\",\"seat\":0}
{\"call\":\"view 1\",\"entry\":3,\"reply\":\"pairs a=4\",\"seat\":0}
{\"call\":\"freeze filter 1 even 2\",\"entry\":4,\"reply\":\"job 0\",\"seat\":0}
{\"call\":\"finish 0\",\"entry\":5,\"reply\":\"count 1\",\"seat\":0}
{\"call\":\"freeze find 2 all\",\"entry\":6,\"reply\":\"job 1\",\"seat\":0}
{\"call\":\"finish 1\",\"entry\":7,\"reply\":\"pair a 4\",\"seat\":0}
{\"call\":\"freeze fold 1 sum\",\"entry\":8,\"reply\":\"job 2\",\"seat\":0}
{\"call\":\"finish 2\",\"entry\":9,\"reply\":\"item 4\",\"seat\":0}
{\"call\":\"get 3 a\",\"entry\":10,\"reply\":\"refused NoHandle\",\"seat\":0}
{\"entries\":10}
";

/// It catches a line that is lost if memory runs out.
#[test]
fn a_text_is_refused_at_each_request(rt: HostRuntime) {
    let journal = journal_of(&rt, SCRIPT);
    let seen = spelled(&rt, rt.alloc(), &journal);
    let (refused, text) = seen.expect(&rt, "memory is never enough");
    assert!(rt; refused > 0);
    assert_eq!(rt; text.as_slice(), TEXT);
}
