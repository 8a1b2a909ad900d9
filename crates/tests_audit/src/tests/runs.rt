//! The journals of runs: their text, and that it is legal.
use crate::tests::assert_verdict;
use batch_cli::{Crew, Free, Journal, parse_script, run_script};
use journal_text::journal_text;
use std::panic::Expect;
use std::process::Abort;
use std::sync::Wait;
use std::thread::Threads;

/// The crew of the bulk verbs.
pub(super) const CREW: Crew = Crew {
    workers: 2,
    grain: 1,
    patience: 1_000,
};

/// The journal of the script's run. Its entries are lawful, as its text asks, by the contract of `run_script`.
pub(super) fn journal_of<R: AllocGlobal + Abort + Threads + Wait + Sync>(
    rt: &R,
    script: &[u8],
) -> Journal {
    let alloc = rt.alloc();
    let script = parse_script(alloc, script).expect(rt, "no script");
    let mut out = Vec::new(alloc);
    run_script(rt, alloc, &script, CREW, &mut out, &Free).expect(rt, "no run")
}

/// The text of the journal of the script's run.
pub(super) fn written<R: AllocGlobal + Abort + Threads + Wait + Sync>(
    rt: &R,
    script: &[u8],
) -> Vec<u8> {
    let journal = journal_of(rt, script);
    journal_text(rt.alloc(), &journal).expect(rt, "no text")
}

/// Scripts, the texts of the journals of their runs, and the verdicts on these.
const TEXTS: [(&[u8], &str, &str); 4] = [
    (
        b"0 open 1\n0 put 1 a 5\n0 put 1 a 7\n0 get 1 a\n",
        "{\"call\":\"open 1\",\"entry\":1,\"reply\":\"ok\",\"seat\":0}
{\"call\":\"put 1 a 5\",\"entry\":2,\"reply\":\"none\",\"seat\":0}
{\"call\":\"put 1 a 7\",\"entry\":3,\"reply\":\"some 5\",\"seat\":0}
{\"call\":\"get 1 a\",\"entry\":4,\"reply\":\"some 7\",\"seat\":0}
{\"entries\":4}
",
        "legal 4",
    ),
    (
        b"0 open 1\n0 put 1 a 4\n0 filter 1 even 2\n",
        "{\"call\":\"open 1\",\"entry\":1,\"reply\":\"ok\",\"seat\":0}
{\"call\":\"put 1 a 4\",\"entry\":2,\"reply\":\"none\",\"seat\":0}
{\"call\":\"freeze filter 1 even 2\",\"entry\":3,\"reply\":\"job 0\",\"seat\":0}
{\"call\":\"finish 0\",\"entry\":4,\"reply\":\"count 1\",\"seat\":0}
{\"entries\":4}
",
        "legal 4",
    ),
    (
        b"7 getorelse 1 a\"\\ -3\n7 open 1\n7 getorelse 1 a\"\\ -3\n7 removeif 1 a\"\\ 2\n",
        "{\"call\":\"get 1 a\\\"\\\\\",\"entry\":1,\"reply\":\"refused NoHandle\",\"seat\":7}
{\"call\":\"open 1\",\"entry\":2,\"reply\":\"ok\",\"seat\":7}
{\"call\":\"get 1 a\\\"\\\\\",\"entry\":3,\"reply\":\"none\",\"seat\":7}
{\"call\":\"putifabsent 1 a\\\"\\\\ -3\",\"entry\":4,\"reply\":\"none\",\"seat\":7}
{\"call\":\"removeif 1 a\\\"\\\\ 2\",\"entry\":5,\"reply\":\"false\",\"seat\":7}
{\"entries\":5}
",
        "legal 5",
    ),
    (b"# no commands\n", "{\"entries\":0}\n", "legal 0"),
];

#[test]
fn journals_have_their_texts(rt: HostRuntime) {
    for (script, wanted, verdict) in TEXTS {
        let text = written(&rt, script);
        assert_eq!(rt; str::from_utf8(&text).ok(), Some(wanted));
        assert_verdict(&rt, &text, verdict);
    }
}

/// Each verb once and again, by two clients at the same time.
#[test]
fn journals_of_all_verbs_are_legal(rt: HostRuntime) {
    let text = written(
        &rt,
        b"0 open 1\n0 put 1 a 1\n0 put 1 b -2\n0 replace 1 a 3\n0 replaceif 1 a 3 4\n0 remove 1 c\n0 removeif 1 a 9\n0 size 1\n0 snap 1 3\n0 count 1 odd\n0 exists 1 lt:0\n0 forall 1 ge:-2\n0 find 1 prefix:b\n0 filter 1 eq:4 4\n0 mapvalues 1 add:7 5\n0 mapvalues 1 keylen 6\n0 fold 1 least\n0 fold 1 greatest\n0 fold 4 sum\n0 clear 1\n0 drop 3\n0 drop 3\n0 fold 1 sum\n63 open 2\n63 put 2 z 1\n63 putifabsent 2 z 2\n63 getorelse 2 z 3\n63 list 2\n63 count 2 all\n63 find 2 even\n63 mapvalues 2 set:5 2\n",
    );
    // a bulk verb makes two entries, but for the one that is refused
    assert_verdict(&rt, &text, "legal 44");
}
