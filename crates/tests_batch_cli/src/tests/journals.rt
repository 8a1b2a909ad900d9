//! What the journal of a run has.
use super::entries::{assert_entries, seats_of};
use super::{assert_bytes, assert_is, ran};
use batch_cli::Free;

// It catches an event that is filed twice or not at all, one with another answer than was printed, and a job that is
// left open.
#[test]
fn a_journal_has_the_events_of_each_line(rt: HostRuntime) {
    let script = b"0 open 1\n0 put 1 a 5\n0 getorelse 1 b 7\n0 count 1 all\n";
    let (out, journal) = ran(&rt, script, &Free);
    assert_bytes(&rt, &out, "1 ok\n2 none\n3 some 7\n4 count 2\n");
    assert_is(&rt, journal.len(), 6);
    let entries = "open 1: ok\nput 1 a 5: none\nget 1 b: none\nput_if_absent 1 b 7: none\n\
        freeze 1: job 0 of 2\nfinish 0: count 2\n";
    assert_entries(&rt, &journal, 0, entries);
}

// Two clients have 64 seats between them. It catches seats that are numbered in another way than clients, an entry that
// is filed at another's seat, and entries of clients that have no lines.
#[test]
fn each_seat_has_the_events_of_its_client(rt: HostRuntime) {
    let script = b"63 open 1\n0 open 2\n63 put 1 a 5\n0 put 2 a 6\n0 replaceif 2 a 6 8\n\
        63 snap 1 3\n63 list 3\n0 fold 2 sum\n0 drop 2\n";
    let (out, journal) = ran(&rt, script, &Free);
    let replies = "1 ok\n2 ok\n3 none\n4 none\n5 true\n6 ok\n7 pairs a=5\n8 item 8\n9 ok\n";
    assert_bytes(&rt, &out, replies);
    let first = "open 2: ok\nput 2 a 6: none\nreplace_if 2 a 6 8: true\nfreeze 2: job 0 of 1\n\
        finish 0: item 8\ndrop 2: ok\n";
    assert_entries(&rt, &journal, 0, first);
    let last = "open 1: ok\nput 1 a 5: none\nsnapshot 1 3: ok\nview 3: pairs 1\n";
    assert_entries(&rt, &journal, 63, last);
    assert_is(&rt, journal.len(), 10);
    for seat in seats_of(&rt, &journal) {
        assert!(rt; seat == 0 || seat == 63);
    }
}
