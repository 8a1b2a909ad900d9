//! Clients as threads, and their lines.
use super::entries::seats_of;
use super::gates::{Ahead, Holding, Meeting, Recorder};
use super::{assert_bytes, assert_is, lines, ran, text};
use batch_cli::Free;
use std::alloc::{AllocError, Global};
use std::panic::Expect;

// Were the clients run one after another, the first line would wait until its limit of turns was reached.
#[test]
fn two_clients_run_at_once(rt: HostRuntime) {
    let gate = Meeting::new();
    let (out, journal) = ran(&rt, b"0 open 1\n1 open 2\n", &gate);
    assert_is(&rt, gate.is_missed(), false);
    assert_bytes(&rt, &out, "1 ok\n2 ok\n");
    assert_is(&rt, journal.len(), 2);
}

// It catches a client that asks behind its line: handle 1 would be open when line 2 has been asked for, and line 3 would
// find it.
#[test]
fn a_line_waits_for_its_gate(rt: HostRuntime) {
    let gate = Ahead::new();
    let script = b"0 open 1\n1 size 1\n1 size 1\n1 open 2\n";
    let (out, _) = ran(&rt, script, &gate);
    assert_is(&rt, gate.is_missed(), false);
    let replies = "1 ok\n2 refused NoHandle\n3 refused NoHandle\n4 ok\n";
    assert_bytes(&rt, &out, replies);
}

// It catches a client that runs the lines of others, one that does not ask before each of its lines, and one that takes
// them in another order or twice.
#[test]
fn each_line_is_asked_for_once_by_its_client(rt: HostRuntime) {
    let alloc = rt.alloc();
    let script = b"2 open 3\n0 open 1\n1 open 2\n# a comment\n0 size 1\n2 size 3\n\n1 size 2\n\
        2 list 3\n";
    let gate = Recorder::new(alloc, 16).expect(&rt, "no room");
    let (out, _) = ran(&rt, script, &gate);
    let replies = "1 ok\n2 ok\n3 ok\n5 count 0\n6 count 0\n8 count 0\n9 pairs\n";
    assert_bytes(&rt, &out, replies);
    assert_is(&rt, gate.count(), 7);
    let lines = [
        [2, 5].as_slice(),
        [3, 8].as_slice(),
        [1, 6, 9].as_slice(),
        [].as_slice(),
    ];
    for (client, wanted) in (0..).zip(lines) {
        let asked = gate.lines_of(alloc, client).expect(&rt, "no list");
        assert_eq!(&rt; asked.as_slice(), wanted, "the lines of client {client}");
    }
}

// The lines of client 0 begin when the last one of client 1 does. It catches replies that are written as they come or
// client by client, and a reply at another's line.
#[test]
fn replies_stand_in_order_of_line_numbers(rt: HostRuntime) {
    let script = b"0 open 1\n1 open 2\n1 put 2 a 5\n0 put 1 a 6\n1 get 2 a\n0 get 1 a\n1 size 2\n";
    let gate = Holding::new(7);
    let (out, journal) = ran(&rt, script, &gate);
    assert_is(&rt, gate.is_missed(), false);
    let replies = "1 ok\n2 ok\n3 none\n4 none\n5 some 5\n6 some 6\n7 count 1\n";
    assert_bytes(&rt, &out, replies);
    let seats = seats_of(&rt, &journal);
    assert_is(&rt, seats.len(), 7);
    assert!(rt; seats.as_slice().starts_with(&[1, 1, 1]));
}

// The replies to `count` lines that open one handle.
fn replies_to(alloc: Global, count: u32) -> Result<String, AllocError> {
    let mut replies = String::from_str(alloc, "1 ok\n")?;
    for line in 2..count.saturating_add(1) {
        write!(replies, "{line} refused Taken\n")?;
    }
    Ok(replies)
}

// It catches a limit on lines or entries that is too small, and a reply that is lost among many.
#[test]
fn a_handle_is_opened_once_in_65_536_lines(rt: HostRuntime) {
    let alloc = rt.alloc();
    let line = b"0 open 1\n".as_slice();
    let script = lines(alloc, line, line, 65_536).expect(&rt, "no script");
    let replies = replies_to(alloc, 65_536).expect(&rt, "no replies");
    let (out, journal) = ran(&rt, &script, &Free);
    assert!(rt; text(&rt, &out) == replies.as_str());
    assert_is(&rt, journal.len(), 65_536);
}

// It catches a run that wants a client, and one that writes or files something for none.
#[test]
fn an_empty_script_has_an_empty_journal(rt: HostRuntime) {
    for script in [b"".as_slice(), b"# nothing\n\n".as_slice()] {
        let (out, journal) = ran(&rt, script, &Free);
        assert_bytes(&rt, &out, "");
        assert!(rt; journal.is_empty());
    }
}
