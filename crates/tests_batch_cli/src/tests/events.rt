//! Which entries of the journal a statement makes.
use super::entries::assert_entries;
use super::{CREW, assert_bytes};
use batch_cli::{Free, ScriptClient, parse_script, script_has_one_output, text_has_one_script};
use handles::Limits;
use locked_map::{MOST_SEATS, with_clients};
use script::{CommandLine, LineReply, push_line};
use std::panic::Expect;
use std::process::Abort;
use std::sync::Wait;
use std::thread::Threads;

// Two pairs fill a map.
const SMALL: Limits = Limits {
    pairs: 2,
    entries: 20,
};

/// The reply to the last of the lines is this.
fn assert_last<R: AllocGlobal + Abort>(
    rt: &R,
    lines: &[CommandLine],
    replies: &[LineReply],
    wanted: &str,
) {
    let mut last = Vec::new(rt.alloc());
    for (line, reply) in lines.iter().zip(replies) {
        last.clear();
        push_line(&mut last, line.number, reply).expect(rt, "no room");
    }
    assert_bytes(rt, &last, wanted);
}

/// Client 0 runs its script over a small map: the last line has this reply, and the lines make these entries.
fn ends_with<R: AllocGlobal + Abort + Threads + Wait + Sync>(
    rt: &R,
    script: &[u8],
    reply: &str,
    entries: &str,
) {
    let alloc = rt.alloc();
    let script = parse_script(alloc, script).expect(rt, "no script");
    let mut clients = Vec::new(alloc);
    let client = ScriptClient {
        number: 0,
        lines: script.lines(),
        crew: CREW,
        gate: &Free,
    };
    clients.push(client).expect(rt, "no room");
    assert!(rt; clients.len() <= MOST_SEATS as usize);
    let (outs, closed) = with_clients(rt, alloc, SMALL, clients).expect(rt, "no journal");
    assert_entries(rt, &closed.journal, 0, entries);
    let out = outs.into_iter().next().expect(rt, "no client");
    assert_last(rt, script.lines(), &out.expect(rt, "no replies"), reply);
}

#[test]
fn getorelse_makes_two_entries_only_where_its_get_finds_nothing(rt: HostRuntime) {
    ends_with(
        &rt,
        b"0 getorelse 9 a 1",
        "1 refused NoHandle\n",
        "get 9 a: refused NoHandle\n",
    );
    ends_with(
        &rt,
        b"0 open 1\n0 getorelse 1 a 1",
        "2 some 1\n",
        "open 1: ok\nget 1 a: none\nput_if_absent 1 a 1: none\n",
    );
    ends_with(
        &rt,
        b"0 open 1\n0 put 1 a 5\n0 getorelse 1 a 1",
        "3 some 5\n",
        "open 1: ok\nput 1 a 5: none\nget 1 a: some 5\n",
    );
}

#[test]
fn a_getorelse_that_finds_no_room_is_full(rt: HostRuntime) {
    let made = "open 1: ok\nput 1 a 5: none\nput 1 b 6: none\nget 1 c: none\n\
        put_if_absent 1 c 7: refused Full\n";
    let full = b"0 open 1\n0 put 1 a 5\n0 put 1 b 6\n0 getorelse 1 c 7";
    ends_with(&rt, full, "4 refused Full\n", made);
}

#[test]
fn a_list_makes_one_entry(rt: HostRuntime) {
    ends_with(
        &rt,
        b"0 open 1\n0 put 1 b 2\n0 put 1 a 1\n0 list 1",
        "4 pairs a=1 b=2\n",
        "open 1: ok\nput 1 b 2: none\nput 1 a 1: none\nview 1: pairs 2\n",
    );
    ends_with(
        &rt,
        b"0 list 9",
        "1 refused NoHandle\n",
        "view 9: refused NoHandle\n",
    );
}

#[test]
fn a_bulk_verb_makes_two_entries_unless_its_freeze_is_refused(rt: HostRuntime) {
    ends_with(
        &rt,
        b"0 count 9 all",
        "1 refused NoHandle\n",
        "freeze 9: refused NoHandle\n",
    );
    ends_with(
        &rt,
        b"0 open 1\n0 count 1 all",
        "2 count 0\n",
        "open 1: ok\nfreeze 1: job 0 of 0\nfinish 0: count 0\n",
    );
    ends_with(
        &rt,
        b"0 open 1\n0 put 1 a 4\n0 filter 1 even 2",
        "3 count 1\n",
        "open 1: ok\nput 1 a 4: none\nfreeze 1: job 0 of 1\nfinish 0: count 1\n",
    );
    ends_with(
        &rt,
        b"0 open 1\n0 filter 1 even 1",
        "2 refused Taken\n",
        "open 1: ok\nfreeze 1: refused Taken\n",
    );
}

#[test]
fn laws_are_calls_that_do_nothing() {
    script_has_one_output();
    text_has_one_script();
}
