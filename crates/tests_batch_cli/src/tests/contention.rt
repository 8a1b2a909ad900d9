//! Two clients that add the same keys to one handle.
use super::entries::assert_outcomes;
use super::gates::Meeting;
use super::{assert_is, assert_text, ran, text};
use batch_cli::Journal;
use std::alloc::{AllocError, Global};
use std::panic::Expect;
use std::process::Abort;
use std::sync::Wait;
use std::thread::Threads;

// How often all of it is done.
const ROUNDS: u32 = 20;

// How many keys there are.
const KEYS: u32 = 100;

// The numbers of the lines that add the key of a number, of each client two.
fn lines_of(key: u32) -> [u32; 4] {
    let first = key.saturating_mul(2).saturating_add(3);
    [
        first,
        first.saturating_add(1),
        first.saturating_add(200),
        first.saturating_add(201),
    ]
}

// Both clients open handle 1 and add all keys twice. The clients take turns in the lines, and a value is the number of
// its line.
fn script_of(alloc: Global) -> Result<String, AllocError> {
    let mut script = String::from_str(alloc, "0 open 1\n1 open 1\n")?;
    let mut line = 3u32;
    for _ in 0..2 {
        for key in 0..KEYS {
            for client in 0..2 {
                write!(script, "{client} putifabsent 1 k{key} {line}\n")?;
                line = line.saturating_add(1);
            }
        }
    }
    Ok(script)
}

// The reply at the line, without its number.
fn reply_at<'a>(rt: &impl Abort, replies: &[&'a str], line: u32) -> &'a str {
    let place = line.saturating_sub(1) as usize;
    let text = replies.get(place).expect(rt, "no such line");
    let (number, reply) = text.split_once(' ').expect(rt, "no number and reply");
    assert_is(rt, number.parse::<u32>().ok(), Some(line));
    reply
}

// The line that added the key. No other one did.
fn winner_of(rt: &impl Abort, replies: &[&str], key: u32) -> u32 {
    let mut winner = None;
    for line in lines_of(key) {
        if reply_at(rt, replies, line) == "none" {
            assert_is(rt, winner, None);
            winner = Some(line);
        }
    }
    winner.expect(rt, "nobody added the key")
}

// One line added the key, and all other lines of the key returned its value.
fn assert_added_once(rt: &impl Abort, alloc: Global, replies: &[&str], key: u32) {
    let winner = winner_of(rt, replies, key);
    let found = format!(in alloc; "some {winner}").expect(rt, "no room");
    for line in lines_of(key) {
        if line != winner {
            assert_text(rt, reply_at(rt, replies, line), &found);
        }
    }
}

// Adds the reply as a line of its own.
fn push_reply(text: &mut String, reply: &str) -> Result<(), AllocError> {
    text.push_str(reply)?;
    text.push_str("\n")
}

// The replies of the lines of a client, each on a line of its own. The clients take turns.
fn replies_to(rt: &impl Abort, alloc: Global, replies: &[&str], client: u32) -> String {
    let mut text = String::new(alloc);
    for line in 1..403 {
        if line % 2 != client {
            push_reply(&mut text, reply_at(rt, replies, line)).expect(rt, "no room");
        }
    }
    text
}

// The replies are those of the journal, and each key was added once.
fn assert_replies<R: AllocGlobal + Abort>(rt: &R, replies: &[&str], journal: &Journal) {
    assert_is(rt, (replies.len(), journal.len()), (402, 402));
    for key in 0..KEYS {
        assert_added_once(rt, rt.alloc(), replies, key);
    }
    for client in 0..2 {
        let printed = replies_to(rt, rt.alloc(), replies, client);
        assert_outcomes(rt, journal, client, &printed);
    }
}

// The lines of the text.
fn split(alloc: Global, text: &str) -> Result<Vec<&str>, AllocError> {
    let mut lines = Vec::new(alloc);
    for line in text.lines() {
        lines.push(line)?;
    }
    Ok(lines)
}

// One run.
fn one_round<R: AllocGlobal + Abort + Threads + Wait + Sync>(rt: &R, script: &str) {
    let gate = Meeting::new();
    let (out, journal) = ran(rt, script.as_bytes(), &gate);
    assert_is(rt, gate.is_missed(), false);
    let replies = split(rt.alloc(), text(rt, &out)).expect(rt, "no list");
    assert_replies(rt, &replies, &journal);
}

// It catches maps of which each client has one of its own, an update that is lost, a reply at another's line, and a
// journal that reports another answer than was printed.
#[test]
fn each_key_is_added_once(rt: HostRuntime) {
    let script = script_of(rt.alloc()).expect(&rt, "no script");
    for _ in 0..ROUNDS {
        one_round(&rt, &script);
    }
}
