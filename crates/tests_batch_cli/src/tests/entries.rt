//! Journals as text. An entry is a request, a colon and its outcome.
use super::assert_text;
use batch_cli::{Journal, ScriptQuery};
use bulk_work::Answer;
use handles::{Call, CallReply, Command, Outcome, Reply, Request};
use keys::ByteText;
use std::alloc::AllocError;
use std::panic::Expect;
use std::process::Abort;

// What a client asks, and the outcome.
type ScriptRequest = Request<ByteText, i64, ScriptQuery>;

type ScriptOutcome = Outcome<ByteText, i64, Option<i128>>;

/// The entries of the seat are these in order, each on a line of its own.
pub fn assert_entries<R: AllocGlobal + Abort>(rt: &R, journal: &Journal, seat: u32, wanted: &str) {
    let mut text = String::new(rt.alloc());
    for place in 0..journal.len() {
        let entry = journal.entry(place).expect(rt, "no entry");
        if entry.seat() == seat {
            push_entry(&mut text, entry.request(), entry.outcome()).expect(rt, "no room");
        }
    }
    assert_text(rt, &text, wanted);
}

/// The outcomes of the seat's entries are these in order, each on a line of its own.
pub fn assert_outcomes<R: AllocGlobal + Abort>(rt: &R, journal: &Journal, seat: u32, wanted: &str) {
    let mut text = String::new(rt.alloc());
    for place in 0..journal.len() {
        let entry = journal.entry(place).expect(rt, "no entry");
        if entry.seat() == seat {
            push_line(&mut text, entry.outcome()).expect(rt, "no room");
        }
    }
    assert_text(rt, &text, wanted);
}

/// The seats of the entries, in order.
pub fn seats_of<R: AllocGlobal + Abort>(rt: &R, journal: &Journal) -> Vec<u32> {
    let mut seats = Vec::new(rt.alloc());
    for place in 0..journal.len() {
        let entry = journal.entry(place).expect(rt, "no entry");
        seats.push(entry.seat()).expect(rt, "no room");
    }
    seats
}

fn push_entry(
    text: &mut String,
    request: &ScriptRequest,
    outcome: &ScriptOutcome,
) -> Result<(), AllocError> {
    push_request(text, request)?;
    text.push_str(": ")?;
    push_line(text, outcome)
}

fn push_line(text: &mut String, outcome: &ScriptOutcome) -> Result<(), AllocError> {
    push_outcome(text, outcome)?;
    text.push_str("\n")
}

fn push_request(text: &mut String, request: &ScriptRequest) -> Result<(), AllocError> {
    match request {
        Request::Call(call) => push_call(text, call),
        Request::View(handle) => write!(text, "view {handle}"),
        Request::Freeze(handle, _) => write!(text, "freeze {handle}"),
        Request::Finish(job) => write!(text, "finish {job}"),
        Request::Abandon(job) => write!(text, "abandon {job}"),
    }
}

fn push_call(text: &mut String, call: &Call<ByteText, i64>) -> Result<(), AllocError> {
    match call {
        Call::Open(handle) => write!(text, "open {handle}"),
        Call::Snapshot(handle, to) => write!(text, "snapshot {handle} {to}"),
        Call::Drop(handle) => write!(text, "drop {handle}"),
        Call::On(handle, command) => push_command(text, *handle, command),
    }
}

fn push_command(
    text: &mut String,
    handle: u32,
    command: &Command<ByteText, i64>,
) -> Result<(), AllocError> {
    match command {
        Command::Get(key) => push_write(text, "get", handle, key, &[]),
        Command::Put(key, value) => push_write(text, "put", handle, key, &[**value]),
        Command::PutIfAbsent(key, value) => {
            push_write(text, "put_if_absent", handle, key, &[**value])
        }
        Command::Replace(key, value) => push_write(text, "replace", handle, key, &[**value]),
        Command::ReplaceIf(key, old, value) => {
            push_write(text, "replace_if", handle, key, &[**old, **value])
        }
        Command::Remove(key) => push_write(text, "remove", handle, key, &[]),
        Command::RemoveIf(key, value) => push_write(text, "remove_if", handle, key, &[**value]),
        Command::Size => write!(text, "size {handle}"),
        Command::Clear => write!(text, "clear {handle}"),
    }
}

fn push_write(
    text: &mut String,
    name: &str,
    handle: u32,
    key: &ByteText,
    values: &[i64],
) -> Result<(), AllocError> {
    let key = str::from_utf8(key.as_bytes()).unwrap_or("no text");
    write!(text, "{name} {handle} {key}")?;
    for value in values {
        write!(text, " {value}")?;
    }
    Ok(())
}

fn push_outcome(text: &mut String, outcome: &ScriptOutcome) -> Result<(), AllocError> {
    match outcome {
        Outcome::Reply(reply) => push_reply(text, reply),
        Outcome::View(view) => write!(text, "pairs {}", view.len()),
        Outcome::Frozen(job, view) => write!(text, "job {job} of {}", view.len()),
        Outcome::Answer(answer) => push_answer(text, answer),
        Outcome::Abandoned => text.push_str("abandoned"),
        Outcome::Refused(refusal) => write!(text, "refused {refusal:?}"),
    }
}

fn push_reply(text: &mut String, reply: &CallReply<i64>) -> Result<(), AllocError> {
    match reply {
        CallReply::Unit | CallReply::Reply(Reply::Cleared) => text.push_str("ok"),
        CallReply::Reply(Reply::Old(None)) => text.push_str("none"),
        CallReply::Reply(Reply::Old(Some(value))) => write!(text, "some {}", **value),
        CallReply::Reply(Reply::Done(done)) => write!(text, "{done}"),
        CallReply::Reply(Reply::Size(pairs)) => write!(text, "count {pairs}"),
    }
}

fn push_answer(
    text: &mut String,
    answer: &Answer<ByteText, i64, Option<i128>>,
) -> Result<(), AllocError> {
    match answer {
        Answer::Count(pairs) | Answer::Made(pairs) => write!(text, "count {pairs}"),
        Answer::Images(map) => write!(text, "count {}", map.len()),
        Answer::Truth(truth) => write!(text, "{truth}"),
        Answer::Found(Some((key, value))) => push_write(text, "pair", 0, key, &[**value]),
        Answer::Found(None) | Answer::Item(None) => text.push_str("none"),
        Answer::Item(Some(number)) => write!(text, "item {number}"),
    }
}
