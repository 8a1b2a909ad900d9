//! A line of a journal's text with which no legal journal begins so.

use journal_lines::{Lines, line_in};
use serde_json::Value;
use std::alloc::{AllocError, Global};
use std::fmt;
use std::fmt::{Display, Formatter};

/// How the last line of a journal begins.
const END: &[u8] = b"{\"entries\":";

/// What is wrong in the first line with which no legal journal's text begins so. It shows as the text that is printed
/// for it.
#[derive(Clone, Copy, Debug)]
pub enum BadLine {
    /// The text ends before it, and its last line has not come.
    Absent,
    /// It stands behind the last line.
    Behind,
    /// It has no newline at its end.
    Unended,
    /// It is a last line, and its number is not that of the entries before it.
    Count(u64),
    /// It is the line of the entry of this number, which belongs elsewhere.
    Number(u64),
    /// It is no line of an entry: no such object, or another spelling of one.
    NoEntry,
    /// Its entry has this seat, and the greatest is 63.
    Seat(u64),
    /// No run has its call, with its reply, after the entries before it.
    Entry,
}

/// What is wrong in the line of this number, counted from 1, where an audit of the text has said that it is the first
/// bad one.
///
/// It costs a step for each byte of the lines up to that one. No lock is held.
///
/// # Errors
///
/// Memory was refused.
pub fn bad_line_in(alloc: Global, text: &[u8], number: u64) -> Result<BadLine, AllocError> {
    let mut ended = false;
    let mut place = 0u64;
    for line in Lines(text) {
        place = place.saturating_add(1);
        if place == number {
            return if ended {
                Ok(BadLine::Behind)
            } else {
                fault_of(alloc, line, number)
            };
        }
        ended = line.starts_with(END);
    }
    Ok(BadLine::Absent)
}

/// What is wrong in the line, at the place of the entry of this number.
fn fault_of(alloc: Global, line: &[u8], number: u64) -> Result<BadLine, AllocError> {
    let Some(bytes) = without_newline(line) else {
        return Ok(BadLine::Unended);
    };
    if bytes.starts_with(END) {
        return Ok(BadLine::Count(number.saturating_sub(1)));
    }
    match line_in(alloc, number, bytes)? {
        Some(found) if found.seat > 63 => Ok(BadLine::Seat(found.seat)),
        Some(_) => Ok(BadLine::Entry),
        None => number_of(alloc, bytes),
    }
}

/// Whether the line is that of an entry at another place.
fn number_of(alloc: Global, bytes: &[u8]) -> Result<BadLine, AllocError> {
    let Some(number) = stated_number(alloc, bytes)? else {
        return Ok(BadLine::NoEntry);
    };
    match line_in(alloc, number, bytes)? {
        Some(_) => Ok(BadLine::Number(number)),
        None => Ok(BadLine::NoEntry),
    }
}

/// The number that the line states, if it is an object with one.
fn stated_number(alloc: Global, bytes: &[u8]) -> Result<Option<u64>, AllocError> {
    let Ok(text) = str::from_utf8(bytes) else {
        return Ok(None);
    };
    match Value::from_str(alloc, text) {
        Ok(value) => Ok(value.get("entry").and_then(Value::as_u64)),
        Err(error) if error.is_memory() => Err(AllocError),
        Err(_) => Ok(None),
    }
}

/// The line without its newline, if it has one at its end.
pub(crate) fn without_newline(line: &[u8]) -> Option<&[u8]> {
    let (last, bytes) = line.split_last()?;
    if *last == b'\n' { Some(bytes) } else { None }
}

impl Display for BadLine {
    fn fmt<W: fmt::Write>(&self, f: &mut Formatter<W>) -> fmt::Result {
        match *self {
            BadLine::Absent => f.write_str("the text ends before its last line, {\"entries\":N}"),
            BadLine::Behind => f.write_str("it stands behind the last line"),
            BadLine::Unended => f.write_str("it does not end with a newline"),
            BadLine::Count(entries) => write!(f, "the number of entries before it is {entries}"),
            BadLine::Number(number) => write!(f, "it is the line of entry {number}"),
            BadLine::NoEntry => f.write_str("it is not the one spelling of an entry"),
            BadLine::Seat(seat) => write!(f, "seat {seat}, and the greatest is 63"),
            BadLine::Entry => f.write_str("no run has this call and reply after the lines before"),
        }
    }
}
