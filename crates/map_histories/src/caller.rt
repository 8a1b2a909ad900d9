//! What a thread makes its calls by.

use crate::answer::{Answer, Contents};
use crate::call::{Call, ReaderCall};
use crate::fault::Fault;
use crate::session_call::SessionCall;
use std::fmt;
use std::sync::{Arc, Wait};
use trie_map::{TrieMap, View};

/// What a thread makes its calls by.
pub trait Caller {
    /// Makes the call, or the one that it has in its place.
    fn make<R: Wait>(&mut self, rt: &R, call: Call) -> Result<Outcome, Fault>;

    /// The value of the key, or none, by the thread's reader.
    fn read<R: Wait>(&mut self, rt: &R, key: u64, call: ReaderCall) -> Option<u64>;

    /// What a `restore` of the thread would put back.
    fn kept(&self) -> Contents;

    /// Has a `restore` put back what the map has now, if the thread makes such calls.
    fn keep<R: Wait>(&mut self, rt: &R) -> Result<(), Fault>;
}

/// A call that was made.
#[derive(Clone, Copy)]
pub enum Made {
    Plain(Call),
    Session(SessionCall),
}

impl fmt::Display for Made {
    fn fmt<W: fmt::Write>(&self, f: &mut fmt::Formatter<W>) -> fmt::Result {
        match self {
            Made::Plain(call) => write!(f, "{call}"),
            Made::Session(call) => write!(f, "{call}"),
        }
    }
}

/// A call that was made, and what it returned.
#[derive(Drop)]
pub struct Outcome {
    pub made: Made,
    pub returned: Returned,
}

/// What a call returned, whose contents, if it has some, are not read yet.
#[derive(Drop)]
pub enum Returned {
    Answer(Answer),
    View(View<u64, u64>),
    Snapshot(TrieMap<u64, u64>),
}

impl Returned {
    /// The answer. The contents of a view or a snapshot, which nobody else has, are read now.
    pub fn answer<R: Wait>(self, rt: &R) -> Answer {
        match self {
            Returned::Answer(answer) => answer,
            Returned::View(view) => Answer::Contents(Contents::of_view(&view)),
            Returned::Snapshot(map) => Answer::Contents(Contents::of_map(rt, &map)),
        }
    }
}

/// A value, or none, as an answer.
pub fn value(found: Option<Arc<u64>>) -> Answer {
    match found {
        Some(value) => Answer::Value(Some(*value)),
        None => Answer::Value(None),
    }
}
