//! What calls return.

use crate::call::{ALL_KEYS, KEYS};
use std::fmt;
use std::sync::Wait;
use trie_map::{TrieMap, View};

/// What a call returned.
#[derive(Clone, Copy)]
pub enum Answer {
    /// Nothing.
    Nothing,
    /// A value, or none.
    Value(Option<u64>),
    /// Whether it was done.
    Done(bool),
    /// How many pairs there are.
    Pairs(u64),
    /// All that the map has.
    Contents(Contents),
}

/// All that a map has: the value of each key, or none, and how many pairs there are.
#[derive(Clone, Copy)]
pub struct Contents {
    pub values: [Option<u64>; KEYS],
    pub pairs: u64,
}

impl Contents {
    /// No pair.
    pub const NOTHING: Contents = Contents {
        values: [None; KEYS],
        pairs: 0,
    };

    /// What a view has.
    pub fn of_view(view: &View<u64, u64>) -> Contents {
        let mut values: [Option<u64>; KEYS] = [None; KEYS];
        for (key, slot) in ALL_KEYS.iter().zip(values.iter_mut()) {
            *slot = view.get(key).map(|value| **value);
        }
        Contents {
            values,
            pairs: view.len(),
        }
    }

    /// What a map has that no other thread calls.
    pub fn of_map<R: Wait>(rt: &R, map: &TrieMap<u64, u64>) -> Contents {
        let mut values: [Option<u64>; KEYS] = [None; KEYS];
        for (key, slot) in ALL_KEYS.iter().zip(values.iter_mut()) {
            *slot = map.get_copied(rt, key);
        }
        Contents {
            values,
            pairs: map.len(rt),
        }
    }
}

impl fmt::Display for Answer {
    fn fmt<W: fmt::Write>(&self, f: &mut fmt::Formatter<W>) -> fmt::Result {
        match self {
            Answer::Nothing => f.write_str("ok"),
            Answer::Value(value) => write_value(f, *value),
            Answer::Done(done) => write!(f, "{done}"),
            Answer::Pairs(pairs) => write!(f, "{pairs}"),
            Answer::Contents(contents) => write!(f, "{contents}"),
        }
    }
}

impl fmt::Display for Contents {
    fn fmt<W: fmt::Write>(&self, f: &mut fmt::Formatter<W>) -> fmt::Result {
        for value in self.values {
            write_value(f, value)?;
            f.write_char(' ')?;
        }
        write!(f, "{}", self.pairs)
    }
}

// Writes the value, or a dash for none.
fn write_value<W: fmt::Write>(f: &mut fmt::Formatter<W>, value: Option<u64>) -> fmt::Result {
    match value {
        Some(value) => write!(f, "{value}"),
        None => f.write_char('-'),
    }
}
