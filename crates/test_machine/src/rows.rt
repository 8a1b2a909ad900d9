//! A map as a plain list of rows in the order of a walk, and what commands do to it.

use crate::requests::Do;
use crate::table_outcome::TableOutcome;
use std::alloc::{AllocError, Global};
use test_keys::{ChosenKey, position_of};

/// Where a key stands in a walk: the position of its path word, and its number.
pub type Place = (u128, u32);

/// A pair, with the place of its key.
#[derive(Clone, Copy, Debug, PartialEq, Eq)]
pub struct PlainPair {
    pub place: Place,
    pub key: ChosenKey,
    pub value: u64,
}

/// The row of a pair.
pub fn row_of(key: ChosenKey, value: u64) -> PlainPair {
    PlainPair {
        place: (position_of(key.path), key.id),
        key,
        value,
    }
}

/// The value of a key, or none.
pub fn value_of(rows: &[PlainPair], key: ChosenKey) -> Option<u64> {
    for row in rows {
        if row.key == key {
            return Some(row.value);
        }
    }
    None
}

// Room for as many rows as most maps of the tests have.
fn room(alloc: Global) -> Result<Vec<PlainPair>, AllocError> {
    Vec::with_capacity(alloc, 48)
}

// The rows with this one, in the place of one of its key.
fn with_row(
    alloc: Global,
    rows: &[PlainPair],
    new: PlainPair,
) -> Result<Vec<PlainPair>, AllocError> {
    let mut after = room(alloc)?;
    let mut is_put = false;
    for row in rows {
        if !is_put && new.place <= row.place {
            after.push(new)?;
            is_put = true;
        }
        if row.place != new.place {
            after.push(*row)?;
        }
    }
    if !is_put {
        after.push(new)?;
    }
    Ok(after)
}

// The rows without the one of a key.
fn without(
    alloc: Global,
    rows: &[PlainPair],
    key: ChosenKey,
) -> Result<Vec<PlainPair>, AllocError> {
    let mut after = room(alloc)?;
    for row in rows {
        if row.key != key {
            after.push(*row)?;
        }
    }
    Ok(after)
}

/// What becomes of a map: each pair goes, or a key gets the value, or no value.
#[derive(Clone, Copy)]
pub enum Write {
    Clear,
    At(ChosenKey, Option<u64>),
}

/// What is written, where what is done changes these rows.
pub fn write_of(rows: &[PlainPair], what: Do) -> Option<Write> {
    match what {
        Do::Get(_) | Do::Size => None,
        Do::Clear => Some(Write::Clear),
        Do::Put(key, value) => Some(Write::At(key, Some(value))),
        Do::PutIfAbsent(key, value) => match value_of(rows, key) {
            Some(_) => None,
            None => Some(Write::At(key, Some(value))),
        },
        Do::Replace(key, value) => match value_of(rows, key) {
            Some(_) => Some(Write::At(key, Some(value))),
            None => None,
        },
        Do::ReplaceIf(key, old, value) => write_if(rows, key, old, Some(value)),
        Do::Remove(key) => Some(Write::At(key, None)),
        Do::RemoveIf(key, old) => write_if(rows, key, old, None),
    }
}

// What is written where the key has the old value.
fn write_if(rows: &[PlainPair], key: ChosenKey, old: u64, value: Option<u64>) -> Option<Write> {
    if value_of(rows, key) == Some(old) {
        return Some(Write::At(key, value));
    }
    None
}

/// The rows after what is written.
///
/// # Errors
///
/// There is no memory for them.
pub fn rows_after(
    alloc: Global,
    rows: &[PlainPair],
    write: Write,
) -> Result<Vec<PlainPair>, AllocError> {
    match write {
        Write::Clear => Ok(Vec::new(alloc)),
        Write::At(key, Some(value)) => with_row(alloc, rows, row_of(key, value)),
        Write::At(key, None) => without(alloc, rows, key),
    }
}

/// The outcome of what is done on these rows.
pub fn reply_to(rows: &[PlainPair], what: Do) -> TableOutcome {
    match what {
        Do::Get(key) | Do::Remove(key) => TableOutcome::Old(value_of(rows, key)),
        Do::Put(key, _) | Do::PutIfAbsent(key, _) | Do::Replace(key, _) => {
            TableOutcome::Old(value_of(rows, key))
        }
        Do::ReplaceIf(key, old, _) | Do::RemoveIf(key, old) => {
            TableOutcome::Done(value_of(rows, key) == Some(old))
        }
        Do::Size => TableOutcome::Size(rows.len() as u64),
        Do::Clear => TableOutcome::Cleared,
    }
}
