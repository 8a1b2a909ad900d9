//! The measurements that were asked for.

use crate::arguments::{ALL, Load, Part, part_of};
use crate::asking::ask_all;
use crate::locked::locked_calls;
use crate::mixed::mixed;
use crate::one_key::one_key;
use crate::puts::put_all;
use crate::reads::view_reads;
use crate::views::views;
use bench_kit::{Fault, Storage, storage_of, text_keys, words_of};
use keys::ByteText;
use slots::{InPlace, Shared, Slots};
use std::rt::Runtime;
use std::sync::Wait;
use std::thread::Threads;

/// Measures what the words after the program's name ask for.
pub fn run<R: Runtime + AllocGlobal + Threads + Wait + Sync>(rt: &R) -> Result<(), Fault> {
    let words = words_of(rt)?;
    let (storage, words) = storage_of(words.as_slice());
    let part = part_of(words)?;
    match storage {
        Storage::Rows => measure_all::<InPlace, R>(rt, part),
        Storage::Handles => measure_all::<Shared, R>(rt, part),
    }
}

/// Measures the part, or all parts where there is none.
fn measure_all<
    S: Slots<ByteText, i64> + Send + Sync,
    R: Runtime + AllocGlobal + Threads + Wait + Sync,
>(rt: &R, part: Option<Part>) -> Result<(), Fault>
where
    S::Key: Drop + Send + Sync,
    S::Value: Drop + Send + Sync,
{
    match part {
        Some(part) => measure::<S, R>(rt, part),
        None => {
            for part in ALL {
                measure::<S, R>(rt, part)?;
            }
            Ok(())
        }
    }
}

/// Measures one part.
fn measure<S: Slots<ByteText, i64> + Send + Sync, R: Runtime + AllocGlobal + Threads + Wait + Sync>(
    rt: &R,
    part: Part,
) -> Result<(), Fault>
where
    S::Key: Drop + Send + Sync,
    S::Value: Drop + Send + Sync,
{
    match part {
        Part::Mixed(load) => mixed::<S, R>(rt, load),
        Part::OneKey(load) => one_key::<S, R>(rt, load),
        Part::Views { pairs } => views::<S, R>(rt, pairs),
        Part::Locked(load) => locked(rt, load),
        Part::Crew { pairs, workers } => ask_all::<S, R>(rt, pairs, workers),
        Part::Puts { pairs } => put_all::<S, R>(rt, pairs),
    }
}

/// Calls on the map with a journal, and gets on views of it. Their keys and values lie behind handles.
fn locked<R: Runtime + AllocGlobal + Threads + Wait + Sync>(
    rt: &R,
    load: Load,
) -> Result<(), Fault> {
    let keys = text_keys::<Shared>(rt.alloc(), load.pairs)?;
    let called = locked_calls(rt, load.rounds, keys.as_slice());
    let read = view_reads(rt, load.rounds, keys.as_slice());
    drop(keys);
    called?;
    read
}
