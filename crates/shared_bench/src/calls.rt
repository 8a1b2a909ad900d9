//! Calls on a table of maps, as values: those that fill a map, and a load of nine gets for each put.

use crate::mixed::{CALLS_OF_A_PUT, next};
use bench_kit::Fault;
use handles::{Call, CallReply, Command, Reply};
use keys::ByteText;
use std::alloc::Global;
use std::sync::Arc;

/// The handle of the map.
pub const MAP: u32 = 1;

/// A call on the map.
pub type MapCall = Call<ByteText, i64>;

/// The calls that open the map and map each key to its number.
pub fn filling(alloc: Global, keys: &[Arc<ByteText>]) -> Result<Vec<MapCall>, Fault> {
    let mut calls = Vec::new(alloc);
    match add_filling(alloc, &mut calls, keys) {
        Ok(()) => Ok(calls),
        Err(fault) => {
            drop(calls);
            Err(fault)
        }
    }
}

fn add_filling(
    alloc: Global,
    calls: &mut Vec<MapCall>,
    keys: &[Arc<ByteText>],
) -> Result<(), Fault> {
    calls.push(Call::Open(MAP))?;
    for (number, key) in keys.iter().enumerate() {
        calls.push(put(alloc, Arc::try_clone(key)?, number as i64)?)?;
    }
    Ok(())
}

/// `count` calls at random keys, the same in each run. A put gives a key the value that it has.
pub fn load(alloc: Global, keys: &[Arc<ByteText>], count: u32) -> Result<Vec<MapCall>, Fault> {
    let mut calls = Vec::with_capacity(alloc, count as usize)?;
    match add_load(alloc, &mut calls, keys, count) {
        Ok(()) => Ok(calls),
        Err(fault) => {
            drop(calls);
            Err(fault)
        }
    }
}

fn add_load(
    alloc: Global,
    calls: &mut Vec<MapCall>,
    keys: &[Arc<ByteText>],
    count: u32,
) -> Result<(), Fault> {
    let mut state = 1;
    for call in 0..count {
        state = next(state);
        let place = (state % (keys.len() as u64).max(1)) as usize;
        let Some(key) = keys.get(place) else {
            break;
        };
        let key = Arc::try_clone(key)?;
        if call % CALLS_OF_A_PUT == 0 {
            calls.push(put(alloc, key, place as i64)?)?;
        } else {
            calls.push(Call::On(MAP, Command::Get(key)))?;
        }
    }
    Ok(())
}

/// The call that maps the key to the value.
pub fn put(alloc: Global, key: Arc<ByteText>, value: i64) -> Result<MapCall, Fault> {
    let Ok(value) = Arc::new(alloc, value) else {
        drop(key);
        return Err(Fault::Memory);
    };
    Ok(Call::On(MAP, Command::Put(key, value)))
}

/// The value in the reply, 0 where it has none.
pub fn value_of(reply: CallReply<i64>) -> i64 {
    let value = value_in(&reply);
    drop(reply);
    value
}

fn value_in(reply: &CallReply<i64>) -> i64 {
    match reply {
        CallReply::Reply(Reply::Old(Some(value))) => **value,
        _ => 0,
    }
}
