//! The map that is measured.

use bench_kit::{Fault, text_key};
use slots::Slots;
use std::sync::Wait;
use trie_map::{Anything, ByteText, TrieMap, View};
use write_history::Unnamed;

/// A map that threads share, whose keys and values lie as the storage says.
pub type Map<S> = TrieMap<ByteText, i64, Anything, Unnamed, S>;

/// A view of it.
pub type MapView<S> = View<ByteText, i64, Anything, S>;

/// A map of `pairs` pairs: of the keys `k0000000`, `k0000001` and so on, each with its number.
pub fn filled<S: Slots<ByteText, i64>, R: AllocGlobal + Wait>(
    rt: &R,
    pairs: u32,
) -> Result<Map<S>, Fault>
where
    S::Key: Drop,
    S::Value: Drop,
{
    let map: Map<S> = TrieMap::new(rt)?;
    match fill(rt, &map, pairs) {
        Ok(()) => Ok(map),
        Err(fault) => {
            drop(map);
            Err(fault)
        }
    }
}

/// Maps the keys of the numbers below `pairs` to their numbers.
fn fill<S: Slots<ByteText, i64>, R: AllocGlobal + Wait>(
    rt: &R,
    map: &Map<S>,
    pairs: u32,
) -> Result<(), Fault>
where
    S::Key: Drop,
    S::Value: Drop,
{
    for number in 0..pairs {
        put(rt, map, text_key(rt.alloc(), number)?, i64::from(number))?;
    }
    Ok(())
}

/// Maps the key to the number, and returns its value before, 0 where it had none.
pub fn put<S: Slots<ByteText, i64>, R: Wait>(
    rt: &R,
    map: &Map<S>,
    key: ByteText,
    number: i64,
) -> Result<i64, Fault>
where
    S::Key: Drop,
    S::Value: Drop,
{
    match map.put(rt, key, number) {
        Ok(before) => Ok(number_of::<S>(before)),
        Err(_) => Err(Fault::Memory),
    }
}

/// The number that the value is, 0 where there is none.
pub fn number_of<S: Slots<ByteText, i64>>(value: Option<S::Value>) -> i64
where
    S::Value: Drop,
{
    let Some(value) = value else {
        return 0;
    };
    let number = *S::lend_value(&value);
    drop(value);
    number
}

/// The sum of what the threads came to.
pub fn sum_of(outcomes: Vec<Result<i64, Fault>>) -> Result<i64, Fault> {
    let mut sum = 0i64;
    for outcome in outcomes {
        sum = sum.wrapping_add(outcome?);
    }
    Ok(sum)
}
