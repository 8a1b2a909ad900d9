//! Maps as versions, whose roots the tests of look-ups, of new values and of filters take.

use std::alloc::Global;
use std::sync::Arc;
use test_keys::ChosenKey;
use trie_node::Stamp;
use versions::{Refusal, Version};

/// A map of the tests.
pub type Map<V> = Version<ChosenKey, V>;

/// The stamp of the nodes that are made.
pub const NEW: Stamp = Stamp(7);

/// Seven keys by their words and numbers. The first three share their words' lowest digit, and two of them the next one
/// too, so that their leaves stand two and three levels below the root. The fourth's leaf stands right below it, and so
/// does a bucket of the last three, which have one word.
pub const KEYS: [(u64, u32); 7] = [(1, 0), (65, 1), (3137, 2), (7, 3), (9, 4), (9, 5), (9, 6)];

/// The key of a word and a number.
pub fn key_at(at: (u64, u32)) -> ChosenKey {
    ChosenKey {
        path: at.0,
        id: at.1,
    }
}

/// A key of a word that the number spreads over all levels.
pub fn spread(number: u32) -> ChosenKey {
    key_at((
        u64::from(number).wrapping_mul(0x9e37_79b9_7f4a_7c15),
        number,
    ))
}

/// Maps the key to the value.
pub fn put(alloc: Global, map: &mut Map<u32>, at: ChosenKey, value: u32) -> Result<(), Refusal> {
    map.put(alloc, Arc::new(alloc, at)?, Arc::new(alloc, value)?)?;
    Ok(())
}
