//! One name for what a service uses: the map that threads share, its views, and what they are asked.
//!
//! Whoever uses the table of maps under one lock, with its journal, takes `tambyulo_clients`.
#![tactic(auto)]

pub mod history;
mod test;
#[cfg(test)]
mod tests;
mod trie_set;

pub use bounded_map::BoundedMap;
pub use hash_path::{Path, Sought};
pub use key_parts::{Parts, ThreeParts};
pub use seeded_keys::{Seed, SeededText};
pub use test::{Passes, Tested, test_by};
pub use trie_map::{
    Answer, Anything, Asks, Both, ByteText, Crew, Greatest, Groups, Half, ImageFn, InPlace,
    InPlaceMap, Inline, Keeps, Keys, KeysInPlace, Least, MOST_PAIRS, MOST_PAIRS_OF_STRIPE, Monoid,
    NoImages, NoMemory, Pair, PairFn, Pairs, PathKey, PutError, PutsRefused, Quarter, Query,
    Ranked, Reader, Readers, Refusal, RemovalsRefused, Scored, Session, Stored, StoredItem,
    StoredMap, StoredPairs, StoredTest, Sum, TrieMap, Values, Version, View, pairs_of,
};
pub use trie_set::TrieSet;
pub use view_sets::Changes;
