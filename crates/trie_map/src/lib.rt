//! A map that threads share, for services that never stop: the trie with its snapshots and questions, under locks, with
//! no journal and no end of calls.
//!
//! `TrieMap` is shared by reference. Keys and values go in as they are, and a value comes out as an `Arc`. A `View` of
//! it is read with no lock. Each pair keeps a rule of the user's (`Keeps`), or `Anything`.
#![tactic(auto)]

mod crew_finds;
mod crew_groups;
mod crew_making;
mod crew_questions;
mod origin;
mod refused;
mod shown;
mod trie_map;

pub use bulk_ops::{
    ImageFn, NoImages, PairFn, Part, Query, Stored, StoredItem, StoredMap, StoredPairs, StoredTest,
};
pub use bulk_work::{Answer, Asks, Pair};
pub use combiner::{Both, Greatest, Least, Monoid, Sum};
pub use group_counts::Groups;
pub use hash_path::PathKey;
pub use iter::{Pairs, pairs_of};
pub use keys::ByteText;
pub use map_reader::{Reader, Readers, Since};
pub use map_session::{PutError, Session, law_of_last_put};
pub use map_view::{Keys, Values, View};
pub use refused::{PutsRefused, RemovalsRefused};
pub use slots::{Half, InPlace, Inline, KeysInPlace, Quarter};
pub use stripes::{Anything, Keeps, MOST_PAIRS_OF_STRIPE};
pub use task_pool::Crew;
pub use top_pairs::{Ranked, Scored};
pub use trie_map::{InPlaceMap, TrieMap};
pub use trie_node::NoMemory;
pub use versions::{MOST_PAIRS, Refusal, Version};
