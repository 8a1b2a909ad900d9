//! Where a trie's keys and values lie: behind handles that maps share, or in the trie's rows.
//!
//! A trie has a storage `S: Slots<K, V>`. It says what callers put in and get out, and what lies in a row, for a key
//! (`S::Key`) and for a value (`S::Value`). With `Shared` these are handles, `Arc<K>` and `Arc<V>`. With `InPlace` they
//! are the key and the value themselves, and with `KeysInPlace` the key and a handle. Contracts see a `Pair` of each
//! storage as its key and its value.
#![tactic(auto)]

mod in_place;
mod inline;
mod inlined;
mod keys_in_place;
mod pair;
mod shared;
mod storage;

pub use in_place::InPlace;
pub use inline::{Half, Inline, Quarter};
pub use keys_in_place::KeysInPlace;
pub use pair::Pair;
pub use shared::Shared;
pub use storage::{KeySlots, Slots, ValueSlots};
