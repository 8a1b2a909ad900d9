//! Maps in text.

use crate::trie_map::TrieMap;
use hash_path::PathKey;
use std::fmt;
use std::fmt::{Debug, Formatter};
use stripes::Keeps;
use trie_node::Slots;
use write_history::Naming;

/// How many pairs there are, as `TrieMap { len: 3 }`. It never waits: while another thread holds a part of the map it is
/// `TrieMap { .. }`. Pairs are shown by a view.
impl<K: PathKey + Drop, V: Drop, P: Keeps<K, V>, J: Naming, S: Slots<K, V>> Debug
    for TrieMap<K, V, P, J, S>
where
    S::Key: Drop,
    S::Value: Drop,
{
    fn fmt<W: fmt::Write>(&self, f: &mut Formatter<W>) -> fmt::Result {
        match self.try_len() {
            Some(pairs) => f.debug_struct("TrieMap").field("len", &pairs).finish(),
            None => f.debug_struct("TrieMap").finish_non_exhaustive(),
        }
    }
}
