//! Views in text.

use crate::view::View;
use hash_path::PathKey;
use std::fmt;
use std::fmt::{Debug, Formatter};
use stripes::Keeps;
use trie_node::Slots;

/// All pairs, in the order of `iter`, as `{"a": 1, "b": 2}`.
impl<K: PathKey + Debug, V: Debug, P: Keeps<K, V>, S: Slots<K, V>> Debug for View<K, V, P, S>
where
    S::Key: Debug + Drop,
    S::Value: Debug + Drop,
{
    fn fmt<W: fmt::Write>(&self, f: &mut Formatter<W>) -> fmt::Result {
        f.debug_map().entries(self.iter()).finish()
    }
}
