//! What a walk that takes its pairs in bunches has still to read.

ghost use Rattle.std.specs.Prelude.{◌≡◌, [], ◌++◌, All, IsSome};
ghost use Rattle.iter.specs.Bunches.{pairs_held, unread_pairs};
ghost use Rattle.iter.specs.Stacks.{IsSound};

use crate::ahead::{Ahead, Chunk};
use crate::bunch::{Bunch, MOST_OF_BUNCH, push_pairs, push_subtrie};
use hash_path::PathKey;
use trie_fetch::{Values, fetch_levels};
use trie_node::{Pair, Slots};

/// The rest of a bucket that is larger than a bunch, and the subtries after it.
#[derive(Drop)]
pub(crate) struct UnreadPairs<'a, K, V, S: Slots<K, V>> {
    pub(crate) bucket: &'a [Pair<K, V, S>],
    pub(crate) ahead: Ahead<'a, K, V, S>,
}

impl<'a, K: PathKey, V, S: Slots<K, V>> UnreadPairs<'a, K, V, S> {
    /// Fills a bunch with the next pairs: those of one subtrie, or as many of a large bucket as there is room for.
    pub(crate) fn next_bunch(&mut self, bunch: &mut Bunch<'a, K, V, S>)
        requires sound { IsSound K.cmp K.path_of self.old.ahead }
        ensures sound { IsSound K.cmp K.path_of self.new.ahead }
        ensures pairs { unread_pairs self.old ≡ pairs_held bunch.new.items ++ unread_pairs self.new }
        ensures held { All IsSome bunch.new.items }
        ensures none { bunch.new.items ≡ [] → unread_pairs self.old ≡ [] }
    {
        bunch.clear();
        if self.bucket.is_empty() {
            match self.ahead.next_few(MOST_OF_BUNCH as u64) {
                None => return,
                Some(Chunk::Few(node)) => {
                    fetch_levels::<Values, K, V, S>(node);
                    return push_subtrie(node, bunch);
                }
                Some(Chunk::Bucket(pairs)) => self.bucket = pairs,
            }
        }
        let (front, rest) = self.bucket.split_at(self.bucket.len().min(MOST_OF_BUNCH));
        push_pairs(front, bunch);
        self.bucket = rest;
    }
}
