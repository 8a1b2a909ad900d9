//! A node, and what it shares with its other handles.

ghost use Rattle.std.specs.Prelude.{◌≡◌, IfOk, [], ◌∷◌, map};
ghost use Rattle.trie_shape.specs.Tree.{bucket};
ghost use Rattle.trie_shape.specs.View.{tree, pair_values};

use crate::no_memory::NoMemory;
use crate::stamps::Stamp;
use slots::{Pair, Shared, Slots};
use std::alloc::Global;
use std::sync::Arc;

/// A node of a trie, as it lies in its holder's place: a stamp and one pair, a stamp and a shared
/// handle on the pairs of a bucket, or the head of a branch and a shared handle on its row.
///
/// A leaf costs no memory of its own: it stands among its branch's children. A branch is one block,
/// its row: a row has 2, 4, 8, 16 or 32 places, and the places behind the last child are vacant. The
/// fields are open to the crates that write whole roots, and to no crate above them.
#[cycle(node)]
#[derive(Drop)]
pub enum Node<K, V, S: Slots<K, V> = Shared> {
    /// No node: a place of a row behind the last child.
    Vacant,
    /// One pair.
    Leaf {
        stamp: Stamp,
        pair: Pair<K, V, S>,
    },
    /// Several pairs whose keys have one path word, in the order of the keys.
    Bucket {
        stamp: Stamp,
        pairs: Arc<Vec<Pair<K, V, S>>, Global>,
    },
    /// A branch in a row of two places: the digits that it has children of, the stamp of the last write
    /// through it, the number of pairs below it, and the row.
    Two {
        bitmap: u32,
        stamp: Stamp,
        size: u64,
        row: Arc<[Node<K, V, S>; 2], Global>,
    },
    /// A branch in a row of four places.
    Four {
        bitmap: u32,
        stamp: Stamp,
        size: u64,
        row: Arc<[Node<K, V, S>; 4], Global>,
    },
    /// A branch in a row of eight places.
    Eight {
        bitmap: u32,
        stamp: Stamp,
        size: u64,
        row: Arc<[Node<K, V, S>; 8], Global>,
    },
    /// A branch in a row of sixteen places.
    Sixteen {
        bitmap: u32,
        stamp: Stamp,
        size: u64,
        row: Arc<[Node<K, V, S>; 16], Global>,
    },
    /// A branch in a row of a place for each digit.
    All {
        bitmap: u32,
        stamp: Stamp,
        size: u64,
        row: Arc<[Node<K, V, S>; 32], Global>,
    },
}

impl<K, V, S: Slots<K, V>> Node<K, V, S> {
    /// Another handle on the same node. No memory is requested, but the clone may be refused.
    pub fn try_clone(&self) -> Result<Node<K, V, S>, NoMemory>
    where
        S::Key: Drop,
        ensures { IfOk result (λ n. tree n ≡ tree self.now) }
    {
        match self {
            Node::Vacant => Ok(Node::Vacant),
            Node::Leaf { stamp, pair } => Ok(Node::Leaf {
                stamp: *stamp,
                pair: pair.another()?,
            }),
            Node::Bucket { stamp, pairs } => Ok(Node::Bucket {
                stamp: *stamp,
                pairs: Arc::try_clone(pairs)?,
            }),
            Node::Two {
                bitmap,
                stamp,
                size,
                row,
            } => Ok(Node::Two {
                bitmap: *bitmap,
                stamp: *stamp,
                size: *size,
                row: Arc::try_clone(row)?,
            }),
            Node::Four {
                bitmap,
                stamp,
                size,
                row,
            } => Ok(Node::Four {
                bitmap: *bitmap,
                stamp: *stamp,
                size: *size,
                row: Arc::try_clone(row)?,
            }),
            Node::Eight {
                bitmap,
                stamp,
                size,
                row,
            } => Ok(Node::Eight {
                bitmap: *bitmap,
                stamp: *stamp,
                size: *size,
                row: Arc::try_clone(row)?,
            }),
            Node::Sixteen {
                bitmap,
                stamp,
                size,
                row,
            } => Ok(Node::Sixteen {
                bitmap: *bitmap,
                stamp: *stamp,
                size: *size,
                row: Arc::try_clone(row)?,
            }),
            Node::All {
                bitmap,
                stamp,
                size,
                row,
            } => Ok(Node::All {
                bitmap: *bitmap,
                stamp: *stamp,
                size: *size,
                row: Arc::try_clone(row)?,
            }),
        }
    }
}

/// A leaf of one pair. For the crates that write whole roots.
pub fn make_leaf<K, V, S: Slots<K, V>>(stamp: Stamp, pair: Pair<K, V, S>) -> Node<K, V, S>
    ensures { tree result ≡ bucket stamp.0 (pair ∷ []) }
{
    Node::Leaf { stamp, pair }
}

/// A bucket of pairs of one word. For the crates that write whole roots.
pub fn make_bucket<K, V, S: Slots<K, V>>(
    alloc: Global,
    stamp: Stamp,
    pairs: Vec<Pair<K, V, S>>,
) -> Result<Node<K, V, S>, NoMemory>
where
    S::Key: Drop,
    S::Value: Drop,
    ensures { IfOk result (λ n. tree n ≡ bucket stamp.0 (map pair_values pairs.items)) }
{
    Ok(Node::Bucket {
        stamp,
        pairs: Arc::new(alloc, pairs)?,
    })
}
