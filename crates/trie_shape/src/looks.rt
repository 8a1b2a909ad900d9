//! What a node shows of its inside.

use slots::{Pair, Shared, Slots};

/// A branch's bitmap, or the pairs of a leaf or bucket in order of their keys.
#[derive(Drop)]
pub enum Look<'a, K, V, S: Slots<K, V> = Shared> {
    /// Bit d is set where the branch has a child of digit d.
    Branch(u32),
    /// One pair in a leaf, two or more in a bucket.
    Pairs(&'a [Pair<K, V, S>]),
}
