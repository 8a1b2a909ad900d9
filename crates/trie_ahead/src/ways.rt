//! Ways down a trie.

ghost use Rattle.std.specs.Prelude.{◌<◌};
ghost use Rattle.hash_path.specs.Digits.{fan_out, word_digits};

use arrayvec::ArrayVec;
use hash_path::{Path, WORD_DIGITS};
use slots::Slots;
use std::alloc::Global;
use std::sync::Arc;
use trie_shape::{Node, has_digit, place};

/// How many ways go down side by side.
pub const AT_ONCE: usize = 8;

/// The way of a path word, down to where it has come.
#[derive(Drop)]
pub struct Way<'a, K, V, S: Slots<K, V>> {
    node: &'a Node<K, V, S>,
    path: Path,
}

/// Ways that go down side by side, and none where one has come to its end. They lie in the call itself, and take no
/// memory.
pub type Ways<'a, K, V, S> = ArrayVec<Option<Way<'a, K, V, S>>, AT_ONCE>;

/// Reads what lies on the ways: of each row the count of its handles, which a write looks at before it changes the row,
/// and the next node; and at a leaf the count of the key's handles.
pub fn read_ahead<'a, K, V, S: Slots<K, V>>(ways: &mut Ways<'a, K, V, S>) {
    for level in 0..WORD_DIGITS {
        if !go_down(ways.as_mut_slice(), level) {
            return;
        }
    }
}

/// Takes each way down by one level, and says whether one of them went.
fn go_down<'a, K, V, S: Slots<K, V>>(ways: &mut [Option<Way<'a, K, V, S>>], level: u32) -> bool
    requires { level < word_digits }
{
    let mut went = false;
    for place in ways.iter_mut() {
        if let Some(way) = place {
            let next = way.below(level);
            went = went || next.is_some();
            *place = next;
        }
    }
    went
}

impl<'a, K, V, S: Slots<K, V>> Way<'a, K, V, S> {
    /// The way of a path word at its begin.
    pub fn from_root(root: &'a Node<K, V, S>, path: Path) -> Way<'a, K, V, S> {
        Way { node: root, path }
    }

    /// The way a level further, or none where it ends here.
    fn below(&self, level: u32) -> Option<Way<'a, K, V, S>>
        requires { level < word_digits }
    {
        let digit = self.path.digit(level);
        let node = match self.node {
            Node::Vacant => None,
            Node::Leaf { pair, .. } => {
                pair.fetch_key();
                None
            }
            Node::Bucket { pairs, .. } => {
                let _ = Arc::strong_count(pairs);
                None
            }
            Node::Two { bitmap, row, .. } => child(row, *bitmap, digit),
            Node::Four { bitmap, row, .. } => child(row, *bitmap, digit),
            Node::Eight { bitmap, row, .. } => child(row, *bitmap, digit),
            Node::Sixteen { bitmap, row, .. } => child(row, *bitmap, digit),
            Node::All { bitmap, row, .. } => child(row, *bitmap, digit),
        };
        match node {
            Some(node) => Some(Way {
                node,
                path: self.path,
            }),
            None => None,
        }
    }
}

/// The child of the digit in a row, or none.
fn child<'a, K, V, S: Slots<K, V>, const N: usize>(
    row: &'a Arc<[Node<K, V, S>; N], Global>,
    bitmap: u32,
    digit: u32,
) -> Option<&'a Node<K, V, S>>
    requires { digit < fan_out }
{
    let _ = Arc::strong_count(row);
    if has_digit(bitmap, digit) {
        row.as_slice().get(place(bitmap, digit))
    } else {
        None
    }
}
