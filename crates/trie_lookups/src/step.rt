//! One step of a look-up: from a node to the child that the path leads to.
ghost use Rattle.trie_shape.specs.Inside.{lent};
ghost use Rattle.trie_shape.specs.Tree.{IsTrie};
ghost use Rattle.trie_shape.specs.View.{branch_of, tree};
ghost use Rattle.trie_lookups.specs.Steps.{Leads};

use hash_path::{Path, PathKey};
use slots::{Pair, Slots};
use trie_shape::{Branch, Contents, Node, has_digit, nth, open_node, place};

/// Where a path leads from a node.
#[derive(Drop)]
pub(crate) enum Step<'a, K, V, S: Slots<K, V>> {
    /// To a child of a branch. The child has not been read yet.
    Child(&'a Node<K, V, S>),
    /// Nowhere: it has come to a leaf or a bucket, which has these pairs.
    Pairs(&'a [Pair<K, V, S>]),
    /// Nowhere: the branch has no child of its digit.
    Nothing,
}

/// Where a path leads from a node that stands at the level.
pub(crate) fn step_from<'a, K: PathKey, V, S: Slots<K, V>>(
    node: &'a Node<K, V, S>,
    path: Path,
    level: u32,
) -> Step<'a, K, V, S>
    requires { IsTrie K.cmp K.path_of level (tree node.now) }
    ensures { Leads K.cmp K.path_of level path.0 (tree node.now) result }
{
    match open_node(node) {
        Contents::Branch(below) => step_below(below, path, level),
        Contents::Pairs(pairs) => Step::Pairs(pairs),
    }
}

/// Where a path leads from a branch that stands at the level.
fn step_below<'a, K: PathKey, V, S: Slots<K, V>>(
    below: Branch<'a, K, V, S>,
    path: Path,
    level: u32,
) -> Step<'a, K, V, S>
    requires { IsTrie K.cmp K.path_of level (branch_of 0 (lent below)) }
    ensures { Leads K.cmp K.path_of level path.0 (branch_of 0 (lent below.entry)) result }
{
    let digit = path.digit(level);
    if !has_digit(below.bitmap, digit) {
        return Step::Nothing;
    }
    Step::Child(nth(below.children, place(below.bitmap, digit)))
}
