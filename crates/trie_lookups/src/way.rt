//! The look-up of one key, on its way down.
ghost use Rattle.std.specs.Prelude.{◌≡◌, option_map};
ghost use Rattle.std.specs.FinMap.{find as first_of};
ghost use Rattle.trie_shape.specs.Map.{value_at};
ghost use Rattle.trie_shape.specs.Roots.{IsRoot, map_of};
ghost use Rattle.trie_shape.specs.Tree.{IsTrie, entries};
ghost use Rattle.trie_shape.specs.View.{tree};

use crate::step::{Step, step_from};
use hash_path::{Path, PathKey, Sought};
use slots::{Pair, Slots};
use std::marker::Model;
use trie_shape::{Node, find_pair};

/// The look-up of one key, from the root down to where it has come. Contracts see it as the value that it will find,
/// or none: so no step changes it.
#[derive(Drop)]
pub(crate) struct Way<'a, 'k, K: PathKey, V, S: Slots<K, V>, Q: Sought<K>> {
    node: &'a Node<K, V, S>,
    level: u32,
    path: Path,
    key: &'k Q,
}

impl<'a, 'k, K: PathKey, V, S: Slots<K, V>, Q: Sought<K>> Model for Way<'a, 'k, K, V, S, Q> {
    ghost use Rattle.std.specs.Prelude.{◌≡◌, Option};
    ghost use Rattle.std.specs.FinMap.{find};
    ghost use Rattle.trie_shape.specs.Tree.{IsTrie, entries};
    ghost use Rattle.trie_shape.specs.View.{tree};

    ghost Value = { Option V };

    ghost view = { λ a. find K.cmp (Q.key_of a.key.now) (entries (tree a.node.now)) };

    ghost invariant = { λ a. IsTrie K.cmp K.path_of a.level (tree a.node.now) × (a.path.0 ≡ K.path_of (Q.key_of a.key.now)) };
}

impl<'a, 'k, K: PathKey, V, S: Slots<K, V>, Q: Sought<K>> Way<'a, 'k, K, V, S, Q> {
    /// The look-up of a key at its begin. The key is hashed here, and nowhere else.
    pub(crate) fn from_root(root: &'a Node<K, V, S>, key: &'k Q) -> Way<'a, 'k, K, V, S, Q>
        requires { IsRoot K.cmp K.path_of (tree root.now) }
        ensures { result ≡ value_at K.cmp (map_of K.cmp (tree root.now)) (Q.key_of key.now) }
    {
        Way {
            node: root,
            level: 0,
            path: key.path_sought(),
            key,
        }
    }

    /// Goes down by one level, and says whether it did: it stays where it has come to a leaf or a bucket, or to a branch
    /// that has no child of its digit. The node that it comes to is not read yet.
    pub(crate) fn go_down(&mut self) -> bool
        ensures { self.new ≡ self.old }
    {
        match step_from(self.node, self.path, self.level) {
            Step::Child(child) => {
                self.node = child;
                self.level += 1;
                true
            }
            Step::Pairs(_) => false,
            Step::Nothing => false,
        }
    }

    /// The value of the key, or none.
    pub(crate) fn answer(&self) -> Option<&'a S::Value>
        ensures { option_map (λ value. S.value_of value.now) result ≡ self.now }
    {
        find_from(self.node, *self.key, self.path, self.level)
    }
}

/// The value of a key below a node that stands at the level, or none.
fn find_from<'a, K: PathKey, V, S: Slots<K, V>, Q: Sought<K>>(
    node: &'a Node<K, V, S>,
    key: Q,
    path: Path,
    level: u32,
) -> Option<&'a S::Value>
    requires trie { IsTrie K.cmp K.path_of level (tree node.now) }
    requires path { path.0 ≡ K.path_of (Q.key_of key) }
    ensures { option_map (λ value. S.value_of value.now) result ≡ first_of K.cmp (Q.key_of key) (entries (tree node.now)) }
{
    match step_from(node, path, level) {
        Step::Child(child) => find_from(child, key, path, level + 1),
        Step::Pairs(pairs) => find_pair(pairs, key).map(Pair::value_slot),
        Step::Nothing => None,
    }
}
