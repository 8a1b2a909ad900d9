//! Reading a root as a map.

ghost use Rattle.std.specs.Prelude.{◌≡◌, option_map};
ghost use Rattle.std.specs.FinMap.{find as first_of};
ghost use Rattle.trie_shape.specs.Map.{value_at};
ghost use Rattle.trie_shape.specs.Tree.{IsTrie, entries};
ghost use Rattle.trie_shape.specs.View.{tree, branch_of};
ghost use Rattle.trie_shape.specs.Inside.{lent};
ghost use Rattle.trie_shape.specs.Roots.{IsRoot, map_of};

use crate::bitmap::{has_digit, place};
use crate::contents::{Branch, Contents, nth, open_node};
use crate::node::Node;
use crate::pairs::find_pair;
use hash_path::{Path, PathKey, Sought};
use slots::{Pair, Slots};

/// Begins to fetch the first value from memory, for which nothing waits: it is on
/// its way while the key is compared.
fn fetch_first<K, V, S: Slots<K, V>>(pairs: &[Pair<K, V, S>]) {
    if let Some(pair) = pairs.first() {
        pair.fetch_value();
    }
}

/// The value of the key below a branch that stands at the level.
#[cycle(find)]
fn find_below<'a, K: PathKey, V, S: Slots<K, V>, Q: Sought<K>>(
    below: Branch<'a, K, V, S>,
    key: Q,
    path: Path,
    level: u32,
) -> Option<&'a S::Value>
    requires path { path.0 ≡ K.path_of (Q.key_of key) }
    requires trie { IsTrie K.cmp K.path_of level (branch_of 0 (lent below)) }
    ensures { option_map (λ v. S.value_of v.now) result ≡ first_of K.cmp (Q.key_of key) (entries (branch_of 0 (lent below.entry))) }
{
    let digit = path.digit(level);
    if !has_digit(below.bitmap, digit) {
        return None;
    }
    let at = place(below.bitmap, digit);
    find_at(nth(below.children, at), key, path, level + 1)
}

/// The value of the key below a node that stands at the level.
#[cycle(find)]
fn find_at<'a, K: PathKey, V, S: Slots<K, V>, Q: Sought<K>>(
    node: &'a Node<K, V, S>,
    key: Q,
    path: Path,
    level: u32,
) -> Option<&'a S::Value>
    requires path { path.0 ≡ K.path_of (Q.key_of key) }
    requires trie { IsTrie K.cmp K.path_of level (tree node.now) }
    ensures { option_map (λ v. S.value_of v.now) result ≡ first_of K.cmp (Q.key_of key) (entries (tree node.now)) }
{
    match open_node(node) {
        Contents::Branch(below) => find_below(below, key, path, level),
        Contents::Pairs(pairs) => {
            fetch_first(pairs);
            find_pair(pairs, key).map(Pair::value_slot)
        }
    }
}

/// The value of the key, or none. It requests no memory, and compares keys only in the leaf or
/// bucket at the end of the key's way.
pub fn find<'a, K: PathKey, V, S: Slots<K, V>, Q: Sought<K>>(
    node: &'a Node<K, V, S>,
    key: Q,
) -> Option<&'a S::Value>
    requires root { IsRoot K.cmp K.path_of (tree node.now) }
    ensures { option_map (λ v. S.value_of v.now) result ≡ value_at K.cmp (map_of K.cmp (tree node.now)) (Q.key_of key) }
{
    find_along(node, key, key.path_sought())
}

/// `find`, where the caller has the key's path word already: the key is not hashed again.
pub fn find_along<'a, K: PathKey, V, S: Slots<K, V>, Q: Sought<K>>(
    node: &'a Node<K, V, S>,
    key: Q,
    path: Path,
) -> Option<&'a S::Value>
    requires root { IsRoot K.cmp K.path_of (tree node.now) }
    requires path { path.0 ≡ K.path_of (Q.key_of key) }
    ensures { option_map (λ v. S.value_of v.now) result ≡ value_at K.cmp (map_of K.cmp (tree node.now)) (Q.key_of key) }
{
    find_at(node, key, path, 0)
}
